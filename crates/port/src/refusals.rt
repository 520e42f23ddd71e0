// The refusals of a report: 10; then 11 to 15, of a port that is fit; then 16.
ghost use Rattle.std.specs.Prelude.{◌≡◌};
ghost use Rattle.model.specs.Report.{report_refusal};
ghost use Rattle.refusal.specs.Numbers.{number_or_0};
ghost use Rattle.port_refusals.specs.Reports.{view_report};
ghost use Rattle.port.specs.Whole.{Whole};
ghost use Rattle.port.specs.View.{view_port_table, view_port};

use crate::Port;
use port_refusals::Report;
use refusal::Refusal;

// The first refusal of a report that is lent a list of so much room.
pub(crate) fn check(p: &Port, report: Report, room: usize) -> Result<(), Refusal>
    requires { Whole p.now }
    ensures { number_or_0 result ≡ report_refusal (view_port_table p.now) (view_port p.now) (view_report report) room }
{
    let Some(frames) = p.frames_if_fit() else {
        return Err(Refusal::PortNotFit);
    };
    let lines = u64::from(p.table.lines);
    port_refusals::check(p.clock, lines, &p.gate.line_ticks, report)?;
    port_refusals::check_room(frames, room)
}
