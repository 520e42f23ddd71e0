// The refusals of a report to a port that is fit: 11 to 15, then 16.
ghost use Rattle.std.specs.Prelude.{◌≡◌};
ghost use Rattle.refusal.specs.Numbers.{number_or_0};
ghost use Rattle.port_refusals.specs.Reports.{view_report, Clocked};
ghost use Rattle.flat_port.specs.Promised.{refusal_by};

use crate::State;
use port_refusals::Report;
use refusal::Refusal;

// The first, if there is one, for a list of so much room.
pub(crate) fn check(
    lines: u64,
    ticks: &[u64],
    state: State,
    report: Report,
    room: usize,
) -> Result<(), Refusal>
    requires { Clocked ticks.now lines }
    ensures { number_or_0 result ≡ refusal_by state lines ticks.now (view_report report) room }
{
    port_refusals::check(state.clock, lines, ticks, report)?;
    port_refusals::check_room(state.frames, room)
}
