// A report up to its verdict: refused, or the port advanced to its tick.
ghost use Rattle.std.specs.Prelude.{◌≡◌, Ok, length};
ghost use Rattle.model.specs.Report.{wait, report_refusal};
ghost use Rattle.port_refusals.specs.Reports.{view_report};
ghost use Rattle.port.specs.Whole.{Whole};
ghost use Rattle.port.specs.View.{view_port_table, view_port};
ghost use Rattle.port.specs.Advancing.{Reached, Begun};

use crate::{Accepted, Port, refusals};
use port_refusals::Report;
use refusal::Refusal;

// To a tick; and what was freed until then. Fitness is not tested here.
fn move_to(p: &mut Port, time: u64, list: &mut [u64]) -> Accepted
    requires { report_refusal (view_port_table p.old) (view_port p.old) (wait time) (length list.old) ≡ 0 }
    ensures { Reached p.old time list.old list.new (record { outcome = Ok result; port = p.new }) }
{
    let moved = port_scheduler::advance(p.queues, p.sender, p.clock, time, list);
    p.clock = time;
    let queues = moved.queues;
    p.queues = queues;
    p.sender = moved.sender;
    Accepted {
        verdict: None,
        frames: moved.frames,
        bytes: moved.bytes,
    }
}

// A report to any record: refused, with the record as it came and nothing written; or advanced to its tick.
pub(crate) fn advance(p: &mut Port, r: Report, list: &mut [u64]) -> Result<Accepted, Refusal>
    requires { Whole p.old }
    ensures { Begun p.old (view_report r) list.old list.new (record { outcome = result; port = p.new }) }
{
    refusals::check(p, r, list.len())?;
    Ok(move_to(p, port_refusals::tick_of(r), list))
}
