// The verdict of a frame that has wholly arrived at the port's clock.
ghost use Rattle.std.specs.Prelude.{◌≡◌, ◌<◌};
ghost use Rattle.port_refusals.specs.Verdicts.{verdict_of};
ghost use Rattle.port.specs.Whole.{Whole};
ghost use Rattle.port.specs.Judging.{ticked as tickedPort, Arrived, LetThrough, Stores, Polices, Judges};

use crate::{Port, charging};
use port_refusals::Verdict;

// The line's tick is the port's clock.
fn tick_line(p: &mut Port, line: u64)
    requires { line < 24 }
    ensures { p.new ≡ tickedPort p.old line }
{
    p.gate.line_ticks[line as usize] = p.clock;
}

// A frame of the link at a place, which passed the police check: dropped, or stored.
fn store(p: &mut Port, i: usize, length: u64) -> Verdict
    requires { Whole p.old × LetThrough p.old i «length» }
    ensures { Stores p.old i «length» (record { verdict = verdict_of result; port = p.new }) }
{
    let link = p.table.links[i];
    let f = port_storing::arrived(p.table.numbers[i], length as u16, p.clock);
    let k = usize::from(link.priority);
    let s = port_storing::settle(p.queues[k], p.table.sizes[k], f);
    p.queues[k] = s.queue;
    s.verdict
}

// A frame of the link at a place, which the filter lets through. It is stored in the very port in which it was charged.
fn police(p: &mut Port, i: usize, length: u64) -> Verdict
    requires { Whole p.old × LetThrough p.old i «length» }
    ensures { Polices p.old i «length» (record { verdict = verdict_of result; port = p.new }) }
{
    let link = p.table.links[i];
    let jitter = u64::from(link.jitter);
    let passed = charging::charge_in(p, i, table::bag(link.code), jitter, p.clock);
    if !passed {
        return Verdict::Policed;
    }
    store(p, i, length)
}

// First the line's tick, then the filter, then the police check.
pub(crate) fn judge(p: &mut Port, line: u64, number: u64, length: u64) -> Verdict
    requires { Whole p.old × Arrived p.old line «length» }
    ensures { Judges p.old line number «length» (record { verdict = verdict_of result; port = p.new }) }
{
    tick_line(p, line);
    let Some(i) = port_filter::admitted(p.table, line, number, length) else {
        return Verdict::Filtered;
    };
    police(p, i, length)
}
