// Internal to the product: a frame that passed the police check, stored in a ring of flat arrays or dropped.
#![tactic(auto)]

ghost use Rattle.model.specs.Table.{Table};
ghost use Rattle.model.specs.Port.{Port};
ghost use Rattle.model.specs.Report.{arrived};
ghost use Rattle.port_refusals.specs.Verdicts.{verdict_of};
ghost use Rattle.flat_queues.specs.View.{queues_in};
ghost use Rattle.flat_scheduler.specs.Promised.{Holds};
ghost use Rattle.flat_storing.specs.Storing.{Roomy, Shown, Settles, KeptInPlace};

use flat_queues::Rings;
use port_refusals::Verdict;

// Dropped, or stored.
pub fn settle(
    rings: &mut Rings,
    p: usize,
    size: u64,
    number: u64,
    length: u64,
    time: u64,
) -> Verdict
    requires { Roomy rings.old p size length }
    ensures { ((t : Table) (s : Port) → Shown t s p size (queues_in rings.old) rings.old.marks → Settles t s p (arrived number length time) (verdict_of result) (queues_in rings.new) rings.new.marks) × Holds rings.new.held (queues_in rings.new) × KeptInPlace rings.old (verdict_of result) rings.new }
{
    let before = rings.held[p];
    let more = units::occupancy(length);
    if size < before {
        return Verdict::Dropped;
    }
    if size - before < more {
        return Verdict::Dropped;
    }
    let sum = before + more;
    rings.push(p, number, length, time);
    rings.held[p] = sum;
    rings.marks[p] = rings.marks[p].max(sum);
    Verdict::Stored
}
