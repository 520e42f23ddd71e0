// A batch to a port that is fit: its parts go into rings and flat lists, the reports run on them, and a port is made of them again.
ghost use Rattle.std.specs.Prelude.{◌*◌, ◌/◌, ◌≤◌, length, Ok};
ghost use Rattle.port.specs.Whole.{Whole};
ghost use Rattle.port_batch.specs.Promised.{Fit, Answered};

use flat_port::{FlatPort, Lists, State};
use flat_queues::Rings;
use port::Port;
use port_policing::Gate;

// The port is changed where it stands; how many departures were written.
#[inline(never)]
pub(crate) fn answered(
    p: &mut Port,
    holding: u64,
    reports: &[u64],
    answers: &mut [u64],
    list: &mut [u64],
) -> u64
    requires { Whole p.old × Fit p.old holding × (3 * (length reports.now / 5) ≤ length answers.old) }
    ensures { Answered p.old reports.now answers.old answers.new list.old list.new (record { outcome = Ok result; port = p.new }) }
{
    let mut flat = FlatPort {
        lists: Lists {
            rings: Rings::empty(),
            ticks: p.gate.line_ticks,
            accounts: p.gate.accounts,
            tallies: [0; 1281],
        },
        state: State {
            clock: p.clock,
            sender: p.sender,
            frames: holding,
        },
    };
    flat_record::put_queues(p.queues, &mut flat.lists.rings);
    flat_record::put_counts(p.counts, p.unknown, &mut flat.lists.tallies);
    let Some(departures) = flat_batch::run(&mut flat, &p.table, reports, answers, list) else {
        return 0;
    };
    p.queues = flat_record::queues_of(&flat.lists.rings);
    p.counts = flat_record::counts_of(&flat.lists.tallies);
    p.clock = flat.state.clock;
    p.sender = flat.state.sender;
    p.gate = Gate {
        line_ticks: flat.lists.ticks,
        accounts: flat.lists.accounts,
    };
    p.unknown = flat.lists.tallies[1280];
    departures
}
