// Internal to the product: the fitness of a whole port record, part by part.
#![tactic(auto)]

ghost use Rattle.std.specs.Prelude.{◌≡◌, length};
ghost use Rattle.refusal.specs.Numbers.{number_or_0};
ghost use Rattle.port_record_fitness.specs.Fitness.{table_fits, port_fitness};

use port_policing::Gate;
use port_scheduler::{Queue, Sending};
use refusal::Refusal;
use table::Table;
use units::LAST_TICK;

// The table passes its own checks, 3 to 6 and 23, and the clock is not past the last tick.
fn table_fits(checked: Result<(), Refusal>, clock: u64) -> bool
    ensures { result ≡ table_fits (number_or_0 checked) clock }
{
    checked.is_ok() && clock <= LAST_TICK
}

// How many frames the record of these parts holds, if it is fit, condition by condition. Its one caller is a method of the
// struct of these parts, `Port`, which stands above: its other methods need this test.
pub fn fit(
    t: Table,
    clock: u64,
    queues: [Queue; 8],
    sender: Option<Sending>,
    gate: Gate,
    counts: &[u64],
    unknown: u64,
) -> Option<u64>
    requires { length counts.now ≡ 1024 }
    ensures { result ≡ port_fitness t clock queues sender gate counts.now unknown }
{
    if !table_fits(table::check(t), clock) {
        return None;
    }
    if !counters::fit(counts, unknown, t.count) {
        return None;
    }
    let frames = port_queue_fitness::queues_fit(t, queues, sender, clock)?;
    if !port_fitness::lines_fit(gate.line_ticks, t.lines, clock) {
        return None;
    }
    port_fitness::accounts_fit(gate.accounts, t, clock).then_some(frames)
}
