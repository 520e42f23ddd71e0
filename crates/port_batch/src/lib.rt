// A batch of reports to a port: one call in place of many.
#![tactic(auto)]

mod refusals;
mod running;

ghost use Rattle.std.specs.Prelude.{◌≡◌};
ghost use Rattle.std.specs.Bool.{then_some};
ghost use Rattle.model.specs.Fitness.{fit};
ghost use Rattle.model.specs.Machine.{frames_held};
ghost use Rattle.port.specs.View.{view_port_table, view_port};
ghost use Rattle.port.specs.Whole.{Whole};
ghost use Rattle.port_batch.specs.Promised.{Batches};

use port::Port;
use refusal::Refusal;

// How many departures were written, or the refusal, 19 or 20; and the port handed back.
#[derive(Clone, Copy)]
pub struct Batched {
    pub outcome: Result<u64, Refusal>,
    pub port: Port,
}

// Reports are five numbers each: form (0 a wait, 1 a frame), tick, line, number, length. Three numbers are written for
// each: refusal or 0, verdict, frames freed. The departures of all follow one another in the list, three numbers each.
#[inline(never)]
pub fn batch(mut port: Port, reports: &[u64], answers: &mut [u64], list: &mut [u64]) -> Batched
    ensures { Batches port reports.now answers.old answers.new list.old list.new result }
{
    let outcome = outcome_of(&mut port, reports, answers, list);
    Batched { outcome, port }
}

// The port is changed where it stands.
fn outcome_of(
    port: &mut Port,
    reports: &[u64],
    answers: &mut [u64],
    list: &mut [u64],
) -> Result<u64, Refusal>
    requires { Whole port.old }
    ensures { Batches port.old reports.now answers.old answers.new list.old list.new (record { outcome = result; port = port.new }) }
{
    refusals::check(reports, answers.len())?;
    let Some(holding) = held_if_fit(port) else {
        refusals::refuse_each(reports.len() / 5, answers);
        return Ok(0);
    };
    Ok(running::answered(port, holding, reports, answers, list))
}

// Apart from its caller, so that the copies that the test of fitness takes are gone when the reports run.
#[inline(never)]
fn held_if_fit(port: &Port) -> Option<u64>
    ensures { result ≡ then_some (fit (view_port_table port.now) (view_port port.now)) (frames_held (view_port port.now).scheduler.queues) }
{
    port.frames_if_fit()
}
