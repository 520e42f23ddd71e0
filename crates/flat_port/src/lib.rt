// Internal to the product: a report to a port whose queues are rings and whose counts are one flat list; nothing is copied.
#![tactic(auto)]

mod judging;
mod refusals;

ghost use Rattle.std.specs.Prelude.{◌≡◌};
ghost use Rattle.table.specs.View.{view_table};
ghost use Rattle.port_refusals.specs.Reports.{view_report};
ghost use Rattle.port_refusals.specs.Verdicts.{verdict_of};
ghost use Rattle.flat_port.specs.Lists.{Stands};
ghost use Rattle.flat_port.specs.Promised.{answered, answer_numbers, stored_by as storedFrames, Reports};

use flat_queues::Rings;
use port_policing::Account;
use port_refusals::{Report, Verdict, verdict_or_0};
use port_scheduler::Sending;
use refusal::Refusal;
use table::Table;

// The queues; for each line the tick of its last frame; for each virtual link its account; counts of frames, five numbers a link.
#[derive(Drop)]
pub struct Lists {
    pub rings: Rings,
    pub ticks: [u64; 24],
    pub accounts: [Account; 256],
    pub tallies: [u64; 1281],
}

// The clock, who sends, and how many frames the queues hold.
#[derive(Clone, Copy)]
pub struct State {
    pub clock: u64,
    pub sender: Option<Sending>,
    pub frames: u64,
}

impl State {
    // Each case of the sender by itself: a copy of either would carry along what stands between its parts.
    fn set(&mut self, clock: u64, sender: Option<Sending>, frames: u64)
        ensures { self.new ≡ record { clock = clock; sender = sender; frames = frames } }
    {
        let Some(Sending { priority, start }) = sender else {
            *self = State {
                clock,
                sender: None,
                frames,
            };
            return;
        };
        *self = State {
            clock,
            sender: Some(Sending { priority, start }),
            frames,
        };
    }
}

#[derive(Drop)]
pub struct FlatPort {
    pub lists: Lists,
    pub state: State,
}

// Of an accepted report: the verdict on its frame, if it is no wait, and how many frames were freed.
#[derive(Clone, Copy)]
pub struct Accepted {
    pub verdict: Option<Verdict>,
    pub frames: u64,
}

// The three numbers of an answer: 0 or the number of the refusal; verdict and frames freed, both 0 with a refusal.
pub fn numbers(outcome: Result<Accepted, Refusal>) -> [u64; 3]
    ensures { result ≡ answer_numbers outcome }
{
    match outcome {
        Ok(accepted) => [
            0,
            u64::from(verdict_or_0(accepted.verdict)),
            accepted.frames,
        ],
        Err(refusal) => [u64::from(refusal.number()), 0, 0],
    }
}

// How many frames more the queues hold.
#[tactic(auto, unfolding(crate::specs::Promised::stored_by))]
fn stored(verdict: Verdict) -> u64
    ensures { result ≡ storedFrames (verdict_of verdict) }
{
    match verdict {
        Verdict::Stored => 1,
        _ => 0,
    }
}

impl FlatPort {
    // A report to a port that is fit; it stays so.
    pub fn report(
        &mut self,
        table: &Table,
        report: Report,
        list: &mut [u64],
    ) -> Result<Accepted, Refusal>
        requires { Stands (view_table table.now) self.old }
        ensures { Reports (view_table table.now) self.old (view_report report) list.old list.new (answered result) self.new }
    {
        let state = self.state;
        let lines = u64::from(table.lines);
        refusals::check(lines, &self.lists.ticks, state, report, list.len())?;
        let time = port_refusals::tick_of(report);
        let rings = &mut self.lists.rings;
        let moved = flat_scheduler::advance(rings, state.sender, state.clock, time, list);
        let left = state.frames - moved.frames;
        let Report::Frame(_, line, number, length) = report else {
            self.state.set(time, moved.sender, left);
            return Ok(Accepted {
                verdict: None,
                frames: moved.frames,
            });
        };
        let verdict = self.lists.judge(table, line, number, length, time);
        self.state.set(time, moved.sender, left + stored(verdict));
        Ok(Accepted {
            verdict: Some(verdict),
            frames: moved.frames,
        })
    }
}
