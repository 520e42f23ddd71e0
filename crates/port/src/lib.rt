// An output port: the fresh port, frame and wait reports.
#![tactic(auto)]

mod advancing;
mod charging;
mod counting;
mod judging;
mod refusals;
mod reports;
mod resting;

ghost use Rattle.std.specs.Prelude.{◌≡◌};
ghost use Rattle.std.specs.Bool.{then_some};
ghost use Rattle.model.specs.Machine.{frames_held};
ghost use Rattle.model.specs.Fitness.{fit};
ghost use Rattle.model.specs.Report.{frame as frameReport, wait as waitReport};
ghost use Rattle.port.specs.View.{view_port_table, view_port};
ghost use Rattle.port.specs.Promised.{view_fresh, record_fresh, Answered};

use port_policing::Gate;
use port_refusals::Verdict;
use port_scheduler::{Queue, Sending};
use refusal::Refusal;
use table::Table;

#[derive(Clone, Copy)]
pub struct Port {
    pub table: Table,
    pub clock: u64,
    pub queues: [Queue; 8],
    pub sender: Option<Sending>,
    pub gate: Gate,
    // How many frames of the link at place i were given verdict v, at 4 * i + v; and how many had an unknown number.
    pub counts: [u64; 1024],
    pub unknown: u64,
}

// The verdict, of a frame and not of a wait; and the frames and bytes freed.
#[derive(Clone, Copy, Debug, PartialEq, Eq)]
pub struct Accepted {
    pub verdict: Option<Verdict>,
    pub frames: u64,
    pub bytes: u64,
}

// What a report comes to, and the port handed back.
#[derive(Clone, Copy)]
pub struct Answer {
    pub outcome: Result<Accepted, Refusal>,
    pub port: Port,
}

impl Port {
    // The fresh port of a table; or the refusal, 3 to 6 or 23.
    pub fn fresh(table: Table) -> Result<Port, Refusal>
        ensures { view_fresh result ≡ record_fresh table }
    {
        resting::fresh(table)
    }

    // A frame of that number and length has wholly arrived on the line at the tick.
    // Departures go to the list, three numbers each: number, length, tick freed.
    pub fn frame(self, tick: u64, line: u64, number: u64, length: u64, list: &mut [u64]) -> Answer
        ensures { Answered self (frameReport tick line number «length») list.old list.new result }
    {
        let mut port = self;
        let outcome = reports::frame(&mut port, tick, line, number, length, list);
        Answer { outcome, port }
    }

    // The port at a tick at which nothing arrives.
    pub fn wait(self, tick: u64, list: &mut [u64]) -> Answer
        ensures { Answered self (waitReport tick) list.old list.new result }
    {
        let mut port = self;
        let outcome = reports::wait(&mut port, tick, list);
        Answer { outcome, port }
    }

    // How many frames the record holds, if it is fit, condition by condition.
    pub fn frames_if_fit(&self) -> Option<u64>
        ensures { result ≡ then_some (fit (view_port_table self.now) (view_port self.now)) (frames_held (view_port self.now).scheduler.queues) }
    {
        port_record_fitness::fit(
            self.table,
            self.clock,
            self.queues,
            self.sender,
            self.gate,
            &self.counts,
            self.unknown,
        )
    }
}
