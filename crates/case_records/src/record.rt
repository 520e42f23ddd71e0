// Table and port records of a case.
ghost use Rattle.std.specs.Prelude.{◌≡◌, ◌*◌, ◌<◌, ℕ, drop, slice_index};
ghost use Rattle.model.specs.TableFile.{number_at};

use crate::reader::Reader;
use port::Port;
use port_policing::{Account, Gate};
use port_scheduler::{Frame, Queue, Sending};
use std::array;
use table::{Table, VirtualLink};

// Lines, count, links, sizes.
pub fn table_of(s: &[u8]) -> Table
    ensures { result.lines ≡ number_at 0 2 s.now }
{
    read_table(&mut Reader { rest: s })
}

fn read_table(r: &mut Reader<'_>) -> Table
    ensures { result.lines ≡ number_at 0 2 r.old.rest.now }
{
    let lines = r.number();
    let count = r.number();
    let rows: [(u16, VirtualLink); 256] = r.array(read_row);
    Table {
        lines,
        count,
        numbers: array::from_fn(|i| rows[i].0),
        links: array::from_fn(|i| rows[i].1),
        sizes: read_sizes(r),
    }
}

fn read_row(r: &mut Reader<'_>) -> (u16, VirtualLink) {
    (r.number(), read_link(r))
}

pub fn read_link(r: &mut Reader<'_>) -> VirtualLink
    ensures bytes { (result.line ≡ number_at 0 1 r.old.rest.now) × (result.priority ≡ number_at 1 1 r.old.rest.now) × (result.code ≡ number_at 2 1 r.old.rest.now) }
    ensures lengths { (result.least ≡ number_at 3 2 r.old.rest.now) × (result.greatest ≡ number_at 5 2 r.old.rest.now) }
    ensures jitter { result.jitter ≡ number_at 7 4 r.old.rest.now }
    ensures rest { r.new.rest.now ≡ drop 11 r.old.rest.now }
{
    VirtualLink {
        line: r.number(),
        priority: r.number(),
        code: r.number(),
        least: r.number(),
        greatest: r.number(),
        jitter: r.number(),
    }
}

pub fn read_sizes(r: &mut Reader<'_>) -> [u32; 8]
    ensures sizes { (k : ℕ) → k < 8 → slice_index result k ≡ number_at (4 * k) 4 r.old.rest.now }
    ensures rest { r.new.rest.now ≡ drop 32 r.old.rest.now }
{
    let mut sizes = [0u32; 8];
    for size in &mut sizes {
        *size = r.number();
    }
    sizes
}

// Clock, sender (kind, priority, start), table, line ticks, accounts, counts, the unknown one, queues.
pub fn port_of(s: &[u8]) -> Port
    ensures { result.clock ≡ number_at 0 8 s.now }
{
    let mut r = Reader { rest: s };
    let clock = r.number();
    let sender = read_sender(&mut r);
    let table = read_table(&mut r);
    let gate = Gate {
        line_ticks: r.array(|r| r.number()),
        accounts: r.array(read_account),
    };
    let counts = r.array(|r| r.number());
    let unknown = r.number();
    Port {
        table,
        clock,
        queues: array::from_fn(|_| read_queue(&mut r)),
        sender,
        gate,
        counts,
        unknown,
    }
}

fn read_sender(r: &mut Reader<'_>) -> Option<Sending> {
    let kind: u8 = r.number();
    let sending = Sending {
        priority: r.number(),
        start: r.number(),
    };
    (kind != 0).then_some(sending)
}

fn read_account(r: &mut Reader<'_>) -> Account {
    Account {
        credit: r.number(),
        tick: r.number(),
    }
}

fn read_frame(r: &mut Reader<'_>) -> Frame {
    Frame {
        number: r.number(),
        length: r.number(),
        arrival: r.number(),
    }
}

fn read_queue(r: &mut Reader<'_>) -> Queue {
    Queue {
        count: r.number(),
        mark: r.number(),
        frames: r.array(read_frame),
    }
}
