// Internal to the product: the queues and counts of a port record as rings and a flat list, and back.
#![tactic(auto)]

ghost use Rattle.std.specs.Prelude.{◌≡◌, ◌+◌, ◌≤◌, length};
ghost use Rattle.flat_queues.specs.View.{frame_at, queues_in};
ghost use Rattle.port_scheduler.specs.View.{view_frame};
ghost use Rattle.flat_record.specs.Promised.{CountsPut, CountsRead, QueueFits, QueuePutInPlace, QueuesFit, QueuesPut};
ghost use Rattle.flat_record.specs.Promised.{Narrow, RingFits, RingRead, RingsFit, QueuesRead};

use flat_queues::{Rings, slot};
use port_scheduler::{Frame, Queue};
use units::MOST_FRAMES;

// The counts of the links, four each, and that of unknown numbers, into a list that has five numbers a link.
#[inline(never)]
pub fn put_counts(counts: [u64; 1024], unknown: u64, tallies: &mut [u64; 1281])
    ensures { CountsPut counts unknown tallies.new }
{
    for i in 0..256 {
        let from = 4 * i;
        let to = 5 * i;
        tallies[to] = counts[from];
        tallies[to + 1] = counts[from + 1];
        tallies[to + 2] = counts[from + 2];
        tallies[to + 3] = counts[from + 3];
    }
    tallies[1280] = unknown;
}

// The counts of the links in such a list.
#[inline(never)]
pub fn counts_of(tallies: &[u64; 1281]) -> [u64; 1024]
    ensures { CountsRead tallies.now result }
{
    let mut counts = [0u64; 1024];
    for i in 0..256 {
        let from = 5 * i;
        let to = 4 * i;
        counts[to] = tallies[from];
        counts[to + 1] = tallies[from + 1];
        counts[to + 2] = tallies[from + 2];
        counts[to + 3] = tallies[from + 3];
    }
    counts
}

// The queue into ring p.
fn put_queue(q: Queue, p: usize, rings: &mut Rings)
    requires { QueueFits q p }
    ensures { QueuePutInPlace q p rings.old rings.new }
{
    rings.counts[p] = 0;
    let n = usize::from(q.count);
    for i in 0..n {
        let f = q.frames[i];
        rings.push(p, u64::from(f.number), u64::from(f.length), f.arrival);
    }
}

// The queues into rings, what each of them holds, and their marks.
#[inline(never)]
pub fn put_queues(queues: [Queue; 8], rings: &mut Rings)
    requires { QueuesFit queues }
    ensures { QueuesPut queues rings.new × (rings.new.heads ≡ rings.old.heads) }
{
    for p in 0..8 {
        let q = queues[p];
        put_queue(q, p, rings);
        rings.held[p] = port_scheduler::held(q);
        rings.marks[p] = u64::from(q.mark);
    }
}

// The frame of a slot.
fn frame_of(rings: &Rings, s: usize) -> Frame
    requires { (s + 3 ≤ 6144) × Narrow (frame_at rings.now.frames s) }
    ensures { view_frame result ≡ frame_at rings.now.frames s }
{
    Frame {
        number: rings.frames[s] as u16,
        length: rings.frames[s + 1] as u16,
        arrival: rings.frames[s + 2],
    }
}

// Ring p as a queue; the entries behind its count are blank.
fn queue_of(rings: &Rings, p: usize) -> Queue
    requires { RingFits rings.now p }
    ensures { RingRead rings.now p result }
{
    let blank = Frame {
        number: 0,
        length: 0,
        arrival: 0,
    };
    let head = rings.heads[p];
    let count = rings.counts[p];
    let mut q = Queue {
        count: count as u16,
        mark: rings.marks[p] as u32,
        frames: [blank; MOST_FRAMES],
    };
    for i in 0..count as usize {
        q.frames[i] = frame_of(rings, slot(p, head % 256 + i as u64));
    }
    q
}

// The rings and their marks as queues.
#[inline(never)]
pub fn queues_of(rings: &Rings) -> [Queue; 8]
    requires { RingsFit rings.now }
    ensures { QueuesRead rings.now result }
{
    let blank = Frame {
        number: 0,
        length: 0,
        arrival: 0,
    };
    let empty = Queue {
        count: 0,
        mark: 0,
        frames: [blank; MOST_FRAMES],
    };
    let mut queues = [empty; 8];
    for p in 0..8 {
        queues[p] = queue_of(rings, p);
    }
    queues
}
