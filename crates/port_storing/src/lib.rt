// Internal to the product: a frame that passed the police check, stored or dropped.
#![tactic(auto)]

ghost use Rattle.std.specs.Prelude.{◌≡◌, ◌+◌, ◌<◌, ◌^◌, max, leb};
ghost use Rattle.model.specs.Units.{most_frames};
ghost use Rattle.port_scheduler.specs.Promised.{Pushed};
ghost use Rattle.port_storing.specs.Storing.{Stored, Roomy, Settles};

use port_refusals::Verdict;
use port_scheduler::{Frame, Queue};

// The verdict of a frame that passed the police check, and the queue of its link's priority after it.
#[derive(Clone, Copy)]
pub struct Settled {
    pub verdict: Verdict,
    pub queue: Queue,
}

// Whether so many bytes more are within the size; no sum wraps.
fn has_room(held: u64, more: u64, size: u64) -> bool
    ensures { result ≡ leb (held + more) size }
{
    more <= size && held <= size - more
}

// The queue with one frame more, the last.
fn pushed(q: Queue, f: Frame) -> Queue
    requires { q.count < most_frames }
    ensures { Pushed q f result }
{
    let mut r = q;
    let n = usize::from(r.count);
    r.frames[n] = f;
    r.count += 1;
    r
}

// The queue with the frame last; the mark rises to the bytes that it then holds if they are more.
fn stored(q: Queue, f: Frame, bytes: u64) -> Queue
    requires { (q.count < most_frames) × (bytes < 2 ^ 32) }
    ensures { Stored q f bytes result }
{
    let mut r = pushed(q, f);
    let high = bytes as u32;
    r.mark = r.mark.max(high);
    r
}

// Dropped, or stored.
pub fn settle(queue: Queue, size: u32, f: Frame) -> Settled
    requires { Roomy queue size f }
    ensures { Settles queue size f result }
{
    let held = port_scheduler::held(queue);
    let wire = u64::from(f.length);
    let more = units::occupancy(wire);
    if !has_room(held, more, u64::from(size)) {
        return Settled {
            verdict: Verdict::Dropped,
            queue,
        };
    }
    let longer = stored(queue, f, held + more);
    Settled {
        verdict: Verdict::Stored,
        queue: longer,
    }
}

pub fn arrived(number: u16, length: u16, time: u64) -> Frame
    ensures { result ≡ record { number = number; length = «length»; arrival = time } }
{
    Frame {
        number,
        length,
        arrival: time,
    }
}
