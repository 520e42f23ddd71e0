// Internal to the product: queues, the sender, and the advance frame by frame.
#![tactic(auto)]

ghost use Rattle.std.specs.Prelude.{◌≡◌, ◌++◌, ◌∷◌, ◌+◌, ◌≤◌, ◌<◌, ◌^◌, length, take, drop, sum_by};
ghost use Rattle.model.specs.Units.{most_frames, occupied};
ghost use Rattle.model.specs.Machine.{highest_waiting, start_if_any, frames_held, held as heldBytes};
ghost use Rattle.port_scheduler.specs.View.{view_queue, view_queues, view_marks, view_sender};
ghost use Rattle.port_scheduler.specs.Promised.{Ready, advance_from, Advanced};
ghost use Rattle.port_scheduler.specs.Sending.{Sends, Positive, GoesOn, HeadGone};

use units::{MOST_FRAMES, occupancy};

#[derive(Clone, Copy)]
pub struct Frame {
    pub number: u16,
    pub length: u16,
    pub arrival: u64,
}

// The first count frames are queued, the oldest first.
// An array with its count, and no Vec: the project's rule, no heap and fixed memory.
#[derive(Clone, Copy)]
pub struct Queue {
    pub count: u16,
    pub mark: u32,
    pub frames: [Frame; MOST_FRAMES],
}

// The priority whose head is being sent, and the tick at which it started.
#[derive(Clone, Copy)]
pub struct Sending {
    pub priority: u8,
    pub start: u64,
}

// What an advance leaves, and how many frames and bytes it freed.
#[derive(Clone, Copy)]
pub struct Moved {
    pub queues: [Queue; 8],
    pub sender: Option<Sending>,
    pub frames: u64,
    pub bytes: u64,
}

// The bytes that a queue holds.
pub fn held(q: Queue) -> u64
    requires { q.count ≤ most_frames }
    ensures { result ≡ heldBytes (view_queue q) }
{
    let queued = &q.frames[..usize::from(q.count)];
    queued.iter().map(|f| occupancy(u64::from(f.length))).sum()
}

// The frames that all queues hold.
pub fn frames_held(queues: [Queue; 8]) -> u64
    ensures { result ≡ frames_held (view_queues queues) }
{
    queues.iter().map(|q| u64::from(q.count)).sum()
}

// The queue without its oldest frame.
fn without_head(q: Queue) -> Queue
    requires { (0 < q.count) × (q.count ≤ most_frames) }
    ensures { HeadGone q result }
{
    let n = usize::from(q.count);
    let mut r = q;
    r.frames.copy_within(1..n, 0);
    r.count -= 1;
    r
}

// The oldest frame of the highest waiting priority starts at the tick, if one waits.
fn start_if_any(queues: [Queue; 8], tick: u64) -> Option<Sending>
    ensures { view_sender result ≡ start_if_any tick (highest_waiting (view_queues queues)) }
{
    let highest = queues.iter().position(|q| 0 < q.count)?;
    Some(Sending {
        priority: highest as u8,
        start: tick,
    })
}

// Who sends from the tick on. Nobody starts at time itself, so that all arrivals at it compete.
fn sender_from(queues: [Queue; 8], sender: Option<Sending>, tick: u64, time: u64) -> Option<Sending>
    requires { Positive (view_queues queues) × Sends (view_queues queues) (view_sender sender) tick × (tick ≤ time) }
    ensures { GoesOn (view_queues queues) (view_sender sender) tick time (view_sender result) }
{
    if sender.is_some() || time <= tick {
        return sender;
    }
    start_if_any(queues, tick)
}

// Three numbers into the list.
fn put(list: &mut [u64], k: usize, number: u64, bytes: u64, freed: u64)
    requires { k + 3 ≤ length list.old }
    ensures { list.new ≡ take k list.old ++ (number ∷ bytes ∷ freed ∷ drop (k + 3) list.old) }
{
    list[k..k + 3].copy_from_slice(&[number, bytes, freed]);
}

// A frame's length in wire bytes.
fn wire_of(f: Frame) -> u64
    ensures { (result ≡ f.length) × (result < 2 ^ 16) }
{
    u64::from(f.length)
}

// Queues and sender from clock to time, frame by frame; the departures go to the list, three numbers each.
pub fn advance(
    mut queues: [Queue; 8],
    mut sender: Option<Sending>,
    clock: u64,
    time: u64,
    list: &mut [u64],
) -> Moved
    requires { Ready queues sender clock time (length list.old) }
    ensures { Advanced (advance_from time clock queues sender) (view_marks queues) list.old list.new result }
{
    let mut tick = clock;
    let mut frames: usize = 0;
    let mut bytes: u64 = 0;
    loop {
        sender = sender_from(queues, sender, tick, time);
        let Some(sending) = sender else {
            break;
        };
        let i = usize::from(sending.priority);
        let q = queues[i];
        let f = q.frames[0];
        let wire = wire_of(f);
        let end = sending.start + wire;
        if time < end {
            break;
        }
        put(list, 3 * frames, u64::from(f.number), wire, end);
        let rest = without_head(q);
        queues[i] = rest;
        sender = None;
        tick = end;
        frames += 1;
        let kept = occupancy(wire);
        bytes += kept;
    }
    Moved {
        queues,
        sender,
        frames: frames as u64,
        bytes,
    }
}
