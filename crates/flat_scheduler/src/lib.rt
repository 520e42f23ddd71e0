// Internal to the product: the advance frame by frame, on queues that are rings in flat arrays.
#![tactic(auto)]

ghost use Rattle.std.specs.Prelude.{◌≡◌, ◌≤◌, length};
ghost use Rattle.model.specs.Machine.{at, advance as advanceOf, highest_waiting, start_if_any};
ghost use Rattle.port_scheduler.specs.View.{view_sender};
ghost use Rattle.port_scheduler.specs.Sending.{Sends, Positive, GoesOn};
ghost use Rattle.flat_queues.specs.View.{queues_in, Eight};
ghost use Rattle.flat_scheduler.specs.Promised.{Holds, Leaving, Departs, Ready, Advanced};

use flat_queues::{Rings, slot};
use port_scheduler::Sending;
use units::occupancy;

// What an advance leaves to send, and how many frames it freed.
#[derive(Clone, Copy)]
pub struct Moved {
    pub sender: Option<Sending>,
    pub frames: u64,
}

// The oldest frame of the highest waiting priority starts at the tick, if one waits.
fn start_if_any(rings: &Rings, tick: u64) -> Option<Sending>
    ensures { (view_sender result ≡ start_if_any tick (highest_waiting (queues_in rings.now))) × Eight rings.now }
{
    let highest = rings.counts.iter().position(|&n| 0 < n)?;
    Some(Sending {
        priority: highest as u8,
        start: tick,
    })
}

// Who sends from the tick on. Nobody starts at time itself, so that all arrivals at it compete.
fn sender_from(rings: &Rings, sender: Option<Sending>, tick: u64, time: u64) -> Option<Sending>
    requires { tick ≤ time }
    ensures { Positive (queues_in rings.now) → Sends (queues_in rings.now) (view_sender sender) tick → GoesOn (queues_in rings.now) (view_sender sender) tick time (view_sender result) }
{
    // Made anew of its parts: a copy would carry along what stands between them.
    if let Some(Sending { priority, start }) = sender {
        return Some(Sending { priority, start });
    }
    if time <= tick {
        return None;
    }
    start_if_any(rings, tick)
}

// The head of ring i, which stands at a slot, has left; its departure goes to a place of the list.
fn depart(rings: &mut Rings, i: usize, from: usize, end: u64, list: &mut [u64], k: usize)
    requires { Leaving rings.old i from (length list.old) k }
    ensures { Departs rings.old i from end list.old k rings.new list.new }
{
    let wire = rings.frames[from + 1];
    list[k] = rings.frames[from];
    list[k + 1] = wire;
    list[k + 2] = end;
    rings.held[i] = rings.held[i].saturating_sub(occupancy(wire));
    rings.pop(i);
}

// Rings and sender from clock to time, frame by frame; the departures go to the list, three numbers each. No slot is written.
pub fn advance(
    rings: &mut Rings,
    mut sender: Option<Sending>,
    clock: u64,
    time: u64,
    list: &mut [u64],
) -> Moved
    requires { Ready (queues_in rings.old) (view_sender sender) clock time (length list.old) × Holds rings.old.held (queues_in rings.old) }
    ensures { Advanced (queues_in rings.old) (advanceOf time (at clock (queues_in rings.old) (view_sender sender))) (queues_in rings.new) (view_sender result.sender) result.frames list.old list.new × Holds rings.new.held (queues_in rings.new) × (rings.new.marks ≡ rings.old.marks) × Eight rings.old × (rings.new.frames ≡ rings.old.frames) }
{
    let mut tick = clock;
    let mut k: usize = 0;
    loop {
        sender = sender_from(rings, sender, tick, time);
        let Some(sending) = sender else {
            break;
        };
        let i = usize::from(sending.priority);
        let from = slot(i, rings.heads[i]);
        let wire = rings.frames[from + 1];
        if time - sending.start < wire {
            break;
        }
        let end = sending.start + wire;
        depart(rings, i, from, end, list, 3 * k);
        sender = None;
        tick = end;
        k += 1;
    }
    Moved {
        sender,
        frames: k as u64,
    }
}
