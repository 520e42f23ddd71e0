// Internal to the product: queues of frames as rings in flat arrays: 256 slots a ring, three numbers a slot.
#![tactic(auto)]

ghost use Rattle.std.specs.Prelude.{◌≡◌, List, ℕ, ◌<◌, length, get_or};
ghost use Rattle.model.specs.Machine.{without_head, queued_last};
ghost use Rattle.model.specs.Report.{arrived};
ghost use Rattle.flat_queues.specs.View.{slot_of, rings_of, no_frames, queues_in, Room, HasRoom, Kept};

use units::LIST_ROOM;

// heads: the place of the oldest frame of each ring, modulo 256. counts: how many frames each ring holds. held: how many
// bytes they take of the buffer. marks: the most that they ever took.
#[derive(Drop)]
pub struct Rings {
    pub frames: [u64; LIST_ROOM],
    pub heads: [u64; 8],
    pub counts: [u64; 8],
    pub held: [u64; 8],
    pub marks: [u64; 8],
}

// Where the three numbers of a place of ring p stand.
pub fn slot(p: usize, place: u64) -> usize
    requires { p < 32 }
    ensures { result ≡ slot_of p place }
{
    let round = (place % 256) as usize;
    3 * (256 * p + round)
}

// Of up to 32 rings in lent lists: ring p without its oldest frame.
pub fn pop(heads: &mut [u64], counts: &mut [u64], p: usize)
    requires { (p < length heads.old) × (p < length counts.old) × (0 < get_or counts.old p 0) }
    ensures { (frames : List ℕ) → rings_of frames heads.new counts.new ≡ without_head (rings_of frames heads.old counts.old) p }
{
    heads[p] = heads[p] % 256 + 1;
    counts[p] -= 1;
}

// Of up to 32 rings in lent lists: ring p with one frame more, the last.
pub fn push(
    frames: &mut [u64],
    heads: &[u64],
    counts: &mut [u64],
    p: usize,
    number: u64,
    bytes: u64,
    arrival: u64,
)
    requires { Room p frames.old heads.now counts.old }
    ensures { rings_of frames.new heads.now counts.new ≡ queued_last (rings_of frames.old heads.now counts.old) p (arrived number bytes arrival) }
{
    let n = counts[p];
    let at = slot(p, heads[p] % 256 + n);
    // Each by itself: an array of the three is laid down, tested against the slot, and copied.
    frames[at] = number;
    frames[at + 1] = bytes;
    frames[at + 2] = arrival;
    counts[p] = n + 1;
}

impl Rings {
    // Rings that hold no frame.
    pub fn empty() -> Rings
        ensures { result ≡ no_frames }
    {
        Rings {
            frames: [0; LIST_ROOM],
            heads: [0; 8],
            counts: [0; 8],
            held: [0; 8],
            marks: [0; 8],
        }
    }

    // Ring p without its oldest frame.
    pub fn pop(&mut self, p: usize)
        requires { (p < 8) × (0 < get_or self.old.counts p 0) }
        ensures { (queues_in self.new ≡ without_head (queues_in self.old) p) × Kept self.old self.new × (self.new.frames ≡ self.old.frames) }
    {
        pop(&mut self.heads, &mut self.counts, p);
    }

    // Ring p with one frame more, the last.
    pub fn push(&mut self, p: usize, number: u64, bytes: u64, arrival: u64)
        requires { HasRoom p self.old.counts }
        ensures { (queues_in self.new ≡ queued_last (queues_in self.old) p (arrived number bytes arrival)) × Kept self.old self.new × (self.new.heads ≡ self.old.heads) }
    {
        push(
            &mut self.frames,
            &self.heads,
            &mut self.counts,
            p,
            number,
            bytes,
            arrival,
        );
    }
}
