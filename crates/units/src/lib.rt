// Internal to the product: the units of the paper as constants, each once.
#![tactic(auto)]

ghost use Rattle.std.specs.Prelude.{◌≡◌, [], ◌∷◌, ◌≤◌, leb};
ghost use Rattle.model.specs.Basics.{all_hold};
ghost use Rattle.model.specs.Units.{least_length, greatest_length, occupied};

// A port clock runs from 0 to this tick, 2^48 − 1.
pub const LAST_TICK: u64 = 281474976710655;

// Lengths, in wire bytes.
pub const LEAST_LENGTH: u16 = 84;

pub const GREATEST_LENGTH: u16 = 1538;

// The jitter of a virtual link, in ticks, is at most this.
pub const GREATEST_JITTER: u32 = 125000;

// The BAG of code 0, in ticks: 1 ms.
pub const LEAST_BAG: u64 = 12500;

// What a line carries within the greatest BAG, of as many ticks: so many wire bytes.
pub const LINE_CAPACITY: u32 = 1600000;

// The bytes of a frame on the wire that its buffer does not keep: preamble and gap.
pub const UNKEPT: u64 = 20;

// No queue counts more frames.
pub const MOST_FRAMES: usize = 256;

// What eight full queues hold, and the length of a departure list that has room for it, three numbers each.
pub const MOST_HELD: usize = 8 * MOST_FRAMES;

pub const LIST_ROOM: usize = 3 * MOST_HELD;

// A count of frames rises to this, 2^52, and no further.
pub const FULL_COUNT: u64 = 4503599627370496;

#[tactic(auto, unfolding(model::specs::Basics::all_hold))]
pub fn is_length(bytes: u64) -> bool
    ensures { result ≡ all_hold (leb least_length bytes ∷ leb bytes greatest_length ∷ []) }
{
    u64::from(LEAST_LENGTH) <= bytes && bytes <= u64::from(GREATEST_LENGTH)
}

// What a frame of so many wire bytes takes of its buffer.
#[tactic(auto, unfolding(model::specs::Units::occupied))]
pub fn occupancy(wire: u64) -> u64
    ensures { (result ≡ occupied wire) × (result ≤ wire) }
{
    wire.saturating_sub(UNKEPT)
}
