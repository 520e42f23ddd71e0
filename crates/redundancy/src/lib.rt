// Networks A and B: of the frames that wait on two networks the earlier is taken, and one of two copies is handed on.
#![tactic(auto)]

ghost use Rattle.std.specs.Prelude.{◌≡◌, ◌&&◌, ◌||◌, not, ◌-◌, ◌<◌, eqb, leb, length, take};
ghost use Rattle.model.specs.Redundancy.{fresh, sequence_number, among, sound, is_new, received_on, decide_on, refused_by, decide, part_of, select};
ghost use Rattle.refusal.specs.Numbers.{number_of};
ghost use Rattle.redundancy.specs.View.{view_received, view_handed_on, view_network, view_state, view_decision, view_selection, presented, frames};

use refusal::Refusal;

// A waiting frame, empty where there is none, and its arrival tick.
#[derive(Clone, Copy)]
pub struct Waiting<'a> {
    pub frame: &'a [u8],
    pub tick: u64,
}

// A frame by its number and its tick.
#[derive(Clone, Copy, Debug, PartialEq, Eq)]
pub struct Numbered {
    pub number: u8,
    pub tick: u64,
}

// Where a frame was taken from.
#[derive(Clone, Copy, Debug, PartialEq, Eq)]
pub enum Network {
    A,
    B,
}

// The number last received on each network, and what was handed on last, if there was any.
#[derive(Clone, Copy, Debug, PartialEq, Eq)]
pub struct State {
    pub skew: u64,
    pub on_a: Option<u8>,
    pub on_b: Option<u8>,
    pub last: Option<Numbered>,
    pub taken: u64,
}

// What was taken, and whether it was handed on.
#[derive(Clone, Copy, Debug, PartialEq, Eq)]
pub struct Taken {
    pub network: Network,
    pub handed_on: bool,
}

// What was taken, or the refusal, and the new state.
#[derive(Clone, Copy, Debug, PartialEq, Eq)]
pub struct Decision {
    pub outcome: Result<Taken, Refusal>,
    pub state: State,
}

// A decision, and the part of the taken frame that is handed on.
#[derive(Clone, Copy)]
pub struct Selection<'a> {
    pub decision: Decision,
    pub part: &'a [u8],
}

// Whether a number is one of so many that follow another, by their distance round the cycle of 255.
fn is_among(many: u16, before: u8, number: u8) -> bool
    requires { many < 255 }
    ensures { result ≡ among many before number }
{
    if number == 0 {
        return false;
    }
    let ahead = (u16::from(number) + 255 - u16::from(before)) % 255;
    ahead != 0 && ahead <= many
}

fn is_sound(previous: Option<u8>, number: u8) -> bool
    ensures { result ≡ sound (view_received previous) number }
{
    match previous {
        None => true, // the first there
        Some(before) => number == 0 || is_among(2, before, number),
    }
}

// The age is a difference, so that no sum of ticks can wrap.
fn is_new(skew: u64, last: Option<Numbered>, frame: Numbered) -> bool
    ensures { result ≡ is_new skew (view_handed_on last) frame.number frame.tick }
{
    match last {
        None => true, // the first handed on
        Some(before) => {
            if skew < frame.tick.saturating_sub(before.tick) {
                return true;
            }
            if frame.number == 0 {
                return before.number != 0;
            }
            is_among(127, before.number, frame.number)
        }
    }
}

// What was handed on last, made anew from its number and tick. A copy of the whole would also move the padding between them,
// and that costs half of a call.
fn kept(last: Option<Numbered>) -> Option<Numbered>
    ensures { result ≡ last }
{
    match last {
        None => None,
        Some(frame) => Some(Numbered {
            number: frame.number,
            tick: frame.tick,
        }),
    }
}

// The last byte of a frame is its number; that of none is 0.
fn with_number(w: Waiting<'_>) -> Numbered
    ensures { (result.number ≡ sequence_number w.entry.frame.now) × (result.tick ≡ w.entry.tick) }
{
    Numbered {
        number: w.frame.last().copied().unwrap_or(0),
        tick: w.tick,
    }
}

// A frame without its last byte; an empty one as it is.
fn without_last<'a>(frame: &'a [u8]) -> &'a [u8]
    ensures { result.now ≡ take (length frame.now - 1) frame.now }
{
    &frame[..frame.len().saturating_sub(1)]
}

// Whether A's frame is taken.
fn is_a_taken(a: Waiting<'_>, b: Waiting<'_>) -> bool
    ensures { result ≡ (eqb (length b.entry.frame.now) 0 || not (eqb (length a.entry.frame.now) 0) && leb a.entry.tick b.entry.tick) }
{
    b.frame.is_empty() || (!a.frame.is_empty() && a.tick <= b.tick)
}

fn are_empty(a: Waiting<'_>, b: Waiting<'_>) -> bool
    ensures { result ≡ (eqb (length a.entry.frame.now) 0 && eqb (length b.entry.frame.now) 0) }
{
    a.frame.is_empty() && b.frame.is_empty()
}

impl State {
    pub fn fresh(skew: u64) -> State
        ensures { view_state result ≡ fresh skew }
    {
        State {
            skew,
            on_a: None,
            on_b: None,
            last: None,
            taken: 0,
        }
    }

    // The decision by itself: which frame is taken, and whether it is handed on.
    pub fn decide(self, a: Waiting<'_>, b: Waiting<'_>) -> Decision
        ensures { view_decision result ≡ decide (view_state self) (presented a.entry b.entry) }
    {
        if are_empty(a, b) {
            return self.refused(Refusal::BothEmpty);
        }
        // Each network has a branch of its own: one that chooses the frame first makes the next step wait for both ticks.
        if is_a_taken(a, b) {
            if a.tick < self.taken {
                return self.refused(Refusal::BeforeLastTaken);
            }
            return self.taken(Network::A, with_number(a));
        }
        if b.tick < self.taken {
            return self.refused(Refusal::BeforeLastTaken);
        }
        self.taken(Network::B, with_number(b))
    }

    fn refused(self, refusal: Refusal) -> Decision
        ensures { view_decision result ≡ refused_by (number_of refusal) (view_state self) }
    {
        Decision {
            outcome: Err(refusal),
            state: State {
                last: kept(self.last),
                ..self
            },
        }
    }

    // A frame taken from a network.
    fn taken(self, network: Network, frame: Numbered) -> Decision
        ensures { view_decision result ≡ decide_on (view_state self) (view_network network) frame.number frame.tick }
    {
        let number = Some(frame.number);
        let (on_a, on_b) = match network {
            Network::A => (number, self.on_b),
            Network::B => (self.on_a, number),
        };
        let handed_on = self.goes_on(network, frame);
        let last = if handed_on {
            Some(frame)
        } else {
            kept(self.last)
        };
        Decision {
            outcome: Ok(Taken { network, handed_on }),
            state: State {
                skew: self.skew,
                on_a,
                on_b,
                last,
                taken: frame.tick,
            },
        }
    }

    // Whether a frame goes on, by the number received before it on its network and what was handed on last.
    fn goes_on(self, network: Network, frame: Numbered) -> bool
        ensures { result ≡ (sound (received_on (view_network network) (view_state self)) frame.number && is_new self.skew (view_handed_on self.last) frame.number frame.tick) }
    {
        let previous = match network {
            Network::A => self.on_a,
            Network::B => self.on_b,
        };
        is_sound(previous, frame.number) && is_new(self.skew, self.last, frame)
    }

    // The call: the earlier of the waiting frames is taken, and the part of it that is handed on stays where it is.
    pub fn select<'a>(self, a: Waiting<'a>, b: Waiting<'a>) -> Selection<'a>
        ensures { view_selection result ≡ select (view_state self) (presented a.entry b.entry) }
    {
        let decision = self.decide(a, b);
        let part = decision.part(a.frame, b.frame);
        Selection { decision, part }
    }
}

impl Decision {
    // The part of the frame that was taken, of the same two frames.
    pub fn part<'a>(self, a: &'a [u8], b: &'a [u8]) -> &'a [u8]
        ensures { result.now ≡ part_of (view_decision self) (frames a.now b.now) }
    {
        match self.outcome {
            Ok(taken) if taken.handed_on => match taken.network {
                Network::A => without_last(a),
                Network::B => without_last(b),
            },
            _ => &a[..0],
        }
    }
}
