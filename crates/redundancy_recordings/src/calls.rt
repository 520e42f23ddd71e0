// The calls, and what is printed of each.
use crate::recording::Recording;
use crate::source::Source;
use output::{Out, STDOUT_FILENO};
use redundancy::{Network, State, Waiting};
use std::fmt;

// Why a run ends before both recordings have: one has something other than a frame, or can't be read; a call is refused; a write
// failed.
#[derive(Clone, Copy, Debug, PartialEq, Eq)]
pub(crate) enum Stop {
    Unread(Network),
    Refused,
    Unwritten,
}

impl From<fmt::Error> for Stop {
    fn from(_: fmt::Error) -> Stop {
        Stop::Unwritten
    }
}

// Presents the frames that wait until both recordings have ended, and prints a line for each call.
pub(crate) fn run(skew: u64, a: Source, b: Source) -> Result<(), Stop> {
    let mut out = Out::new(STDOUT_FILENO);
    let end = present(skew, a, b, &mut out);
    out.flush()?;
    end
}

fn present(skew: u64, a: Source, b: Source, out: &mut Out) -> Result<(), Stop> {
    let mut state = State::fresh(skew);
    let mut a = Recording::new(a);
    let mut b = Recording::new(b);
    advance(&mut a, Network::A)?;
    advance(&mut b, Network::B)?;
    // Nothing says that a file ends, so the loop counts up to a number that no run uses up.
    for _ in 0..u64::MAX {
        if a.has_ended() && b.has_ended() {
            break;
        }
        state = turn(state, &mut a, &mut b, out)?;
    }
    Ok(())
}

fn advance(r: &mut Recording, network: Network) -> Result<(), Stop> {
    r.advance().map_err(|_| Stop::Unread(network))
}

// A call on the frames that wait. The one that is taken makes room for the next of its recording.
fn turn(state: State, a: &mut Recording, b: &mut Recording, out: &mut Out) -> Result<State, Stop> {
    let s = state.select(a.waiting(), b.waiting());
    let length = s.part.len();
    let decision = s.decision;
    match decision.outcome {
        Err(refusal) => {
            writeln!(out, "{refusal}")?;
            return Err(Stop::Refused);
        }
        Ok(taken) => {
            let on = taken.handed_on.then_some(length);
            match taken.network {
                Network::A => {
                    put_taken(out, "A", a.waiting(), on)?;
                    advance(a, Network::A)?;
                }
                Network::B => {
                    put_taken(out, "B", b.waiting(), on)?;
                    advance(b, Network::B)?;
                }
            }
        }
    }
    Ok(decision.state)
}

// The number of a frame is its last byte. If it is handed on, so many bytes of it are.
fn put_taken(out: &mut Out, network: &str, taken: Waiting<'_>, on: Option<usize>) -> fmt::Result {
    let number = taken.frame.last().copied().unwrap_or(0);
    let tick = taken.tick;
    match on {
        Some(length) => writeln!(out, "{network} {number} {tick} on {length}"),
        None => writeln!(out, "{network} {number} {tick} left"),
    }
}
