// For bench/: two recordings in memory run through the call of `redundancy`, one call after the other.
#![tactic(auto)]

ghost use Rattle.std.specs.Prelude.{◌≡◌, get_or};
ghost use Rattle.model.specs.Redundancy.{fresh};
ghost use Rattle.redundancy.specs.View.{network_of};
ghost use Rattle.redundancy_bench.specs.Sums.{frame_at, is_b, added, sum_of};

use redundancy::{Network, State, Taken, Waiting};
use redundancy_measure::{Measure, measured};
use refusal::Refusal;

const FRAME: usize = 64;

// The k-th frame of a recording, or none.
fn frame_at<'a>(frames: &'a [u8], k: usize) -> &'a [u8]
    ensures { result.now ≡ frame_at frames.now k }
{
    if k < frames.len() / FRAME {
        let at = k * FRAME;
        return &frames[at..at + FRAME];
    }
    &frames[..0]
}

fn tick_at(ticks: &[u64], k: usize) -> u64
    ensures { result ≡ get_or ticks.now k 0 }
{
    ticks.get(k).copied().unwrap_or(0)
}

fn is_b(outcome: Result<Taken, Refusal>) -> bool
    ensures { result ≡ is_b (network_of outcome) }
{
    match outcome {
        Ok(taken) => match taken.network {
            Network::A => false,
            Network::B => true,
        },
        Err(_) => false,
    }
}

// The sum of what is told of the parts, from one call to the next.
fn with_part(total: u64, m: Measure) -> u64
    ensures { result ≡ added total m }
{
    let length = (m.length % 65536) as u64;
    total % 4294967296 + length + u64::from(m.first) + u64::from(m.last)
}

// So many calls from a fresh state; the frame that is taken makes room for the next of its recording.
#[unsafe(no_mangle)]
pub extern "C" fn bench_redundancy<'a>(
    a: &'a [u8],
    ticks_a: &'a [u64],
    b: &'a [u8],
    ticks_b: &'a [u64],
    skew: u64,
    calls: usize,
) -> u64
    ensures { result ≡ sum_of calls (record { a = a.now; ticks_a = ticks_a.now; b = b.now; ticks_b = ticks_b.now }) (fresh skew) 0 0 0 }
{
    let mut state = State::fresh(skew);
    let mut total: u64 = 0;
    let mut i: usize = 0;
    let mut j: usize = 0;
    for _k in 0..calls {
        let on_a = Waiting {
            frame: frame_at(a, i),
            tick: tick_at(ticks_a, i),
        };
        let on_b = Waiting {
            frame: frame_at(b, j),
            tick: tick_at(ticks_b, j),
        };
        let m = measured(state, on_a, on_b);
        let d = m.decision;
        state = d.state;
        total = with_part(total, m.measure);
        if is_b(d.outcome) {
            j += 1;
        } else {
            i += 1;
        }
    }
    total
}
