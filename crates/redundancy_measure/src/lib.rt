// Internal to the product: the call of `redundancy` for callers that keep no part, which is told by length and ends.
#![tactic(auto)]

ghost use Rattle.std.specs.Prelude.{◌≡◌};
ghost use Rattle.model.specs.Redundancy.{select};
ghost use Rattle.redundancy.specs.View.{view_state, view_decision, presented};
ghost use Rattle.redundancy_measure.specs.Measure.{measure_of};

use redundancy::{Decision, State, Waiting};

// How many bytes a part has, its first and its last, 0 where there is none.
#[derive(Clone, Copy, Debug, PartialEq, Eq)]
pub struct Measure {
    pub length: usize,
    pub first: u8,
    pub last: u8,
}

#[derive(Clone, Copy, Debug, PartialEq, Eq)]
pub struct MeasuredSelection {
    pub decision: Decision,
    pub measure: Measure,
}

fn measure_of(part: &[u8]) -> Measure
    ensures { result ≡ measure_of part.now }
{
    let first = part.first().copied().unwrap_or(0);
    let last = part.last().copied().unwrap_or(0);
    Measure {
        length: part.len(),
        first,
        last,
    }
}

pub fn measured(state: State, a: Waiting<'_>, b: Waiting<'_>) -> MeasuredSelection
    ensures { (view_decision result.decision ≡ (select (view_state state) (presented a.entry b.entry)).decision) × (result.measure ≡ measure_of (select (view_state state) (presented a.entry b.entry)).part) }
{
    let s = state.select(a, b);
    MeasuredSelection {
        decision: s.decision,
        measure: measure_of(s.part),
    }
}
