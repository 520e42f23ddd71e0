// Bounds, holds and windows of a table.
#![tactic(auto)]

mod busy;
mod limits;
pub mod sizes;

ghost use Rattle.std.specs.Prelude.{◌≡◌};
ghost use Rattle.model.specs.Bounds.{sizing};
ghost use Rattle.table.specs.View.{view_table};
ghost use Rattle.bounds.specs.Answer.{sizing_of};

use refusal::Refusal;
use table::Table;
use table::passing::Passing;

// Eight of each, priority 0 first.
#[derive(Clone, Copy, Debug, PartialEq, Eq)]
pub struct Bounds {
    pub bounds: [u32; 8],
    pub holds: [u32; 8],
    pub windows: [u32; 8],
}

// The bounds, holds and windows of a table, or the refusal: 3 to 6 or 23, or 8 where a priority has no hold.
pub fn bounds_of(t: Table) -> Result<Bounds, Refusal>
    ensures { sizing_of result ≡ sizing (view_table t) }
{
    let passing = Passing::of(t)?;
    let mut bounds = [0u32; 8];
    let mut holds = [0u32; 8];
    let mut windows = [0u32; 8];
    for p in 0..8u8 {
        let Some(l) = limits::limits_of(passing, p) else {
            return Err(Refusal::NoBounds);
        };
        let k = usize::from(p);
        bounds[k] = l.bound;
        holds[k] = l.hold;
        windows[k] = l.window;
    }
    Ok(Bounds {
        bounds,
        holds,
        windows,
    })
}
