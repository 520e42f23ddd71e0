// For the programs over the reference's cases: one case after another.
#![tactic(auto)]

ghost use Rattle.std.specs.Prelude.{◌≡◌, ◌⊎◌, List, length};
ghost use Rattle.std.specs.List.{FoldsTo};

use std::io::Result;

// Runs case after case, until one answers an error, as where the input ends. It gives up after 2^64 - 1 of them, which no run reaches.
pub fn run<F: FnMut() -> Result<()>>(mut next: F)
    requires { F.IsAlwaysCallable next }
    ensures { (well : List (Unit {0})) × (now : F) × FoldsTo (λ p x q. F.step p (Ok x) q) next well now × ((length well ≡ u64.MAX) ⊎ ((e : _) × (last : F) × F.step now (Err e) last)) }
{
    // Nothing says that the input ends; no run uses up so many turns.
    for turn in 0..u64::MAX {
        if next().is_err() {
            return;
        }
    }
}
