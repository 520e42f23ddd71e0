// The account of a virtual link, charged where it stands in the port.
ghost use Rattle.std.specs.Prelude.{◌≡◌, ◌<◌};
ghost use Rattle.port.specs.Charging.{charge_by};

use crate::Port;

// The police check of the account at a place, and whether the frame passed; no other account is touched, and nothing else of the port.
pub(crate) fn charge_in(p: &mut Port, i: usize, bag: u64, jitter: u64, time: u64) -> bool
    requires { i < 256 }
    ensures { record { passed = result; port = p.new } ≡ charge_by bag jitter p.old i time }
{
    port_policing::charge(&mut p.gate.accounts[i], bag, jitter, time)
}
