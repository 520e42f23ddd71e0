// The counts of a port record added up: each link's sum, and the grand total where there is one.
#![tactic(auto)]

ghost use Rattle.std.specs.Prelude.{◌≡◌};
ghost use Rattle.model.specs.Sums.{sums};
ghost use Rattle.counter_sums.specs.View.{answered, padded};
ghost use Rattle.port.specs.View.{view_port_table, view_port};

use counter_sums::{Sums, sums_of_counts};
use port::Port;
use refusal::Refusal;

// Of any record; 10 of one that is not fit.
pub fn sums_of(port: Port) -> Result<Sums, Refusal>
    ensures { answered result ≡ padded (sums (view_port_table port) (view_port port)) }
{
    if port.frames_if_fit().is_none() {
        return Err(Refusal::PortNotFit);
    }
    Ok(sums_of_counts(&port.counts, port.unknown, port.table.count))
}
