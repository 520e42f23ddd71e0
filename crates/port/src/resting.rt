// The fresh port of a table.
ghost use Rattle.std.specs.Prelude.{◌≡◌};
ghost use Rattle.port.specs.Promised.{view_fresh, record_fresh};
ghost use Rattle.port.specs.Resting.{resting_with};

use crate::Port;
use port_policing::{Account, Gate};
use port_scheduler::{Frame, Queue};
use refusal::Refusal;
use table::Table;
use units::MOST_FRAMES;

// A port with nothing held and nothing counted, at clock 0.
fn resting_with(table: Table, accounts: [Account; 256]) -> Port
    ensures { result ≡ resting_with table accounts }
{
    let entry = Frame {
        number: 0,
        length: 0,
        arrival: 0,
    };
    let queue = Queue {
        count: 0,
        mark: 0,
        frames: [entry; MOST_FRAMES],
    };
    Port {
        table,
        clock: 0,
        queues: [queue; 8],
        sender: None,
        gate: Gate {
            line_ticks: [0u64; 24],
            accounts,
        },
        counts: [0u64; 1024],
        unknown: 0,
    }
}

// 3 to 6 or 23; else the fresh port.
pub(crate) fn fresh(table: Table) -> Result<Port, Refusal>
    ensures { view_fresh result ≡ record_fresh table }
{
    table::check(table)?;
    Ok(resting_with(table, port_policing::full_accounts(table)))
}
