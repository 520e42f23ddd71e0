// Internal to the product: the fitness of single parts of a port record: a frame, the frame being sent, lines, accounts.
#![tactic(auto)]

ghost use Rattle.std.specs.Prelude.{◌≡◌, List, [], ◌∷◌, ℕ, ◌≤◌, ◌<◌, get_or};
ghost use Rattle.model.specs.Basics.{all_hold};
ghost use Rattle.model.specs.Machine.{sending};
ghost use Rattle.model.specs.Fitness.{sender_fit};
ghost use Rattle.table.specs.View.{view_link};
ghost use Rattle.port_scheduler.specs.View.{blank_queue, view_frame, view_queues};
ghost use Rattle.port_fitness.specs.Conditions.{frame_fits, lines_fit, ticks_fit, credits_fit};

use port_policing::{Account, full_account};
use port_scheduler::{Frame, Queue};
use table::{Table, VirtualLink};

// A frame has the queue's priority and a length within its link's limits.
// It arrived no earlier than the frame before it, and by the clock.
#[tactic(auto, unfolding(model::specs::Basics::all_hold))]
pub fn frame_fits(link: VirtualLink, f: Frame, priority: u8, low: u64, clock: u64) -> bool
    ensures { (n : ℕ) → result ≡ frame_fits (view_link n link) priority clock low (view_frame f) }
{
    link.priority == priority
        && link.least <= f.length
        && f.length <= link.greatest
        && low <= f.arrival
        && f.arrival <= clock
}

// The head of the queue whose head is being sent: it arrived by its start, and start < clock < start + length.
pub fn head_fits(q: Queue, start: u64, clock: u64) -> bool
    ensures { (queues : List Queue) (p : ℕ) → p < 8 → q ≡ get_or queues p blank_queue → result ≡ sender_fit clock (view_queues queues) (sending p start) }
{
    if q.count == 0 {
        return false;
    }
    let f = q.frames[0];
    if start < f.arrival {
        return false;
    }
    if clock <= start {
        return false;
    }
    clock - start < u64::from(f.length)
}

// The tick of a line is at most the clock.
pub fn lines_fit(ticks: [u64; 24], lines: u16, clock: u64) -> bool
    requires { lines ≤ 24 }
    ensures { result ≡ lines_fit ticks lines clock }
{
    ticks[..usize::from(lines)]
        .iter()
        .all(|&tick| tick <= clock)
}

// Of each account: its tick is at most the clock, its credit at most B + J.
pub fn accounts_fit(accounts: [Account; 256], t: Table, clock: u64) -> bool
    requires { t.count ≤ 256 }
    ensures { result ≡ all_hold (ticks_fit accounts t.count clock ∷ credits_fit accounts t ∷ []) }
{
    for i in 0..usize::from(t.count) {
        let account = accounts[i];
        if clock < account.tick {
            return false;
        }
        if full_account(t.links[i]).credit < account.credit {
            return false;
        }
    }
    true
}
