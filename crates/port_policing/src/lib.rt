// Internal to the product: the account of a virtual link (a token bucket), the police check, the accounts at rest, and the gate.
#![tactic(auto)]

ghost use Rattle.std.specs.Prelude.{◌≡◌, ◌+◌, ◌-◌, ◌≤◌, ◌<◌, min, ℕ};
ghost use Rattle.model.specs.Port.{full_account};
ghost use Rattle.table.specs.View.{view_link};
ghost use Rattle.port_policing.specs.Check.{record_account, check_by};
ghost use Rattle.port_policing.specs.Full.{full_accounts};

use table::{Table, VirtualLink};

// Credit in ticks, and the tick of its last change.
#[derive(Clone, Copy)]
pub struct Account {
    pub credit: u64,
    pub tick: u64,
}

// For each line the tick of its last frame; for each virtual link its account.
#[derive(Clone, Copy)]
pub struct Gate {
    pub line_ticks: [u64; 24],
    pub accounts: [Account; 256],
}

// Whether the frame passed, and the account after it.
// No Option or Result: there is an account after either outcome, `passed` says nothing of whether it is there.
#[derive(Clone, Copy)]
pub struct Checked {
    pub passed: bool,
    pub account: Account,
}

// The police check of a frame at a tick, for any BAG and jitter. The sum B + J is not formed, so that none can wrap:
// the smaller of B + J and c, less B, is the smaller of J and c − B.
pub fn police(a: Account, bag: u64, jitter: u64, time: u64) -> Checked
    ensures { result ≡ check_by bag jitter a time }
{
    let gone = time.saturating_sub(a.tick);
    let short = bag.saturating_sub(a.credit);
    if gone < short {
        let grown = a.credit + gone;
        return Checked {
            passed: false,
            account: Account {
                credit: grown,
                tick: time,
            },
        };
    }
    let rest = a.credit.saturating_sub(bag);
    let credit = jitter.min(rest.saturating_add(gone - short));
    Checked {
        passed: true,
        account: Account { credit, tick: time },
    }
}

// The account is charged where it stands: the police check of a frame at a tick; whether it passed.
pub fn charge(a: &mut Account, bag: u64, jitter: u64, time: u64) -> bool
    ensures { record { passed = result; account = a.new } ≡ check_by bag jitter a.old time }
{
    let c = police(*a, bag, jitter, time);
    *a = c.account;
    c.passed
}

// A full account: credit B + J.
pub fn full_account(link: VirtualLink) -> Account
    ensures { (n : ℕ) → result ≡ record_account (full_account (view_link n link)) }
{
    Account {
        credit: table::bag(link.code) + u64::from(link.jitter),
        tick: 0,
    }
}

// Credit B + J for each link; the accounts behind the count are blank.
pub fn full_accounts(t: Table) -> [Account; 256]
    requires { t.count ≤ 256 }
    ensures { result ≡ full_accounts t }
{
    let blank = Account { credit: 0, tick: 0 };
    let mut accounts = [blank; 256];
    for i in 0..usize::from(t.count) {
        accounts[i] = full_account(t.links[i]);
    }
    accounts
}
