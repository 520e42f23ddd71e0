// The table record, and its checks.
#![tactic(auto)]

pub mod checks;
pub mod passing;

ghost use Rattle.std.specs.Prelude.{◌≡◌};
ghost use Rattle.model.specs.Link.{bag_of};
ghost use Rattle.model.specs.Table.{blank_table, table_refusal};
ghost use Rattle.refusal.specs.Numbers.{number_or_0};
ghost use Rattle.table.specs.View.{blank_fields, view_table, record_table};

use refusal::Refusal;
use units::LEAST_BAG;

#[derive(Clone, Copy)]
pub struct VirtualLink {
    pub line: u8,
    pub priority: u8,
    pub code: u8,
    pub least: u16,
    pub greatest: u16,
    pub jitter: u32,
}

// Numbers apart from links: a lookup reads them alone.
#[derive(Clone, Copy)]
pub struct Table {
    pub lines: u16,
    pub count: u16,
    pub numbers: [u16; 256],
    pub links: [VirtualLink; 256],
    pub sizes: [u32; 8],
}

// The BAG of a code, in ticks: 12,500 × 2^code; a code above 7 has that of 7.
pub fn bag(code: u8) -> u64
    ensures { result ≡ bag_of code }
{
    let k = code.min(7);
    LEAST_BAG * (1 << k)
}

// The first check that the table meets: 3, then 4 and 5 of each link, 23, 6.
pub fn check(t: Table) -> Result<(), Refusal>
    ensures { number_or_0 result ≡ table_refusal (view_table t) }
{
    if !checks::counts_in_range(t.lines, t.count) {
        return Err(Refusal::CountOutOfRange);
    }
    checks::check_links(t)?;
    checks::check_sizes(t.sizes)
}

// What stands behind the count of a table that was read.
pub fn blank_link() -> VirtualLink
    ensures { result ≡ blank_fields }
{
    VirtualLink {
        line: 0,
        priority: 0,
        code: 0,
        least: 0,
        greatest: 0,
        jitter: 0,
    }
}

// No table: it meets check 3.
pub fn blank() -> Table
    ensures { result ≡ record_table blank_table }
{
    let blank = blank_link();
    Table {
        lines: 0,
        count: 0,
        numbers: [0u16; 256],
        links: [blank; 256],
        sizes: [0u32; 8],
    }
}
