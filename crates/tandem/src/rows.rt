// The rows of the next table.
ghost use Rattle.std.specs.Prelude.{◌≡◌, ◌+◌, ◌-◌, ◌≤◌, get_or};
ghost use Rattle.tandem.specs.Answer.{next_of};
ghost use Rattle.tandem.specs.Rows.{moved_link, Ready, rows_of};

use refusal::Refusal;
use table::{Table, VirtualLink};
use units::GREATEST_JITTER;

fn hold_of(holds: [u32; 8], priority: u8) -> u32
    requires { priority ≤ 7 }
    ensures { result ≡ get_or holds priority 0 }
{
    holds[usize::from(priority)]
}

fn next_jitter(jitter: u32, hold: u32, least: u16) -> u64
    ensures { result ≡ jitter + hold - least }
{
    (u64::from(jitter) + u64::from(hold)).saturating_sub(u64::from(least))
}

fn next_link(v: VirtualLink, hold: u32, line: u8) -> VirtualLink
    requires { (hold ≤ 65536) × (v.jitter ≤ 125000) }
    ensures { result ≡ moved_link v hold line }
{
    VirtualLink {
        line,
        priority: v.priority,
        code: v.code,
        least: v.least,
        greatest: v.greatest,
        jitter: next_jitter(v.jitter, hold, v.least) as u32,
    }
}

// The rows of a table that has bounds, by its holds; or 21, or 23, which never comes (RowsCarried).
pub(crate) fn next_rows(t: Table, holds: [u32; 8], line: u8, lines: u16) -> Result<Table, Refusal>
    requires { Ready t holds }
    ensures { next_of result ≡ rows_of t line lines }
{
    let n = usize::from(t.count);
    let mut numbers = [0u16; 256];
    let mut links = [table::blank_link(); 256];
    // A flag and no early end: 21 is due behind the last link, and a loop that always runs is as plain.
    let mut late = false;
    for i in 0..n {
        let v = t.links[i];
        let link = next_link(v, hold_of(holds, v.priority), line);
        late = late | (GREATEST_JITTER < link.jitter);
        numbers[i] = t.numbers[i];
        links[i] = link;
    }
    if late {
        return Err(Refusal::JitterTooLarge);
    }
    let table = Table {
        lines,
        count: t.count,
        numbers,
        links,
        sizes: [0u32; 8],
    };
    table::checks::check_lines(table)?;
    Ok(table)
}
