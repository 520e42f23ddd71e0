// The checks of a table: counts (3), each link (4, then 5), lines (23), sizes (6).
ghost use Rattle.std.specs.Prelude.{◌≡◌, true, ◌++◌, ℕ, ◌≤◌};
ghost use Rattle.std.proofs.Math.Option.{none};
ghost use Rattle.model.specs.Basics.{first_met};
ghost use Rattle.model.specs.Table.{counts_in_range, fields_in_range, link_checks, links_checks, reservation, line_checks, size_checks};
ghost use Rattle.refusal.specs.Numbers.{number_or_0};
ghost use Rattle.table.specs.View.{view_link, view_links};
ghost use Rattle.table.specs.Checks.{previous_of, SumsOf, OversoldBy};

use crate::{Table, VirtualLink};
use refusal::Refusal;
use units::{GREATEST_JITTER, GREATEST_LENGTH, LEAST_LENGTH, LINE_CAPACITY};

pub fn counts_in_range(lines: u16, count: u16) -> bool
    ensures { result ≡ counts_in_range lines count }
{
    if lines < 1 {
        return false;
    }
    if 24 < lines {
        return false;
    }
    if count < 1 {
        return false;
    }
    count <= 256
}

// The range of a number is that of its type.
fn fields_in_range(lines: u16, link: VirtualLink) -> bool
    ensures { (n : ℕ) → n ≤ 65535 → result ≡ fields_in_range lines (view_link n link) }
{
    if lines <= u16::from(link.line) {
        return false;
    }
    if 7 < link.priority {
        return false;
    }
    if 7 < link.code {
        return false;
    }
    if link.least < LEAST_LENGTH {
        return false;
    }
    if link.greatest < link.least {
        return false;
    }
    if GREATEST_LENGTH < link.greatest {
        return false;
    }
    link.jitter <= GREATEST_JITTER
}

// 4, then 5. The link has so many before it, the last of them with the previous number.
pub fn check_link(
    lines: u16,
    before: usize,
    previous: u16,
    number: u16,
    link: VirtualLink,
) -> Result<(), Refusal>
    ensures { number_or_0 result ≡ first_met (link_checks lines (previous_of before previous) (view_link number link)) }
{
    if !fields_in_range(lines, link) {
        return Err(Refusal::FieldOutOfRange);
    }
    if before == 0 {
        return Ok(());
    }
    if number <= previous {
        return Err(Refusal::NumberNotRising);
    }
    Ok(())
}

// What a link reserves: its greatest length times 2^(7 − code), a code above 7 counting as 7.
fn reservation_of(link: VirtualLink) -> u32
    ensures { ((n : ℕ) → result ≡ reservation (view_link n link)) × (result ≤ 8388480) }
{
    u32::from(link.greatest) << 7u8.saturating_sub(link.code)
}

// A line counts for the sums whatever the line count: each number of a u8 has its sum.
fn line_of(link: VirtualLink) -> usize
    ensures { (result ≡ link.line) × (result ≤ 255) }
{
    usize::from(link.line)
}

// 23 where a line is oversold, by what the links on each line reserve.
fn check_sums(sums: [u32; 256], lines: u16) -> Result<(), Refusal>
    ensures { OversoldBy sums lines (number_or_0 result) }
{
    let n = usize::from(lines).min(256);
    for line in 0..n {
        if LINE_CAPACITY < sums[line] {
            return Err(Refusal::LineOversold);
        }
    }
    Ok(())
}

// The first check that a link of the table meets, 4 or 5; then 23.
pub(crate) fn check_links(t: Table) -> Result<(), Refusal>
    requires { counts_in_range t.lines t.count ≡ true }
    ensures { number_or_0 result ≡ first_met (links_checks t.lines none (view_links t) ++ line_checks t.lines (view_links t)) }
{
    let n = usize::from(t.count);
    let mut sums = [0u32; 256];
    let mut previous: u16 = 0;
    for i in 0..n {
        let number = t.numbers[i];
        let link = t.links[i];
        check_link(t.lines, i, previous, number, link)?;
        let line = line_of(link);
        let more = reservation_of(link);
        sums[line] += more;
        previous = number;
    }
    check_sums(sums, t.lines)
}

// What the links on each line reserve, of any table.
pub fn reserved(t: Table) -> [u32; 256]
    ensures { SumsOf result (view_links t) }
{
    let n = usize::from(t.count).min(256);
    let mut sums = [0u32; 256];
    for i in 0..n {
        let link = t.links[i];
        let on = line_of(link);
        let more = reservation_of(link);
        sums[on] += more;
    }
    sums
}

// 23 where a line is oversold, of any table: for those whose links were checked one by one.
pub fn check_lines(t: Table) -> Result<(), Refusal>
    ensures { number_or_0 result ≡ first_met (line_checks t.lines (view_links t)) }
{
    let sums = reserved(t);
    check_sums(sums, t.lines)
}

pub fn check_sizes(sizes: [u32; 8]) -> Result<(), Refusal>
    ensures { number_or_0 result ≡ first_met (size_checks sizes) }
{
    for &size in &sizes {
        if 16384 < size {
            return Err(Refusal::SizeOutOfRange);
        }
    }
    Ok(())
}
