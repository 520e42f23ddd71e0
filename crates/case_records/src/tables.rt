// Table records: read from standard input, and printed. What becomes of a write is as in rows.
ghost use Rattle.std.specs.Prelude.{◌≡◌, ◌<◌, min, IfOk};

use crate::record::table_of;
use std::io::{Read, Result};
use table::Table;

// The longest table record: 256 links, each of 13 bytes, with 51 besides.
const RECORD: usize = 3379;

// Reads a table record of so many bytes. What the input lacks counts as 0.
pub fn read(rt: &HostRuntime, length: u16) -> Table
    ensures { result.lines < 65536 }
{
    let mut bytes = [0u8; RECORD];
    let n = usize::from(length).min(RECORD);
    let _ = rt.stdin().read_exact(&mut bytes[..n]);
    table_of(&bytes)
}

// The counts and the sizes, in the line that has begun; answers how many numbers.
pub fn say_counts(rt: &HostRuntime, t: &Table) -> usize
    ensures { result ≡ 10 }
{
    let _ = print_counts(rt, t);
    10
}

// The same; an error where some of it could not be printed.
pub fn print_counts(rt: &HostRuntime, t: &Table) -> Result<usize>
    ensures { IfOk result (λ n. n ≡ 10) }
{
    let mut printed = print!(rt; " {} {}", t.lines, t.count);
    for size in &t.sizes {
        printed = printed.and(print!(rt; " {size}"));
    }
    printed.and(println!(rt))?;
    Ok(2 + t.sizes.len())
}

// A line for each link; answers how many.
pub fn say_links(rt: &HostRuntime, t: &Table) -> usize
    ensures { result ≡ min t.now.count 256 }
{
    let _ = print_links(rt, t);
    usize::from(t.count).min(256)
}

// The same; an error where some of it could not be printed.
pub fn print_links(rt: &HostRuntime, t: &Table) -> Result<usize>
    ensures { IfOk result (λ n. n ≡ min t.now.count 256) }
{
    let n = usize::from(t.count).min(256);
    let mut printed = Ok(());
    for (number, v) in t.numbers.iter().zip(&t.links).take(n) {
        printed = printed
            .and(print!(rt; "{number} {} {} ", v.line, v.priority))
            .and(println!(rt; "{} {} {} {}", v.code, v.least, v.greatest, v.jitter));
    }
    printed?;
    Ok(n)
}
