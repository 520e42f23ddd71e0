// What is printed of the counts.
ghost use Rattle.std.specs.Prelude.{◌≡◌, length};

use counter_sums::{Sums, sums_of_counts};
use output::Out;
use port::Port;
use std::fmt;

// A line for each link, then the unknown numbers and the grand total.
pub(crate) fn put_counts(out: &mut Out, port: &Port) -> fmt::Result {
    let n = port.table.count;
    let sums = added(&port.counts, port.unknown, n);
    writeln!(out, "number stored filtered policed dropped sum")?;
    let (counts, _) = port.counts.as_chunks::<4>();
    let links = port.table.numbers.iter().zip(counts).zip(&sums.sums);
    for ((number, [stored, filtered, policed, dropped]), sum) in links.take(usize::from(n)) {
        writeln!(
            out,
            "{number} {stored} {filtered} {policed} {dropped} {sum}"
        )?;
    }
    write!(out, "unknown {}\ntotal ", port.unknown)?;
    match sums.total {
        Some(total) => writeln!(out, "{total}"),
        None => writeln!(out, "-"),
    }
}

// What `sums_of` of port_sums gives of a port that is fit, as every one is that comes of a fresh one. Its test of the whole record
// is left out: in a second place of the program it would take 19 KB of stack more.
fn added(counts: &[u64; 1024], unknown: u64, n: u16) -> Sums
    requires { length counts.now ≡ 1024 }
{
    if n > 256 || !counters::fit(counts, unknown, n) {
        return Sums {
            sums: [0; 256],
            total: None,
        };
    }
    sums_of_counts(counts, unknown, n)
}
