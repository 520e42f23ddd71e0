// Runs the cases of standard input: calls for the next switch's table, and lists of reports through two ports in a row; and prints what
// they leave. What it must print was computed by reference/, whose src/cases/tandem.rs has the form of a case.
#![tactic(auto)]

mod ports;
mod reports;

use case_records::tables::{say_counts, say_links};
use little_endian::LittleEndian;
use refusal::number_or_0;
use std::io::{Read, Result};

// The bytes before those of a table record.
const HEAD: usize = 19;

fn main(rt: HostRuntime) {
    cases::run(|| next_case(&rt));
}

// Reads a case and prints its lines; an error where the input ends.
fn next_case(rt: &HostRuntime) -> Result<()> {
    let mut head = [0u8; HEAD];
    rt.stdin().read_exact(&mut head)?;
    let line = u64::read(&head, 1);
    let t = case_records::tables::read(rt, u16::read(&head, 17));
    let next = tandem::next_table(t, line, u64::read(&head, 9));
    let rows = next.unwrap_or(table::blank());
    let _ = print!(rt; "next {}", number_or_0(next));
    say_counts(rt, &rows);
    if head[0] == 1 {
        say_links(rt, &rows);
    } else {
        ports::run(rt, t, rows, line);
    }
    Ok(())
}
