// Runs the cases of standard input, each a table record, through the call for the handful that breaks a table, and prints the table that it
// hands out and what is sold of each line. What it must print was computed by reference/, whose src/cases/handful.rs has the form of a case.
#![tactic(auto)]

use case_records::sums::of_table;
use case_records::tables;
use little_endian::LittleEndian;
use refusal::number_or_0;
use std::io::{Read, Result};
use table::Table;

// The bytes before those of a table record.
const HEAD: usize = 2;

fn main(rt: HostRuntime) {
    cases::run(|| next_case(&rt));
}

// Reads a case and prints its lines; an error where the input ends.
fn next_case(rt: &HostRuntime) -> Result<()> {
    let mut head = [0u8; HEAD];
    rt.stdin().read_exact(&mut head)?;
    let t = tables::read(rt, u16::read(&head, 0));
    let core = overload_core::core_of(t);
    let kept = core.unwrap_or(table::blank());
    let _ = print!(rt; "handful {} {}", number_or_0(core), of_table(kept));
    tables::say_counts(rt, &kept);
    tables::say_links(rt, &kept);
    say_sold(rt, "sold", kept);
    if table::check(t).is_ok() {
        say_sold(rt, "given", t);
    }
    Ok(())
}

// What is sold of each line.
fn say_sold(rt: &HostRuntime, name: &str, t: Table) {
    let _ = print!(rt; "{name}");
    let n = t.lines.min(24) as u8;
    for line in 0..n {
        let _ = print!(rt; " {}", overload_core::sold_on(t, line));
    }
    let _ = println!(rt);
}
