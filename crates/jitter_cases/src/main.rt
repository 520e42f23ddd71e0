// Runs the cases of standard input, each a link number and a table record, through the call for the jitter that is left, and prints its
// two numbers. What it must print was computed by reference/, whose src/cases/jitter.rs has the form of a case.
#![tactic(auto)]

use case_records::tables;
use little_endian::LittleEndian;
use std::io::{Read, Result};

// The bytes before those of a table record.
const HEAD: usize = 10;

fn main(rt: HostRuntime) {
    cases::run(|| next_case(&rt));
}

// Reads a case and prints its line; an error where the input ends.
fn next_case(rt: &HostRuntime) -> Result<()> {
    let mut head = [0u8; HEAD];
    rt.stdin().read_exact(&mut head)?;
    let t = tables::read(rt, u16::read(&head, 8));
    let _ = match jitter_margin::jitter_left(t, u64::read(&head, 0)) {
        Ok(jitter) => println!(rt; "0 {jitter}"),
        Err(refusal) => println!(rt; "{} 0", refusal.number()),
    };
    Ok(())
}
