// Prints the sheet of each table file of standard input. What it must print was computed by reference/, whose
// src/cases/bounds.rs has the form of a case: length in two bytes, as many bytes.
#![tactic(auto)]

use little_endian::LittleEndian;
use std::io::{Print, Read, Result};

// The longest case that is taken.
const ROOM: usize = 5000;

fn main(rt: HostRuntime) {
    cases::run(|| next_case(&rt));
}

// Reads a case and prints its sheet; an error where the input ends.
fn next_case(rt: &HostRuntime) -> Result<()> {
    let mut head = [0u8; 2];
    rt.stdin().read_exact(&mut head)?;
    let n = usize::from(u16::read(&head, 0)).min(ROOM);
    let mut body = [0u8; ROOM];
    rt.stdin().read_exact(&mut body[..n])?;
    let text = sheet_text::text_of(&body[..n]);
    let _ = rt.write_all(text.as_str().as_bytes());
    Ok(())
}
