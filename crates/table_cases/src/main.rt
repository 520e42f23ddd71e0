// Runs the cases of standard input through the reader, the check and the writer of tables and the BAG of a code, and prints
// a line for each. What it must print was computed by reference/, whose src/cases/table.rs has the form
// of a case: form (1: a file, 2: a record, 3: a BAG code), length in two bytes, as many bytes.
#![tactic(auto)]

use case_records::reader::Reader;
use case_records::record::{read_link, read_sizes};
use case_records::sums::of_bytes;
use little_endian::LittleEndian;
use refusal::number_or_0;
use std::io::{Read, Result};
use table::Table;

// The longest case that is taken, and the longest output.
const ROOM: usize = 5000;

const OUTPUT: usize = 4700;

fn main(rt: HostRuntime) {
    cases::run(|| next_case(&rt));
}

// Reads a case and prints its line; an error where the input ends.
fn next_case(rt: &HostRuntime) -> Result<()> {
    let mut head = [0u8; 3];
    rt.stdin().read_exact(&mut head)?;
    let n = usize::from(u16::read(&head, 1)).min(ROOM);
    let mut body = [0u8; ROOM];
    rt.stdin().read_exact(&mut body[..n])?;
    match head[0] {
        1 => file_case(rt, &body[..n]),
        2 => record_case(rt, &body[..n]),
        _ => {
            let _ = println!(rt; "bag {}", table::bag(u8::read(&body, 0)));
        }
    }
    Ok(())
}

// A file is read, and written again if it is a table.
fn file_case(rt: &HostRuntime, file: &[u8]) {
    let t = match table_file::read(file) {
        Ok(t) => t,
        Err(refusal) => {
            let _ = println!(rt; "{refusal}");
            return;
        }
    };
    let mut output = [0xA5u8; OUTPUT];
    let n = table_file::write(t, &mut output).unwrap_or(0);
    let _ = print!(rt;
        "table {} {} {n} {}",
        t.lines,
        t.count,
        of_bytes(&output, n)
    );
    let _ = if n == file.len() && output.starts_with(file) {
        println!(rt; " same")
    } else {
        println!(rt; " differs")
    };
}

// A record is checked, and written into an output of the length that the case names.
fn record_case(rt: &HostRuntime, body: &[u8]) {
    let (t, length) = record(body);
    let _ = print!(rt; "check {}", number_or_0(table::check(t)));
    let mut output = [0xA5u8; OUTPUT];
    let n = usize::from(length).min(OUTPUT);
    let _ = match table_file::write(t, &mut output[..n]) {
        Ok(written) => print!(rt; " wrote {written}"),
        Err(refusal) => print!(rt; " {refusal}"),
    };
    let _ = println!(rt; " {}", of_bytes(&output, n));
}

// Lines, count, output length, links given, the links at 13 bytes each, the eight sizes; and the output length.
fn record(body: &[u8]) -> (Table, u16) {
    let mut r = Reader { rest: body };
    let mut t = table::blank();
    t.lines = r.number();
    t.count = r.number();
    let length = r.number();
    let given: u16 = r.number();
    for i in 0..usize::from(given).min(256) {
        t.numbers[i] = r.number();
        t.links[i] = read_link(&mut r);
    }
    t.sizes = read_sizes(&mut r);
    (t, length)
}
