// next_table LINE LINES [SIZES]: reads the table file of a port on standard input, and writes that of the next switch, whose line LINE of
// LINES this port feeds; or prints `refused N`. SIZES are eight, or none where all are 0. A program has no exit status, so what else
// there is to know goes to standard error: a message, or `refused` alone.
#![tactic(auto)]

use output::messages::{refuse, tell};
use refusal::Refusal;
use std::array;
use std::io::Print;
use table_input::{LONGEST, ROOM};

// The words without sizes and with them, the program's name among them.
const WITHOUT_SIZES: usize = 3;

const WITH_SIZES: usize = 11;

// What is asked for: the line and the lines of the next switch, and its sizes.
#[derive(Clone, Copy)]
struct Asked {
    line: u64,
    lines: u64,
    sizes: [u64; 8],
}

fn main(rt: HostRuntime) {
    match words(&rt) {
        Some(asked) => with_asked(&rt, asked),
        None => {
            say("usage: next_table LINE LINES [SIZES]");
        }
    }
}

// The words behind the program's name, if they are as many numerals as there have to be.
fn words(rt: &HostRuntime) -> Option<Asked> {
    let n = input::arg_count(rt);
    if n != WITHOUT_SIZES && n != WITH_SIZES {
        return None;
    }
    let mut numbers = [0u64; WITH_SIZES];
    for i in 1..n {
        numbers[i] = input::read_numeral(input::word(rt, i, &mut io::buffer()))?;
    }
    Some(Asked {
        line: numbers[1],
        lines: numbers[2],
        sizes: array::from_fn(|p| numbers[3 + p]),
    })
}

fn with_asked(rt: &HostRuntime, asked: Asked) {
    let mut file = [0u8; ROOM];
    if let Ok(n) = table_input::read_file(rt, &mut file) {
        put_next(rt, &file[..n], asked);
    }
}

fn put_next(rt: &HostRuntime, file: &[u8], asked: Asked) {
    let mut next = [0u8; LONGEST];
    match next_file::next_file(file, asked.line, asked.lines, asked.sizes, &mut next) {
        Ok(n) => {
            if rt.write_all(&next[..n.min(LONGEST)]).is_err() {
                say("can't write");
            }
        }
        Err(refusal) => {
            say_refused(refusal);
        }
    }
}

// This and the next apart from their callers, on whose stack the file is written.
#[inline(never)]
fn say(what: &str) {
    let _ = tell(what, b"");
}

#[inline(never)]
fn say_refused(refusal: Refusal) {
    let _ = refuse(refusal);
}
