// What is printed of a table: the jitter of one link, or a line for each.
use output::messages::{end, refuse};
use output::{Out, STDERR_FILENO, STDOUT_FILENO};
use refusal::Refusal;
use std::fmt;
use table::Table;
use table_input::how_many;

// A run says how far it is when it has done so many links more, and others are left.
const STEP: usize = 32;

// The greatest jitter of the link of that number, or the refusal.
pub(crate) fn print_one(t: Table, number: u64) {
    let _ = match jitter_margin::jitter_left(t, number) {
        Ok(jitter) => put_one(jitter),
        Err(refusal) => refuse(refusal).outcome(),
    };
}

fn put_one(jitter: u32) -> fmt::Result {
    let mut out = Out::new(STDOUT_FILENO);
    let printed = writeln!(out, "{jitter}");
    end(&mut out, printed)
}

pub(crate) fn print_all(t: Table) {
    let mut out = Out::new(STDOUT_FILENO);
    let printed = put_all(&mut out, t);
    let _ = end(&mut out, printed);
}

fn put_all(out: &mut Out, t: Table) -> fmt::Result {
    let n = how_many(&t);
    writeln!(out, "number jitter greatest")?;
    for (i, (number, v)) in t.numbers.iter().zip(&t.links).take(n).enumerate() {
        if i != 0 && i % STEP == 0 {
            let _ = tell_progress(i, n);
        }
        write!(out, "{number} {} ", v.jitter)?;
        put_left(out, jitter_margin::jitter_left(t, u64::from(*number)))?;
    }
    Ok(())
}

// Where it can't be told the run goes on.
fn tell_progress(done: usize, all: usize) -> fmt::Result {
    let mut out = Out::new(STDERR_FILENO);
    writeln!(out, "so far {done} of {all} links")?;
    out.flush()
}

// The greatest jitter, or `-` where none fits, and the end of the line.
fn put_left(out: &mut Out, left: Result<u32, Refusal>) -> fmt::Result {
    match left {
        Ok(jitter) => writeln!(out, "{jitter}"),
        Err(_) => writeln!(out, "-"),
    }
}
