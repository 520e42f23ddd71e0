// replay TABLE REPORTS: runs the reports of a file through the port of a table file, and prints the
// answer of each, then held bytes and mark of each priority, then the counts of each virtual link, of
// unknown numbers and in total. A report is five little-endian numbers of 8 bytes: form (0 a wait, 1 a
// frame), tick, line, number, length.
#![tactic(auto)]

ghost use Rattle.std.specs.Prelude.{◌≡◌};
ghost use Rattle.model.specs.Table.{table_refusal};
ghost use Rattle.table.specs.View.{view_table};

mod answers;
mod counts;
mod parts;

use output::messages::{refuse, tell};
use parts::Stop;
use port::Port;
use std::fs::File;
use std::io::Seek;
use table::Table;

// The longest table file, and a byte more.
const TABLE: usize = 4653;

fn main(rt: HostRuntime) {
    if input::arg_count(&rt) != 3 {
        say("usage: replay TABLE REPORTS", b"");
        return;
    }
    with_table(&rt, input::word(&rt, 1, &mut io::buffer()));
}

fn with_table(rt: &HostRuntime, name: &[u8]) {
    let Some(mut fd) = input::open_read(rt, name) else {
        say("can't open ", name);
        return;
    };
    let mut file = [0u8; TABLE];
    let Ok(n) = input::read(&mut fd, &mut file) else {
        say("can't read ", name);
        return;
    };
    match table_file::read(&file[..n]) {
        Ok(t) => with_reports(rt, t, input::word(rt, 2, &mut io::buffer())),
        Err(refusal) => tell_stop(Stop::Refused(refusal), name),
    }
}

// The reports are read twice: nothing is printed of a file that has something else in it.
fn with_reports(rt: &HostRuntime, t: Table, name: &[u8]) {
    let Some(mut fd) = input::open_read(rt, name) else {
        say("can't open ", name);
        return;
    };
    if let Err(stop) = run(t, &mut fd) {
        tell_stop(stop, name);
    }
}

// This and the next apart from their callers, on whose stack the reports run.
#[inline(never)]
fn say(what: &str, name: &[u8]) {
    let _ = tell(what, name);
}

#[inline(never)]
fn tell_stop(stop: Stop, name: &[u8]) {
    let _ = match stop {
        Stop::Refused(refusal) => refuse(refusal),
        Stop::Unread => tell("can't read ", name),
        Stop::Unwritten => tell("can't write", b""),
    };
}

fn run(t: Table, fd: &mut File) -> Result<(), Stop> {
    parts::check(fd)?;
    if fd.rewind().is_err() {
        return Err(Stop::Unread);
    }
    table::check(t)?;
    parts::replay(t, fd)
}

// Apart from its caller, so that what holds the fresh port is gone when the reports run; and a port, since a Result of one would
// take 49 KB of stack more there.
#[inline(never)]
pub(crate) fn fresh_port(t: Table) -> Port
    requires { table_refusal (view_table t) ≡ 0 }
{
    match Port::fresh(t) {
        Ok(port) => port,
        Err(_) => unreachable!(),
    }
}
