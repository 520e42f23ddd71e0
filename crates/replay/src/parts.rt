// The reports file, part by part.
ghost use Rattle.std.specs.Prelude.{◌≡◌, ◌≤◌, IfOk};
ghost use Rattle.model.specs.Table.{table_refusal};
ghost use Rattle.table.specs.View.{view_table};

use crate::answers::{GIVEN, LIST};
use crate::{answers, counts, fresh_port};
use input::CutShort;
use little_endian::LittleEndian;
use output::{Out, STDOUT_FILENO};
use port::Port;
use refusal::Refusal;
use std::fmt;
use std::fs::File;
use table::Table;

const REPORT: usize = 40;

// The bytes of 200 reports, and their numbers.
const PART: usize = 8000;

const NUMBERS: usize = 1000;

// Why a run ends early: what the program was given is refused, the file can't be read, or what is printed can't be written.
#[derive(Clone, Copy, Debug, PartialEq, Eq)]
pub(crate) enum Stop {
    Refused(Refusal),
    Unread,
    Unwritten,
}

impl From<Refusal> for Stop {
    fn from(refusal: Refusal) -> Stop {
        Stop::Refused(refusal)
    }
}

impl From<CutShort> for Stop {
    fn from(_cut: CutShort) -> Stop {
        Stop::Unread
    }
}

impl From<fmt::Error> for Stop {
    fn from(_failed: fmt::Error) -> Stop {
        Stop::Unwritten
    }
}

// The bytes of the next reports, at the start of a part: as many as it has room for, unless the file ends with them.
fn next_part(fd: &mut File, part: &mut [u8; PART]) -> Result<usize, Stop>
    ensures { IfOk result (λ n. n ≤ 8000) }
{
    let n = input::read(fd, part)?;
    if !are_reports(&part[..n]) {
        return Err(Stop::Refused(Refusal::NotReports));
    }
    Ok(n)
}

// Each report is of form 0 or 1.
fn are_reports(bytes: &[u8]) -> bool {
    let (reports, rest) = bytes.as_chunks::<REPORT>();
    rest.is_empty() && reports.iter().all(|report| u64::read(report, 0) <= 1)
}

// Reads the file to its end, or to what is no report.
pub(crate) fn check(fd: &mut File) -> Result<(), Stop> {
    let mut part = [0u8; PART];
    // Nothing says that a file ends; no run uses up so many turns.
    for _ in 0..u64::MAX {
        if next_part(fd, &mut part)? < PART {
            break;
        }
    }
    Ok(())
}

// Runs every report, part by part, and prints what the queues hold at the end, then the counts. A file that is not what it
// was when it was checked counts as one that can't be read.
#[inline(never)]
pub(crate) fn replay(t: Table, fd: &mut File) -> Result<(), Stop>
    requires { table_refusal (view_table t) ≡ 0 }
{
    let mut port = fresh_port(t);
    let mut part = [0u8; PART];
    let mut numbers = [0u64; NUMBERS];
    let mut given = [0u64; GIVEN];
    let mut list = [0u64; LIST];
    let mut out = Out::new(STDOUT_FILENO);
    for _ in 0..u64::MAX {
        let Ok(n) = next_part(fd, &mut part) else {
            out.flush()?;
            return Err(Stop::Unread);
        };
        let reports = numbers_of(&part[..n], &mut numbers);
        let answered = port_batch::batch(port, reports, &mut given, &mut list);
        port = answered.port;
        answers::put_answers(&mut out, &given[..3 * (n / REPORT)], &list)?;
        if n < PART {
            break;
        }
    }
    finish(&mut out, port)?;
    Ok(())
}

// The numbers of a part, of 8 bytes each.
fn numbers_of<'a>(part: &[u8], numbers: &'a mut [u64; NUMBERS]) -> &'a [u64] {
    let (words, _) = part.as_chunks::<8>();
    for (number, word) in numbers.iter_mut().zip(words) {
        *number = u64::from_le_bytes(*word);
    }
    &numbers[..words.len().min(NUMBERS)]
}

#[inline(never)]
fn finish(out: &mut Out, port: Port) -> fmt::Result {
    answers::put_end(out, &port)?;
    counts::put_counts(out, &port)?;
    out.flush()
}
