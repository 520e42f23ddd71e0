// What is printed of the answers and of the queues.
use output::Out;
use port::Port;
use port_scheduler::Queue;
use std::fmt;
use std::fmt::Write;
use units::{GREATEST_LENGTH, MOST_FRAMES, MOST_HELD, occupancy};

// The numbers of the answers of 200 reports, and of the departures that can leave with them.
pub(crate) const GIVEN: usize = 600;

pub(crate) const LIST: usize = 3 * (200 + MOST_HELD);

// A line for each answer, which takes its departures from the list.
pub(crate) fn put_answers(out: &mut Out, given: &[u64], list: &[u64]) -> fmt::Result {
    let (answers, _) = given.as_chunks::<3>();
    let (mut departures, _) = list.as_chunks::<3>();
    for [refused, verdict, frames] in answers {
        let n = (*frames as usize).min(departures.len());
        let (left, rest) = departures.split_at(n);
        if *refused != 0 {
            writeln!(out, "refused {refused}")?;
        } else {
            write!(out, "accepted {verdict} {n} {}", freed(left))?;
            put_departures(out, left)?;
        }
        departures = rest;
    }
    Ok(())
}

// The bytes that the departures freed. None is longer than a frame can be.
fn freed(left: &[[u64; 3]]) -> u64 {
    left.iter().fold(0, |sum, [_, length, _]| {
        sum.saturating_add(occupancy(*length).min(u64::from(GREATEST_LENGTH)))
    })
}

// The departures, and the end of the line.
fn put_departures(out: &mut Out, left: &[[u64; 3]]) -> fmt::Result {
    for [number, length, tick] in left {
        write!(out, " {number}:{length}:{tick}")?;
    }
    out.write_str("\n")
}

pub(crate) fn put_end(out: &mut Out, port: &Port) -> fmt::Result {
    writeln!(out, "priority held mark")?;
    for (p, q) in port.queues.iter().enumerate() {
        writeln!(out, "{p} {} {}", held(*q), q.mark)?;
    }
    Ok(())
}

fn held(q: Queue) -> u64 {
    if usize::from(q.count) > MOST_FRAMES {
        return 0;
    }
    port_scheduler::held(q)
}
