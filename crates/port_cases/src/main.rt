// Runs the cases of standard input through the port: the fresh port of a table record or a port record, and
// a list of reports; and prints a line for each answer. What it must print was computed by reference/, whose
// src/cases/port.rs has the form of a case.
#![tactic(auto)]

use case_records::reader::Reader;
use case_records::{record, sums};
use little_endian::LittleEndian;
use port::{Answer, Port};
use port_refusals::verdict_or_0;
use port_scheduler::Queue;
use refusal::number_or_0;
use std::io::{Read, Result};
use units::{LIST_ROOM, MOST_FRAMES};

// The longest record of a case.
const BODY: usize = 16000 + 96 * MOST_FRAMES;

const REPORT: usize = 35;

// The longest list that is lent: some numbers more than a full port can free.
const LIST: usize = LIST_ROOM + 20;

// What a list is filled with before it is lent.
const FILLED: u64 = 0xA5A5A5A5A5A5A5A5;

fn main(rt: HostRuntime) {
    cases::run(|| next_case(&rt));
}

// Reads a case and prints its lines; an error where the input ends.
fn next_case(rt: &HostRuntime) -> Result<()> {
    let mut head = [0u8; 3];
    rt.stdin().read_exact(&mut head)?;
    let n = usize::from(u16::read(&head, 1)).min(BODY);
    let mut body = [0u8; BODY];
    rt.stdin().read_exact(&mut body[..n])?;
    let mut many = [0u8; 2];
    rt.stdin().read_exact(&mut many)?;
    run(rt, start(rt, head[0], &body), u16::read(&many, 0));
    Ok(())
}

fn start(rt: &HostRuntime, form: u8, body: &[u8]) -> Port {
    if form == 2 {
        let _ = println!(rt; "record");
        return record::port_of(body);
    }
    // Where there is none, the port whose record is empty.
    let (refused, port) = match Port::fresh(record::table_of(body)) {
        Ok(port) => (0, port),
        Err(refusal) => (refusal.number(), record::port_of(&[])),
    };
    let _ = println!(rt; "fresh {refused} {}", sums::of_port(port, true));
    port
}

// The whole port is summed at the end where no report was accepted.
fn run(rt: &HostRuntime, start: Port, many: u16) {
    let mut port = start;
    let mut moved = false;
    for _ in 0..many {
        let a = next_report(rt, port);
        port = a.port;
        moved |= a.outcome.is_ok();
    }
    say_end(rt, port, !moved);
    say_counts(rt, port);
}

// Reads a report, whose end counts as 0 where the input has none, and prints the answer.
fn next_report(rt: &HostRuntime, port: Port) -> Answer {
    let mut bytes = [0u8; REPORT];
    let _ = rt.stdin().read_exact(&mut bytes);
    let mut list = [FILLED; LIST];
    let room = usize::from(u16::read(&bytes, 1)).min(LIST);
    let a = report(port, &bytes, &mut list[..room]);
    let _ = match a.outcome {
        Ok(accepted) => {
            let verdict = verdict_or_0(accepted.verdict);
            print!(rt; "accepted {verdict} {} {}", accepted.frames, accepted.bytes)
        }
        Err(refusal) => print!(rt; "{refusal}"),
    };
    let _ = println!(rt; " {}", sums::of_list(&list, room));
    a
}

// Form, room of the list, tick, line, number, length.
fn report(port: Port, bytes: &[u8], list: &mut [u64]) -> Answer {
    let mut r = Reader { rest: bytes };
    let form: u8 = r.number();
    let _room: u16 = r.number();
    let tick = r.number();
    if form == 0 {
        return port.wait(tick, list);
    }
    let line = r.number();
    let number = r.number();
    let length = r.number();
    port.frame(tick, line, number, length, list)
}

fn say_end(rt: &HostRuntime, port: Port, whole: bool) {
    let _ = print!(rt; "end {} {}", port.clock, sums::of_port(port, whole));
    for q in &port.queues {
        let _ = print!(rt; " {} {}", held(*q), q.mark);
    }
    let _ = println!(rt);
}

fn say_counts(rt: &HostRuntime, port: Port) {
    let added = port_sums::sums_of(port);
    let of_links = added.map_or([0; 256], |s| s.sums);
    let total = added.ok().and_then(|s| s.total);
    let _ = print!(rt;
        "counts {} {} ",
        number_or_0(added),
        u8::from(total.is_some())
    );
    let _ = println!(rt;
        "{} {} {}",
        total.unwrap_or(0),
        port.unknown,
        sums::of_list(&of_links, 256)
    );
}

// The bytes of the frames up to the count, as far as the array goes.
fn held(mut q: Queue) -> u64 {
    q.count = q.count.min(MOST_FRAMES as u16);
    port_scheduler::held(q)
}
