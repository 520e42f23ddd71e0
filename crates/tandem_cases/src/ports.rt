// Two ports in a row.
use crate::reports;
use crate::reports::NUMBERS;
use case_records::rows::say_rows;
use case_records::{record, sums};
use little_endian::LittleEndian;
use port::Port;
use port_batch::Batched;
use refusal::number_or_0;
use std::io::Read;
use table::{Table, VirtualLink};

// The bytes before those of the second port's record.
const HEAD: usize = 11;

// The reports to the first port, whose departures go to the second, which has the rows.
pub(crate) fn run(rt: &HostRuntime, t: Table, rows: Table, line: u64) {
    let mut head = [0u8; HEAD];
    let _ = rt.stdin().read_exact(&mut head);
    let record = case_records::tables::read(rt, u16::read(&head, 0));
    let second = with_rows(record, rows, head[2]);
    let mut list = [0u64; NUMBERS];
    first_port(rt, t, u16::read(&head, 3), &mut list, u16::read(&head, 5));
    second_port(
        rt,
        second,
        u16::read(&head, 7),
        &list,
        line,
        u16::read(&head, 9),
    );
}

// The rows in the first places of a record, their jitters less by so much, and their line count.
fn with_rows(mut t: Table, rows: Table, less: u8) -> Table {
    t.lines = rows.lines;
    let n = usize::from(rows.count).min(256);
    t.numbers[..n].copy_from_slice(&rows.numbers[..n]);
    for (link, &v) in t.links[..n].iter_mut().zip(&rows.links) {
        *link = lessened(v, u32::from(less));
    }
    t
}

fn lessened(v: VirtualLink, less: u32) -> VirtualLink {
    VirtualLink {
        jitter: v.jitter.saturating_sub(less),
        ..v
    }
}

// So many reports of the case, and a departure list of so many numbers.
fn first_port(rt: &HostRuntime, t: Table, many: u16, list: &mut [u64], room: u16) {
    let mut numbers = [0u64; NUMBERS];
    reports::read(rt, many, &mut numbers);
    let mut answers = [0u64; NUMBERS];
    let b = answered(t, &numbers, many, &mut answers, list, room);
    let _ = print!(rt; "first ");
    say_batch(rt, b, &answers, many, list, room);
}

fn second_port(rt: &HostRuntime, t: Table, many: u16, departures: &[u64], line: u64, room: u16) {
    let mut numbers = [0u64; NUMBERS];
    reports::read(rt, many, &mut numbers);
    reports::put_departures(many, &mut numbers, departures, line);
    let mut answers = [0u64; NUMBERS];
    let mut list = [0u64; NUMBERS];
    let b = answered(t, &numbers, many, &mut answers, &mut list, room);
    say_rows(rt, &answers, usize::from(many));
    let _ = print!(rt; "second ");
    say_batch(rt, b, &answers, many, &list, room);
    let _ = println!(rt; "port {} {}", b.port.clock, sums::of_port(b.port, false));
}

// The reports to the fresh port of a table, in one batch; where there is none, to the port whose record is empty.
fn answered(
    t: Table,
    numbers: &[u64],
    many: u16,
    answers: &mut [u64],
    list: &mut [u64],
    room: u16,
) -> Batched {
    let port = match Port::fresh(t) {
        Ok(port) => port,
        Err(_) => record::port_of(&[]),
    };
    let n = (5 * usize::from(many)).min(numbers.len());
    let k = usize::from(room).min(list.len());
    port_batch::batch(port, &numbers[..n], answers, &mut list[..k])
}

fn say_batch(rt: &HostRuntime, b: Batched, answers: &[u64], many: u16, list: &[u64], room: u16) {
    let _ = print!(rt; "{} {} ", number_or_0(b.outcome), b.outcome.unwrap_or(0));
    let told = sums::of_list(answers, 3 * usize::from(many));
    let _ = println!(rt; "{told} {}", sums::of_list(list, usize::from(room)));
}
