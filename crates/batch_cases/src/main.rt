// Runs the cases of standard input through batches, by the C call in bytes and by two calls on a port in numbers, and prints what
// they leave. What it must print was computed by reference/, whose src/cases/batch.rs has the form of a case.
#![tactic(auto)]

mod lists;

ghost use Rattle.std.specs.Prelude.{◌≤◌};

use case_records::rows::say_rows;
use case_records::{record, sums};
use lists::{NUMBERS, ROOM};
use little_endian::LittleEndian;
use port::Port;
use port_batch::Batched;
use refusal::{Refusal, number_or_0};
use std::io::{Read, Result};

// The bytes before those of a file or record.
const HEAD: usize = 12;

fn main(rt: HostRuntime) {
    cases::run(|| next_case(&rt));
}

// Reads a case and prints its lines; an error where the input ends.
fn next_case(rt: &HostRuntime) -> Result<()> {
    let mut head = [0u8; HEAD];
    rt.stdin().read_exact(&mut head)?;
    let mut start = [0u8; ROOM];
    let n = take(rt, u16::read(&head, 1), &mut start);
    let mut reports = [0u8; ROOM];
    let k = take(rt, u16::read(&head, 3), &mut reports);
    run(rt, &head, &start[..n], &reports[..k]);
    Ok(())
}

// Reads bytes to the start of a buffer; how many there are.
fn take(rt: &HostRuntime, length: u16, bytes: &mut [u8; ROOM]) -> usize
    ensures { result ≤ 51200 }
{
    let n = usize::from(length).min(ROOM);
    let _ = rt.stdin().read_exact(&mut bytes[..n]);
    n
}

// A port record, or a table file and, where it is not refused, its fresh port.
fn run(rt: &HostRuntime, head: &[u8; HEAD], start: &[u8], reports: &[u8]) {
    if head[0] == 2 {
        call_twice(rt, head, record::port_of(start), reports);
        return;
    }
    call_c(rt, head, start, reports);
    if let Ok(port) = table_file::read(start).and_then(Port::fresh) {
        call_twice(rt, head, port, reports);
    }
}

// Whether that bit of what is shown is set.
fn shows(head: &[u8; HEAD], bit: u8) -> bool {
    head[11] & bit != 0
}

fn call_c(rt: &HostRuntime, head: &[u8; HEAD], file: &[u8], reports: &[u8]) {
    let mut answers = [0u8; ROOM];
    lists::lay(&mut answers);
    let mut departures = [0u8; ROOM];
    lists::lay(&mut departures);
    let a = usize::from(u16::read(head, 5));
    let d = usize::from(u16::read(head, 7));
    let refused = in_bytes(file, reports, &mut answers, a, &mut departures, d);
    let _ = println!(rt; "c {refused}");
    if refused == 0 && shows(head, 1) {
        let mut numbers = [0u64; NUMBERS];
        lists::numbers_of(&answers, &mut numbers);
        let mut list = [0u64; NUMBERS];
        lists::numbers_of(&departures, &mut list);
        show(rt, &numbers, &list, reports.len() / 40);
    }
    say_sums(
        rt,
        sums::of_bytes(&answers, a),
        sums::of_bytes(&departures, d),
    );
}

// The C call, lent so many bytes of each list.
fn in_bytes(
    file: &[u8],
    reports: &[u8],
    answers: &mut [u8],
    a: usize,
    departures: &mut [u8],
    d: usize,
) -> u32 {
    let n = a.min(answers.len());
    let k = d.min(departures.len());
    fenuschia_c::batch::fenuschia_batch(file, reports, &mut answers[..n], &mut departures[..k])
}

// So many answers, and the departures that they tell of.
fn show(rt: &HostRuntime, answers: &[u64; NUMBERS], list: &[u64; NUMBERS], many: usize) {
    say_rows(rt, answers, many);
    say_rows(rt, list, lists::freed(answers, many));
}

fn say_sums(rt: &HostRuntime, answers: u64, departures: u64) {
    let _ = println!(rt; "sums {answers} {departures}");
}

// What two calls came to, how many reports they answered, and the port that the second handed back.
#[derive(Clone, Copy)]
struct Calls {
    first: std::result::Result<u64, Refusal>,
    second: std::result::Result<u64, Refusal>,
    answered: usize,
    port: Port,
}

// How many reports of a call are answered.
fn answered(b: Batched, numbers: usize) -> usize
    ensures { result ≤ 6400 }
{
    if b.outcome.is_err() {
        return 0;
    }
    (numbers / 5).min(NUMBERS)
}

fn call_twice(rt: &HostRuntime, head: &[u8; HEAD], port: Port, reports: &[u8]) {
    let mut numbers = [0u64; NUMBERS];
    lists::numbers_of(reports, &mut numbers);
    let mut answers = [0u64; NUMBERS];
    lists::lay_numbers(&mut answers);
    let mut list = [0u64; NUMBERS];
    lists::lay_numbers(&mut list);
    let n = (reports.len() / 8).min(NUMBERS);
    let a = usize::from(u16::read(head, 5) / 8);
    let d = usize::from(u16::read(head, 7) / 8);
    let first = 5 * usize::from(u16::read(head, 9));
    let calls = two_calls(port, &numbers, first, n, &mut answers, a, &mut list, d);
    let (c, e) = (calls.first, calls.second);
    let _ = print!(rt; "calls {} {} ", number_or_0(c), c.unwrap_or(0));
    let _ = println!(rt; "{} {}", number_or_0(e), e.unwrap_or(0));
    if shows(head, 2) {
        show(rt, &answers, &list, calls.answered);
    }
    say_sums(rt, sums::of_list(&answers, a), sums::of_list(&list, d));
    let _ = println!(rt;
        "port {} {}",
        calls.port.clock,
        sums::of_port(calls.port, shows(head, 4))
    );
}

// The first call takes some of the n numbers of reports, the second those behind them, on the port that the first handed back
// and with what it left of the lists.
fn two_calls(
    port: Port,
    reports: &[u64],
    some: usize,
    n: usize,
    answers: &mut [u64],
    a: usize,
    list: &mut [u64],
    d: usize,
) -> Calls {
    let k = some.min(n);
    let first = in_numbers(port, reports, 0, k, answers, 0, a, list, 0, d);
    let many = answered(first, k);
    let left = lists::place(first.outcome.unwrap_or(0));
    let second = in_numbers(
        first.port,
        reports,
        k,
        n,
        answers,
        3 * many,
        a,
        list,
        3 * left,
        d,
    );
    Calls {
        first: first.outcome,
        second: second.outcome,
        answered: many + answered(second, n - k),
        port: second.port,
    }
}

// The call on a port, with reports and lists from and to these places.
fn in_numbers(
    port: Port,
    reports: &[u64],
    from: usize,
    to: usize,
    answers: &mut [u64],
    at: usize,
    a: usize,
    list: &mut [u64],
    left: usize,
    d: usize,
) -> Batched {
    let to_end = to.min(reports.len());
    let a_end = a.min(answers.len());
    let d_end = d.min(list.len());
    port_batch::batch(
        port,
        &reports[from.min(to_end)..to_end],
        &mut answers[at.min(a_end)..a_end],
        &mut list[left.min(d_end)..d_end],
    )
}
