// Runs the cases of standard input through networks A and B: a state, and calls with the frames that wait; and prints a line for
// each call. What it must print was computed by reference/, whose src/cases/redundancy.rs has the form of a case.
#![tactic(auto)]

use little_endian::LittleEndian;
use output::{Out, STDOUT_FILENO};
use redundancy::{Decision, Network, Numbered, State, Waiting};
use redundancy_measure::{Measure, MeasuredSelection, measured};
use std::fmt;
use std::fmt::Write;

// The file that a program begins with and reads.
const STDIN_FILENO: i32 = 0;

// The bytes before the calls of a case: form, state, number of calls.
const CASE: usize = 33;

// The bytes before the frames of a call: length and tick of each.
const CALL: usize = 20;

// The longest frame of a case.
const FRAME: usize = 2048;

fn main() {
    // Nothing says that the input ends, so the loop counts up to a number that no run uses up.
    for _ in 0..u64::MAX {
        if !next_case() {
            break;
        }
    }
}

// Reads a case and prints its lines; false where the input ends.
fn next_case() -> bool {
    let mut head = [0u8; CASE];
    if io::read_full(STDIN_FILENO, &mut head) < CASE {
        return false;
    }
    run(state_of(&head), head[0], u16::read(&head, 31));
    true
}

fn state_of(head: &[u8; CASE]) -> State {
    let number = head[14];
    let tick = u64::read(head, 15);
    State {
        skew: u64::read(head, 1),
        on_a: (head[9] != 0).then_some(head[10]),
        on_b: (head[11] != 0).then_some(head[12]),
        last: (head[13] != 0).then_some(Numbered { number, tick }),
        taken: u64::read(head, 23),
    }
}

// Each line has the state, or, in form 2, one behind the others.
fn run(start: State, form: u8, many: u16) {
    let mut state = start;
    for _ in 0..many {
        let m = next_call(state);
        print_call(m, form);
        state = m.decision.state;
    }
    if form == 2 {
        print_end(state);
    }
}

// A line is written as soon as it is whole. A write that fails is passed over, so that the lines behind it are still tried.
fn print_call(m: MeasuredSelection, form: u8) {
    let mut out = Out::new(STDOUT_FILENO);
    let _ = put_call(&mut out, m, form);
    let _ = out.flush();
}

fn print_end(state: State) {
    let mut out = Out::new(STDOUT_FILENO);
    let _ = put_end(&mut out, state);
    let _ = out.flush();
}

// Reads the frames of the next call, and makes it.
fn next_call(state: State) -> MeasuredSelection {
    let mut head = [0u8; CALL];
    io::read_full(STDIN_FILENO, &mut head);
    let mut a = [0u8; FRAME];
    take(u16::read(&head, 0), &mut a);
    let mut b = [0u8; FRAME];
    take(u16::read(&head, 10), &mut b);
    let on_a = Waiting {
        frame: start_of(&a, u16::read(&head, 0)),
        tick: u64::read(&head, 2),
    };
    let on_b = Waiting {
        frame: start_of(&b, u16::read(&head, 10)),
        tick: u64::read(&head, 12),
    };
    measured(state, on_a, on_b)
}

// Reads a frame to the start of bytes.
fn take(length: u16, bytes: &mut [u8]) {
    let n = io::count(length as isize, bytes);
    io::read_full(STDIN_FILENO, &mut bytes[..n]);
}

fn start_of<'a>(bytes: &'a [u8], length: u16) -> &'a [u8] {
    let n = io::count(length as isize, bytes);
    &bytes[..n]
}

fn put_call(out: &mut Out, m: MeasuredSelection, form: u8) -> fmt::Result {
    put_answer(out, m.decision, m.measure)?;
    if form == 2 {
        out.write_str("\n")
    } else {
        put_state(out, m.decision.state)
    }
}

fn put_end(out: &mut Out, state: State) -> fmt::Result {
    write!(out, "end")?;
    put_state(out, state)
}

fn put_answer(out: &mut Out, d: Decision, m: Measure) -> fmt::Result {
    match d.outcome {
        Ok(taken) => {
            let network = name(taken.network);
            let handed_on = u8::from(taken.handed_on);
            write!(out, "0 {network} {handed_on}")?;
        }
        Err(refusal) => write!(out, "{} - 0", refusal.number())?,
    }
    write!(out, " {} {} {}", m.length, m.first, m.last)
}

fn name(n: Network) -> &'static str {
    match n {
        Network::A => "A",
        Network::B => "B",
    }
}

fn put_state(out: &mut Out, s: State) -> fmt::Result {
    write!(out, " {}", s.skew)?;
    put_received(out, s.on_a)?;
    put_received(out, s.on_b)?;
    put_handed_on(out, s.last)?;
    writeln!(out, " {}", s.taken)
}

fn put_received(out: &mut Out, r: Option<u8>) -> fmt::Result {
    match r {
        None => write!(out, " -"),
        Some(n) => write!(out, " {n}"),
    }
}

fn put_handed_on(out: &mut Out, h: Option<Numbered>) -> fmt::Result {
    match h {
        None => write!(out, " -"),
        Some(frame) => write!(out, " {} {}", frame.number, frame.tick),
    }
}
