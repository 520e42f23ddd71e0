// For bench/: queues frames, then waits at one tick over and over, so that the time of a report can be taken; or reports
// frames over and over, each when the one before has left.
// Standard input: how many frames queued, how many waits, how many frames reported, 8 bytes each, little-endian, then a table file.
#![tactic(auto)]

ghost use Rattle.std.specs.Prelude.{◌≤◌};

use little_endian::LittleEndian;
use port::Port;
use port_scheduler::frames_held;
use units::LIST_ROOM;

// The files that a program begins with.
const STDIN_FILENO: i32 = 0;

const STDOUT_FILENO: i32 = 1;

fn main() {
    let mut head = [0u8; 24];
    if io::read_full(STDIN_FILENO, &mut head) < 24 {
        return;
    }
    let mut file = [0u8; 4653];
    let n = io::read_full(STDIN_FILENO, &mut file);
    // Below 2^32, which is enough.
    let frames = u64::from(u32::read(&head, 0));
    let waits = u64::from(u32::read(&head, 8));
    let reports = u64::from(u32::read(&head, 16));
    run(&file[..n], frames, waits, reports);
}

// Prints how many frames are queued at the end.
fn run(file: &[u8], frames: u64, waits: u64, reports: u64)
    requires { (frames ≤ 4294967295) × (waits ≤ 4294967295) × (reports ≤ 4294967295) }
{
    let held = match table_file::read(file).and_then(Port::fresh) {
        Ok(port) => frames_held(reported(waited(filled(port, frames), waits), reports).queues),
        Err(_) => 0,
    };
    io::print_decimal(STDOUT_FILENO, held);
    io::write_all(STDOUT_FILENO, b"\n");
}

// Frames of 84 bytes of the links 0 to 239, which are on 24 lines in turn, each 84 ticks after the last of its line.
fn filled(mut port: Port, frames: u64) -> Port
    requires { frames ≤ 4294967295 }
{
    let mut list = [0u64; LIST_ROOM];
    for i in 0..frames {
        port = port
            .frame(84 * (i / 24 + 1), i % 24, i % 240, 84, &mut list)
            .port;
    }
    port
}

// So many waits, four at a time.
fn waited(mut port: Port, waits: u64) -> Port {
    let mut list = [0u64; LIST_ROOM];
    let tick = port.clock;
    for _ in (0..waits).step_by(4) {
        port = four_waits(port, tick, &mut list);
    }
    port
}

// Each is given the port that the one before handed back.
fn four_waits(port: Port, tick: u64, list: &mut [u64; LIST_ROOM]) -> Port {
    let first = port.wait(tick, list).port;
    let second = first.wait(tick, list).port;
    let third = second.wait(tick, list).port;
    third.wait(tick, list).port
}

// So many frames of 84 bytes, four at a time, each 84 ticks after the one before: of a fresh port none waits.
fn reported(mut port: Port, reports: u64) -> Port
    requires { reports ≤ 4294967295 }
{
    let mut list = [0u64; LIST_ROOM];
    for i in (0..reports).step_by(4) {
        port = four_frames(port, 84 * (i + 1), i % 24, i % 240, &mut list);
    }
    port
}

fn four_frames(port: Port, tick: u64, line: u64, number: u64, list: &mut [u64; LIST_ROOM]) -> Port
    requires { (tick ≤ 1099511627776) × (line ≤ 24) × (number ≤ 240) }
{
    let first = port.frame(tick, line, number, 84, list).port;
    let second = first.frame(tick + 84, line + 1, number + 1, 84, list).port;
    let third = second
        .frame(tick + 168, line + 2, number + 2, 84, list)
        .port;
    third.frame(tick + 252, line + 3, number + 3, 84, list).port
}
