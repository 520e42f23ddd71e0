// For bench/: what a batch answers, through the single calls on a port by value.
#![tactic(auto)]

ghost use Rattle.std.specs.Prelude.{◌≡◌, length};
ghost use Rattle.model.specs.TableFile.{read_table};
ghost use Rattle.refusal.specs.Numbers.{number_or_0};

use little_endian::LittleEndian;
use port::{Accepted, Answer, Port};
use port_refusals::verdict_or_0;
use refusal::{Refusal, number_or_0};
use units::{LIST_ROOM, MOST_HELD};

// More rows are not laid.
const MOST_ROWS: usize = 1000000;

// Answers and departures are laid as fenuschia_batch lays them, as far as there is room; 0, or the refusal of the file.
#[unsafe(no_mangle)]
pub extern "C" fn bench_single_calls(
    file: &[u8],
    reports: &[u8],
    answers: &mut [u8],
    departures: &mut [u8],
) -> u32
    ensures { result ≡ (read_table file.now).refused }
{
    number_or_0(run(file, reports, answers, departures))
}

fn run(
    file: &[u8],
    reports: &[u8],
    answers: &mut [u8],
    departures: &mut [u8],
) -> Result<(), Refusal>
    ensures { number_or_0 result ≡ (read_table file.now).refused }
{
    let t = table_file::read(file)?;
    let port = Port::fresh(t)?;
    lay(port, reports, answers, departures);
    Ok(())
}

// As far as there is room for answers.
fn lay(mut port: Port, reports: &[u8], answers: &mut [u8], departures: &mut [u8]) {
    let mut list = [0u64; LIST_ROOM];
    let mut row: usize = 0;
    let rows = answers.chunks_exact_mut(24).take(MOST_ROWS);
    for (bytes, answer) in reports.chunks_exact(40).zip(rows) {
        let a = report(port, bytes, &mut list);
        port = a.port;
        let told = told(a.outcome);
        put_row(answer, told);
        row = put_departures(&list, told[2], departures, row);
    }
}

// What a row tells of a report: its refusal or 0, the verdict, the frames freed.
fn told(outcome: Result<Accepted, Refusal>) -> [u64; 3] {
    match outcome {
        Ok(a) => [0, u64::from(verdict_or_0(a.verdict)), a.frames],
        Err(refusal) => [u64::from(refusal.number()), 0, 0],
    }
}

fn report(port: Port, bytes: &[u8], list: &mut [u64; LIST_ROOM]) -> Answer
    requires { length bytes.now ≡ 40 }
{
    let tick = u64::read(bytes, 8);
    if u64::read(bytes, 0) == 0 {
        return port.wait(tick, list);
    }
    let line = u64::read(bytes, 16);
    let number = u64::read(bytes, 24);
    let length = u64::read(bytes, 32);
    port.frame(tick, line, number, length, list)
}

fn put_row(bytes: &mut [u8], row: [u64; 3])
    requires { length bytes.old ≡ 24 }
{
    row[0].write(bytes, 0);
    row[1].write(bytes, 8);
    row[2].write(bytes, 16);
}

// The departures of a report from that row on; the row behind them.
fn put_departures(
    list: &[u64; LIST_ROOM],
    frames: u64,
    departures: &mut [u8],
    from: usize,
) -> usize {
    let rows = (departures.len() / 24).min(MOST_ROWS);
    if rows <= from {
        return from;
    }
    let n = (frames as usize).min(MOST_HELD).min(rows - from);
    let lent = departures[24 * from..].chunks_exact_mut(24);
    for (row, of) in lent.zip(list.chunks_exact(3)).take(n) {
        put_row(row, [of[0], of[1], of[2]]);
    }
    from + n
}
