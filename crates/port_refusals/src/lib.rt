// Internal to the product: verdicts; reports, and their refusals 11 to 16 over numbers of a port that is fit.
#![tactic(auto)]

ghost use Rattle.std.specs.Prelude.{◌≡◌, [], ◌∷◌, ◌<◌};
ghost use Rattle.model.specs.Basics.{entries, first_met};
ghost use Rattle.model.specs.Report.{tick_of, frame_checks, report_checks, room_check};
ghost use Rattle.model.specs.Batch.{report_of};
ghost use Rattle.refusal.specs.Numbers.{number_or_0};
ghost use Rattle.port_refusals.specs.Reports.{view_report, Clocked};
ghost use Rattle.port_refusals.specs.Verdicts.{verdict_of, verdict_or_0};

use refusal::Refusal;
use units::LAST_TICK;

// What becomes of a frame.
#[derive(Clone, Copy, Debug, PartialEq, Eq)]
pub enum Verdict {
    Stored,
    Filtered,
    Policed,
    Dropped,
}

impl Verdict {
    // The paper's number of it.
    pub fn number(self) -> u32
        ensures { (result ≡ verdict_of self) × (result < 4) }
    {
        match self {
            Verdict::Stored => 0,
            Verdict::Filtered => 1,
            Verdict::Policed => 2,
            Verdict::Dropped => 3,
        }
    }
}

// The number of a report's verdict; 0 for a wait, which has none.
pub fn verdict_or_0(verdict: Option<Verdict>) -> u32
    ensures { (result ≡ verdict_or_0 verdict) × (result < 4) }
{
    verdict.map_or(0, Verdict::number)
}

// A report: a wait until a tick; or a frame with its tick, line, number and length.
#[derive(Clone, Copy, Debug, PartialEq, Eq)]
pub enum Report {
    Wait(u64),
    Frame(u64, u64, u64, u64),
}

// The report of five numbers: form (0 a wait, else a frame), tick, line, number, length.
#[tactic(auto, unfolding(model::specs::Batch::report_of))]
pub fn report_of(form: u64, time: u64, line: u64, number: u64, bytes: u64) -> Report
    ensures { view_report result ≡ report_of form time line number bytes }
{
    match form {
        0 => Report::Wait(time),
        _ => Report::Frame(time, line, number, bytes),
    }
}

pub fn tick_of(report: Report) -> u64
    ensures { result ≡ tick_of (view_report report) }
{
    match report {
        Report::Wait(time) => time,
        Report::Frame(time, _, _, _) => time,
    }
}

// 13 to 15, of a frame report alone.
fn check_frame(lines: u64, ticks: &[u64], report: Report) -> Result<(), Refusal>
    requires { Clocked ticks.now lines }
    ensures { number_or_0 result ≡ first_met (frame_checks lines (entries 0 lines ticks.now) (view_report report)) }
{
    let Report::Frame(time, line, _, length) = report else {
        return Ok(());
    };
    if lines <= line {
        return Err(Refusal::NoSuchLine);
    }
    if !units::is_length(length) {
        return Err(Refusal::LengthOutOfRange);
    }
    let i = line as usize;
    if time < ticks[i] + length {
        return Err(Refusal::LineNotFree);
    }
    Ok(())
}

// 11 to 15.
pub fn check(clock: u64, lines: u64, ticks: &[u64], report: Report) -> Result<(), Refusal>
    requires { Clocked ticks.now lines }
    ensures { number_or_0 result ≡ first_met (report_checks clock lines (entries 0 lines ticks.now) (view_report report)) }
{
    let time = tick_of(report);
    if LAST_TICK < time {
        return Err(Refusal::PastLastTick);
    }
    if time < clock {
        return Err(Refusal::BeforeClock);
    }
    check_frame(lines, ticks, report)
}

// 16, of a port that holds so many frames and a list of so much room; no product wraps.
pub fn check_room(frames: u64, room: usize) -> Result<(), Refusal>
    ensures { number_or_0 result ≡ first_met (room_check frames room ∷ []) }
{
    if (room as u64) / 3 < frames {
        return Err(Refusal::ListTooShort);
    }
    Ok(())
}
