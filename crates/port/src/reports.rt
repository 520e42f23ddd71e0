// Reports to any record: refused, with the record as it came; or advanced, and a frame then judged and counted.
ghost use Rattle.model.specs.Report.{frame as frameReport, wait as waitReport};
ghost use Rattle.port.specs.Whole.{Whole};
ghost use Rattle.port.specs.Promised.{Answered};

use crate::{Accepted, Port, advancing, counting, judging};
use port_refusals::Report;
use refusal::Refusal;

pub(crate) fn wait(p: &mut Port, tick: u64, list: &mut [u64]) -> Result<Accepted, Refusal>
    requires { Whole p.old }
    ensures { Answered p.old (waitReport tick) list.old list.new (record { outcome = result; port = p.new }) }
{
    advancing::advance(p, Report::Wait(tick), list)
}

pub(crate) fn frame(
    p: &mut Port,
    tick: u64,
    line: u64,
    number: u64,
    length: u64,
    list: &mut [u64],
) -> Result<Accepted, Refusal>
    requires { Whole p.old }
    ensures { Answered p.old (frameReport tick line number «length») list.old list.new (record { outcome = result; port = p.new }) }
{
    let freed = advancing::advance(p, Report::Frame(tick, line, number, length), list)?;
    let verdict = judging::judge(p, line, number, length);
    counting::count(p, number, verdict);
    Ok(Accepted {
        verdict: Some(verdict),
        frames: freed.frames,
        bytes: freed.bytes,
    })
}
