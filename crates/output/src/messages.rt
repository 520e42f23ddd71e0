// What a program says where it is refused or can't go on. None of it stays collected; whether the write took it, `outcome` says.
ghost use Rattle.std.specs.Prelude.{◌≡◌, ◌↔◌, false, IsOk};

use crate::{Out, STDERR_FILENO, STDOUT_FILENO};
use std::fmt;
use std::fmt::{Display, Write};

// To standard error: a message; or `refused` alone, which tells that all is refused and not one report of a list.
pub fn tell(what: &str, name: &[u8]) -> Out
    ensures { result.length ≡ 0 }
{
    let mut out = Out::new(STDERR_FILENO);
    let _ = out.write_str(what);
    let _ = out.bytes(name);
    let _ = out.write_str("\n");
    let _ = out.flush();
    out
}

// All that the program was given is refused: the refusal's own line, and `refused`.
pub fn refuse<R: Display + Drop>(refusal: R) -> Out
    ensures { result.length ≡ 0 }
{
    let mut out = Out::new(STDOUT_FILENO);
    match put_line(&mut out, refusal) {
        Ok(()) => tell("refused", b""),
        Err(_) => tell("can't write", b""),
    }
}

// A line, written with all that is collected.
fn put_line<D: Display + Drop>(out: &mut Out, line: D) -> fmt::Result
    ensures outcome { IsOk result ↔ (out.new.failed ≡ false) }
    ensures empty { out.new.length ≡ 0 }
{
    let _ = writeln!(out, "{line}");
    out.flush()
}

// All that is collected is written. Where it, or what was printed before, could not be, that is told.
pub fn end(out: &mut Out, printed: fmt::Result) -> fmt::Result
    ensures empty { out.new.length ≡ 0 }
    ensures quiet { IsOk printed → out.new.failed ≡ false → IsOk result }
{
    let written = out.flush();
    match printed.and(written) {
        Ok(()) => Ok(()),
        Err(_) => tell("can't write", b"").outcome(),
    }
}
