// Internal to the product: the table file that a program is given on standard input.
#![tactic(auto)]

ghost use Rattle.std.specs.Prelude.{◌≡◌, ◌<◌, ◌≤◌, length, IfSome, IfOk, IfErr};
ghost use Rattle.io.specs.Counts.{IsPrefixLen};
ghost use Rattle.model.specs.Table.{table_refusal};
ghost use Rattle.table.specs.View.{view_table};

use input::CutShort;
use output::messages::{refuse, tell};
use refusal::Refusal;
use table::Table;

// The largest file.
pub const LONGEST: usize = 4652;

// One byte more: what is read of standard input.
pub const ROOM: usize = LONGEST + 1;

// The table of the file, one that passes its checks; or it is said that it can't be read, or how it is refused.
pub fn read_table(rt: &HostRuntime) -> Option<Table>
    ensures { IfSome result (λ t. table_refusal (view_table t) ≡ 0) }
{
    let mut file = [0u8; ROOM];
    let n = read_file(rt, &mut file).ok()?;
    table_of(&file[..n])
}

// How many bytes of the file were put at the start of the buffer; where it can't be read that is said too.
pub fn read_file(rt: &HostRuntime, file: &mut [u8]) -> Result<usize, CutShort>
    ensures ok { IfOk result (λ n. IsPrefixLen n file.new) }
    ensures err { IfErr result (λ e. e.length < length file.new) }
{
    let read = input::read(&mut rt.stdin(), file);
    if read.is_err() {
        say_unread();
    }
    read
}

// This and the next apart from their callers, on whose stack the table is worked on.
#[inline(never)]
fn say_unread() {
    let _ = tell("can't read the table file", b"");
}

#[inline(never)]
fn say_refused(refusal: Refusal) {
    let _ = refuse(refusal);
}

fn table_of(file: &[u8]) -> Option<Table>
    ensures { IfSome result (λ t. table_refusal (view_table t) ≡ 0) }
{
    match table_file::read(file) {
        Ok(t) => Some(t),
        Err(refusal) => {
            say_refused(refusal);
            None
        }
    }
}

// The links of a table: no more than its record has room for.
pub fn how_many(t: &Table) -> usize
    ensures { result ≤ 256 }
{
    usize::from(t.count).min(256)
}
