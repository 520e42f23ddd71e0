// The table file for the next switch on the way, from that of this one.
#![tactic(auto)]

ghost use Rattle.std.specs.Prelude.{◌≡◌, map, min};
ghost use Rattle.model.specs.NextTable.{next_file};
ghost use Rattle.table_file.specs.Answers.{writing_of};
ghost use Rattle.next_file.specs.Answer.{size_cap, Wrote};

use refusal::Refusal;
use table::Table;

// Sizes of 64 bits in a table's 32: one that is too large stays so.
fn capped(sizes: [u64; 8]) -> [u32; 8]
    ensures { result ≡ map (λ n. min n size_cap) sizes }
{
    let mut fields = [0u32; 8];
    for p in 0..8 {
        fields[p] = sizes[p].min(16385) as u32;
    }
    fields
}

// Writes the next table's file, with these sizes, into the lent output, and answers its length; bytes behind it stay.
// Or the refusal: 22 and 3 of line and line count; 1 to 7 and 23 of the file; 8; 21; 6 of the sizes; 9. It writes to no byte.
pub fn next_file(
    file: &[u8],
    line: u64,
    lines: u64,
    sizes: [u64; 8],
    out: &mut [u8],
) -> Result<usize, Refusal>
    ensures { Wrote (next_file file.now line lines sizes out.old) out.new (writing_of result) }
{
    tandem::check_line(line, lines)?;
    let t = table_file::read(file)?;
    let next = tandem::next_table(t, line, lines)?;
    let whole = Table {
        sizes: capped(sizes),
        ..next
    };
    table_file::write(whole, out)
}
