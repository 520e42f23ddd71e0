// The sheet of a table file, as text of fixed room.
#![tactic(auto)]

ghost use Rattle.std.specs.Prelude.{◌≡◌};
ghost use Rattle.model.specs.Sheet.{sheet};
ghost use Rattle.sheet_text.specs.Shown.{sheet_of, shown};

use refusal::Refusal;
use sheet_numerals::Text;

// The largest file has 4,652 bytes. One more shows that there are bytes left.
const MOST_READ: usize = 4653;

// The sheet of a table file, or `refused N` with the first refusal: the reader's, 1 to 7 or 23, then 8.
pub fn text_of(input: &[u8]) -> Text
    ensures { result.bytes ≡ sheet input.now }
{
    let end = input.len().min(MOST_READ);
    match lines_of(&input[..end]) {
        Ok(text) => text,
        Err(refusal) => sheet_lines::refusal_line(refusal.number()),
    }
}

fn lines_of(file: &[u8]) -> Result<Text, Refusal>
    ensures { shown result ≡ sheet_of file.now }
{
    let t = table_file::read(file)?;
    let b = bounds::bounds_of(t)?;
    Ok(sheet_lines::table_lines(b, t.sizes))
}
