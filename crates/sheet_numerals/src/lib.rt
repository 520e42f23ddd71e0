// Internal to the product: the sheet's text, of fixed room, and numbers put behind it.
#![tactic(auto)]

ghost use Rattle.std.specs.Prelude.{◌≡◌, ◌++◌, ◌+◌, ◌≤◌, length};
ghost use Rattle.arrayvec.specs.ArrayString.{array_string_len};
ghost use Rattle.sheet_numerals.specs.Room.{text_room};

use arrayvec::ArrayString;
use itoa::{Buffer, Integer};

// The most bytes of a line: 1 digit for the priority, 10 for each of four 32-bit numbers, 11 for spare, 13 for fill,
// 6 blanks and the end.
const LINE: usize = 72;

// The header, and a line for each priority.
pub const ROOM: usize = 43 + 8 * LINE;

pub type Text = ArrayString<ROOM>;

// A number, unsigned or signed, and what ends it. `write!` would do it, but no clause of it says that it can't fail.
pub fn put_number<I: Integer>(out: &mut Text, n: I, end: &str)
    requires { array_string_len out.old + length (I.text n) + length end.now ≤ text_room }
    ensures bytes { out.new.bytes ≡ out.old.bytes ++ I.text n ++ end.now }
    ensures len { array_string_len out.new ≡ array_string_len out.old + length (I.text n) + length end.now }
{
    let mut digits = Buffer::new();
    out.push_str(digits.format(n));
    out.push_str(end);
}
