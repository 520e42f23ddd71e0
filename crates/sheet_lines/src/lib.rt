// Internal to the product: the lines of the sheet.
#![tactic(auto)]

ghost use Rattle.std.specs.Prelude.{◌≡◌, ◌++◌, ◌+◌, ◌≤◌, pos, ◌-ℤ◌, decimal};
ghost use Rattle.arrayvec.specs.ArrayString.{array_string_len};
ghost use Rattle.model.specs.Sheet.{text, difference, fill, sheet_line};
ghost use Rattle.sheet_numerals.specs.Room.{text_room, most_line};
ghost use Rattle.sheet_lines.specs.Lines.{Put, column, columns, table_lines, refusal_line};

use bounds::Bounds;
use sheet_numerals::{Text, put_number};

fn put_column(out: &mut Text, n: u32)
    requires { array_string_len out.old + 11 ≤ text_room }
    ensures { Put out.old out.new (column n) 11 }
{
    put_number(out, n, " ");
}

// What stands in a line behind its priority; spare and fill follow from it.
#[derive(Clone, Copy)]
struct Row {
    bound: u32,
    hold: u32,
    window: u32,
    size: u32,
}

impl Row {
    // All columns before spare.
    fn put_columns(self, priority: usize, out: &mut Text)
        requires { (priority ≤ 7) × (array_string_len out.old + 46 ≤ text_room) }
        ensures { Put out.old out.new (columns priority self.bound self.hold self.window self.size) 46 }
    {
        put_number(out, priority, " ");
        put_column(out, self.bound);
        put_column(out, self.hold);
        put_column(out, self.window);
        put_column(out, self.size);
    }

    // Exact at and below zero.
    fn spare(self) -> i64
        ensures { result ≡ pos self.size -ℤ pos self.bound }
    {
        i64::from(self.size) - i64::from(self.bound)
    }

    fn put_spare(self, out: &mut Text)
        requires { array_string_len out.old + 12 ≤ text_room }
        ensures { Put out.old out.new (difference self.size self.bound ++ text " ") 12 }
    {
        put_number(out, self.spare(), " ");
    }

    // 1000 × bound / size, rounded up.
    fn per_mille(self) -> u64
        requires { 1 ≤ self.size }
        ensures { (decimal result ≡ fill self.bound self.size) × (result ≤ 9999999999999) }
    {
        (1000 * u64::from(self.bound)).div_ceil(u64::from(self.size))
    }

    fn put_fill(self, out: &mut Text)
        requires { array_string_len out.old + 14 ≤ text_room }
        ensures { Put out.old out.new (fill self.bound self.size ++ text "\n") 14 }
    {
        if self.size == 0 {
            out.push_str("-\n");
            return;
        }
        put_number(out, self.per_mille(), "\n");
    }

    fn put_line(self, priority: usize, out: &mut Text)
        requires { (priority ≤ 7) × (array_string_len out.old + most_line ≤ text_room) }
        ensures { Put out.old out.new (sheet_line priority self.bound self.hold self.window self.size) most_line }
    {
        self.put_columns(priority, out);
        self.put_spare(out);
        self.put_fill(out);
    }
}

// Each priority has its line, also where no link has that priority.
pub fn table_lines(of: Bounds, sizes: [u32; 8]) -> Text
    ensures { result.bytes ≡ table_lines of.bounds of.holds of.windows sizes }
{
    let mut out = Text::new();
    out.push_str("priority bound hold window size spare fill\n");
    for p in 0..8 {
        let row = Row {
            bound: of.bounds[p],
            hold: of.holds[p],
            window: of.windows[p],
            size: sizes[p],
        };
        row.put_line(p, &mut out);
    }
    out
}

pub fn refusal_line(number: u32) -> Text
    ensures { result.bytes ≡ refusal_line number }
{
    let mut out = Text::new();
    out.push_str("refused ");
    put_number(&mut out, number, "\n");
    out
}
