// The walk over the table file: the bytes not yet read, and the number of records read.
ghost use Rattle.std.specs.Prelude.{◌≡◌, ◌+◌, ◌<◌, ◌^◌, drop};
ghost use Rattle.model.specs.TableFile.{read_table};
ghost use Rattle.refusal.specs.Numbers.{number_of};
ghost use Rattle.table_record_reader.specs.Records.{said, due_at};
ghost use Rattle.table_file.specs.Answers.{reading_of, record_reading};

use refusal::Refusal;
use table::{Table, checks};
use table_record_reader::{Record, refusal_of};

#[derive(Clone, Copy)]
pub(crate) struct Walk<'a> {
    pub(crate) rest: &'a [u8],
    pub(crate) read: usize,
}

impl<'a> Walk<'a> {
    fn start(file: &'a [u8]) -> Walk<'a>
        ensures { (result.rest ≡ file.entry) × (result.read ≡ 0) }
    {
        Walk {
            rest: file,
            read: 0,
        }
    }

    // Set in place at each of its calls, with record_at and record_due: no record then goes through memory.
    #[inline(always)]
    fn next(self, count: u16, lines: u16, previous: u16) -> Record
        ensures { said result ≡ due_at self.entry.rest.now self.entry.read count lines previous }
    {
        table_record_reader::record_at(self.rest, self.read, count, lines, previous)
    }

    fn advanced(self, taken: usize) -> Walk<'a>
        requires { self.read + 1 < 2 ^ 64 }
        ensures { (result.rest.now ≡ drop taken self.entry.rest.now) × (result.read ≡ self.entry.read + 1) }
    {
        Walk {
            rest: &self.rest[taken.min(self.rest.len())..],
            read: self.read + 1,
        }
    }
}

// A record of another kind counts as one that is not due; `record_at` answers none.
fn refused(next: Record) -> Refusal
    ensures { (said next).kind ≡ 0 → number_of result ≡ (said next).refused }
{
    refusal_of(next).unwrap_or(Refusal::NotDue)
}

// The counts, so many links, 23, and the sizes.
pub(crate) fn read(file: &[u8]) -> Result<Table, Refusal>
    ensures { reading_of result ≡ record_reading (read_table file.now) }
{
    let mut w = Walk::start(file);
    let first = w.next(0, 0, 0);
    let Record::Counts(lines, count) = first else {
        return Err(refused(first));
    };
    w = w.advanced(8);
    let n = usize::from(count);
    let mut numbers = [0u16; 256];
    let mut links = [table::blank_link(); 256];
    let mut previous: u16 = 0;
    for i in 0..n {
        let record = w.next(count, lines, previous);
        let Record::Link(number, link) = record else {
            return Err(refused(record));
        };
        numbers[i] = number;
        links[i] = link;
        previous = number;
        w = w.advanced(18);
    }
    let mut t = Table {
        lines,
        count,
        numbers,
        links,
        sizes: [0u32; 8],
    };
    checks::check_lines(t)?;
    let last = w.next(count, lines, previous);
    let Record::Sizes(sizes) = last else {
        return Err(refused(last));
    };
    t.sizes = sizes;
    Ok(t)
}
