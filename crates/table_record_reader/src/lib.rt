// Internal to the product: the record reader of the table file: what the bytes not yet read begin with, told what is due.
#![tactic(auto)]

ghost use Rattle.std.specs.Prelude.{◌≡◌};
ghost use Rattle.model.specs.Basics.{first_met};
ghost use Rattle.model.specs.TableFile.{header_checks, link_read, sizes_read};
ghost use Rattle.refusal.specs.Numbers.{number_or_0};
ghost use Rattle.table.specs.Checks.{previous_of};
ghost use Rattle.table.specs.View.{record_link};
ghost use Rattle.table_record_reader.specs.Records.{said, said_of, refusal_said, counts_due, link_due, sizes_due, due_at};

use little_endian::LittleEndian;
use refusal::Refusal;
use table::{VirtualLink, checks};

// A record of the table file: counts of lines and links, a link with its number, the sizes; or the refusal.
// The refusal is a case of it, and not the Err of a Result: the paper names let .. else on this enum.
#[derive(Clone, Copy)]
pub enum Record {
    Counts(u16, u16),
    Link(u16, VirtualLink),
    Sizes([u32; 8]),
    Refused(Refusal),
}

// 1, 2 or 1 again: too short for length and kind, another kind or length than due, too short for the body.
#[tactic(auto, unfolding(model::specs::TableFile::header_checks, model::specs::Basics::first_met))]
fn check_header(rest: &[u8], kind: u16, len: u16) -> Result<(), Refusal>
    ensures { number_or_0 result ≡ first_met (header_checks kind len rest.now) }
{
    if rest.len() < 4 {
        return Err(Refusal::CutShort);
    }
    if u16::read(rest, 0) != len {
        return Err(Refusal::NotDue);
    }
    if u16::read(rest, 2) != kind {
        return Err(Refusal::NotDue);
    }
    if rest.len() < 2 + usize::from(len) {
        return Err(Refusal::CutShort);
    }
    Ok(())
}

fn counts_at(rest: &[u8]) -> Result<Record, Refusal>
    ensures { said_of result ≡ counts_due rest.now }
{
    check_header(rest, 1, 6)?;
    let lines = u16::read(rest, 4);
    let count = u16::read(rest, 6);
    if !checks::counts_in_range(lines, count) {
        return Err(Refusal::CountOutOfRange);
    }
    Ok(Record::Counts(lines, count))
}

#[tactic(auto, unfolding(model::specs::TableFile::link_read))]
fn link_fields(rest: &[u8]) -> VirtualLink
    ensures { result ≡ record_link (link_read rest.now) }
{
    VirtualLink {
        line: u8::read(rest, 6),
        priority: u8::read(rest, 7),
        code: u8::read(rest, 8),
        least: u16::read(rest, 10),
        greatest: u16::read(rest, 12),
        jitter: u32::read(rest, 14),
    }
}

fn link_at(rest: &[u8], before: usize, lines: u16, previous: u16) -> Result<Record, Refusal>
    ensures { said_of result ≡ link_due lines (previous_of before previous) rest.now }
{
    check_header(rest, 2, 16)?;
    if u8::read(rest, 9) != 0 {
        return Err(Refusal::FieldOutOfRange);
    }
    let number = u16::read(rest, 4);
    let link = link_fields(rest);
    checks::check_link(lines, before, previous, number, link)?;
    Ok(Record::Link(number, link))
}

#[tactic(auto, unfolding(model::specs::TableFile::sizes_read))]
fn sizes_read(rest: &[u8]) -> [u32; 8]
    ensures { result ≡ sizes_read rest.now }
{
    [
        u32::read(rest, 4),
        u32::read(rest, 8),
        u32::read(rest, 12),
        u32::read(rest, 16),
        u32::read(rest, 20),
        u32::read(rest, 24),
        u32::read(rest, 28),
        u32::read(rest, 32),
    ]
}

fn sizes_at(rest: &[u8]) -> Result<Record, Refusal>
    ensures { said_of result ≡ sizes_due rest.now }
{
    check_header(rest, 3, 34)?;
    let sizes = sizes_read(rest);
    checks::check_sizes(sizes)?;
    if 36 < rest.len() {
        return Err(Refusal::BytesLeft);
    }
    Ok(Record::Sizes(sizes))
}

// The first record has the counts, then count records have a link each, and the last has the sizes.
// The first link has no previous number.
#[inline(always)]
#[tactic(auto, unfolding(crate::specs::Records::due_at))]
fn record_due(
    rest: &[u8],
    read: usize,
    count: u16,
    lines: u16,
    previous: u16,
) -> Result<Record, Refusal>
    ensures { said_of result ≡ due_at rest.now read count lines previous }
{
    if read == 0 {
        return counts_at(rest);
    }
    if read <= usize::from(count) {
        return link_at(rest, read - 1, lines, previous);
    }
    sizes_at(rest)
}

// The record that is due. Five plain parameters, and no struct: the paper puts the walk's over a reader on plain slices.
#[inline(always)]
#[tactic(auto, unfolding(crate::specs::Records::said))]
pub fn record_at(rest: &[u8], read: usize, count: u16, lines: u16, previous: u16) -> Record
    ensures { said result ≡ due_at rest.now read count lines previous }
{
    match record_due(rest, read, count, lines, previous) {
        Ok(record) => record,
        Err(refusal) => Record::Refused(refusal),
    }
}

// The refusal, none for a record.
#[tactic(auto, unfolding(crate::specs::Records::said))]
pub fn refusal_of(next: Record) -> Option<Refusal>
    ensures { refusal_said result ≡ (said next).refused }
{
    let Record::Refused(refusal) = next else {
        return None;
    };
    Some(refusal)
}
