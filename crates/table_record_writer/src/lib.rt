// Internal to the product: the records of the table file, each laid down as length, kind and body.
#![tactic(auto)]

ghost use Rattle.std.specs.Prelude.{◌≡◌, ◌+◌, ◌*◌, ◌≤◌, length};
ghost use mathlib.Core.List.{◌++◌, flat_map};
ghost use Rattle.model.specs.TableFile.{to_bytes, record_bytes, counts_body, link_body, sizes_body};
ghost use Rattle.little_endian.specs.Output.{laid};
ghost use Rattle.table.specs.View.{view_link, view_links};
ghost use Rattle.table_record_writer.specs.Records.{link_record};

use little_endian::LittleEndian;
use table::{Table, VirtualLink};

fn header(out: &mut [u8], at: usize, len: u16, kind: u16)
    requires { at + 4 ≤ length out.old }
    ensures { out.new ≡ laid at (to_bytes 2 len ++ to_bytes 2 kind) out.old }
{
    len.write(out, at);
    kind.write(out, at + 2);
}

fn counts_body(out: &mut [u8], lines: u16, count: u16)
    requires { 4 ≤ length out.old }
    ensures { out.new ≡ laid 0 (counts_body lines count) out.old }
{
    lines.write(out, 0);
    count.write(out, 2);
}

fn link_body(out: &mut [u8], number: u16, link: VirtualLink)
    requires { 14 ≤ length out.old }
    ensures { out.new ≡ laid 0 (link_body (view_link number link)) out.old }
{
    number.write(out, 0);
    link.line.write(out, 2);
    link.priority.write(out, 3);
    link.code.write(out, 4);
    0u8.write(out, 5);
    link.least.write(out, 6);
    link.greatest.write(out, 8);
    link.jitter.write(out, 10);
}

fn sizes_body(out: &mut [u8], sizes: [u32; 8])
    requires { 32 ≤ length out.old }
    ensures { out.new ≡ laid 0 (sizes_body sizes) out.old }
{
    for p in 0..8 {
        sizes[p].write(out, 4 * p);
    }
}

pub fn counts_record(out: &mut [u8], lines: u16, count: u16)
    requires { 8 ≤ length out.old }
    ensures { out.new ≡ laid 0 (record_bytes 1 (counts_body lines count)) out.old }
{
    header(out, 0, 6, 1);
    counts_body(&mut out[4..], lines, count);
}

fn link_record(out: &mut [u8], at: usize, number: u16, link: VirtualLink)
    requires { at + 18 ≤ length out.old }
    ensures { out.new ≡ laid at (record_bytes 2 (link_body (view_link number link))) out.old }
{
    header(out, at, 16, 2);
    link_body(&mut out[at + 4..], number, link);
}

pub fn sizes_record(out: &mut [u8], at: usize, sizes: [u32; 8])
    requires { at + 36 ≤ length out.old }
    ensures { out.new ≡ laid at (record_bytes 3 (sizes_body sizes)) out.old }
{
    header(out, at, 34, 3);
    sizes_body(&mut out[at + 4..], sizes);
}

pub fn link_records(out: &mut [u8], t: Table)
    requires { (t.count ≤ 256) × (8 + 18 * t.count ≤ length out.old) }
    ensures { out.new ≡ laid 8 (flat_map link_record (view_links t)) out.old }
{
    let n = usize::from(t.count);
    for i in 0..n {
        let number = t.numbers[i];
        let link = t.links[i];
        link_record(out, 8 + 18 * i, number, link);
    }
}
