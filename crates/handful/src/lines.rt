// What is printed of the links that remain: a line for each, then for each line of the table what they reserve on it.
use output::messages::end;
use output::{Out, STDOUT_FILENO};
use std::fmt;
use table::{Table, VirtualLink};
use table_input::how_many;
use units::LEAST_BAG;

pub(crate) fn print(t: Table) -> fmt::Result {
    let mut out = Out::new(STDOUT_FILENO);
    let printed = put(&mut out, &t);
    end(&mut out, printed)
}

fn put(out: &mut Out, t: &Table) -> fmt::Result {
    writeln!(out, "number line priority bag least greatest jitter")?;
    for (number, v) in t.numbers.iter().zip(&t.links).take(how_many(t)) {
        put_link(out, *number, v)?;
    }
    writeln!(out, "line sold")?;
    // A table that passes has 24 lines at most.
    for line in 0..t.lines.min(24) as u8 {
        writeln!(out, "{line} {}", overload_core::sold_on(*t, line))?;
    }
    Ok(())
}

// The BAG in ms: the least is one.
fn put_link(out: &mut Out, number: u16, v: &VirtualLink) -> fmt::Result {
    let bag = table::bag(v.code) / LEAST_BAG;
    write!(out, "{number} {} {} {bag} ", v.line, v.priority)?;
    writeln!(out, "{} {} {}", v.least, v.greatest, v.jitter)
}
