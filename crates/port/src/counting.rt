// A frame counted where its count stands in the port, by its number and its verdict.
ghost use Rattle.std.specs.Prelude.{◌≡◌};
ghost use Rattle.model.specs.Table.{table_refusal};
ghost use Rattle.table.proofs.Shape.{Sized};
ghost use Rattle.port_refusals.specs.Verdicts.{verdict_of};
ghost use Rattle.port.specs.View.{view_port_table};
ghost use Rattle.port.specs.Counting.{Counts};

use crate::Port;
use port_refusals::Verdict;

// Of the link that has the number, whatever the frame's line and length; or of no link. No other count is touched.
pub(crate) fn count(p: &mut Port, number: u64, verdict: Verdict)
    requires { Sized p.old.table × (table_refusal (view_port_table p.old) ≡ 0) }
    ensures { Counts p.old number (verdict_of verdict) p.new }
{
    let Some(i) = table_lookup::place_of(&p.table.numbers, p.table.count, number) else {
        p.unknown = counters::risen(p.unknown);
        return;
    };
    let at = 4 * i + verdict.number() as usize;
    p.counts[at] = counters::risen(p.counts[at]);
}
