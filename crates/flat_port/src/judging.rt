// The verdict of a frame that has wholly arrived.
ghost use Rattle.std.specs.Prelude.{◌≡◌};
ghost use Rattle.model.specs.Report.{frame as frameReport, judge_report};
ghost use Rattle.table.specs.View.{view_table};
ghost use Rattle.port_refusals.specs.Verdicts.{verdict_of};
ghost use Rattle.table_lookup.specs.Places.{Found};
ghost use Rattle.flat_port.specs.Promised.{Arrived, judge_counted, GivesInPlace};

use crate::Lists;
use counters::tally;
use port_refusals::Verdict;
use table::Table;

impl Lists {
    // First the line's tick, then the filter, then the police check, then the store. No count is touched.
    fn verdict(
        &mut self,
        table: &Table,
        place: Option<usize>,
        line: u64,
        number: u64,
        length: u64,
        time: u64,
    ) -> Verdict
        requires { Arrived (view_table table.now) self.old line «length» × Found table.now.numbers table.now.count number place }
        ensures { GivesInPlace (view_table table.now) self.old (λ s. judge_report (view_table table.now) s (frameReport time line number «length»)) (verdict_of result) self.new × (self.new.tallies ≡ self.old.tallies) }
    {
        self.ticks[line as usize] = time;
        let Some(i) = place else {
            return Verdict::Filtered;
        };
        let link = table.links[i];
        if !port_filter::admits(link, line, length) {
            return Verdict::Filtered;
        }
        let bag = table::bag(link.code);
        if !port_policing::charge(&mut self.accounts[i], bag, u64::from(link.jitter), time) {
            return Verdict::Policed;
        }
        let p = usize::from(link.priority);
        let size = u64::from(table.sizes[p]);
        flat_storing::settle(&mut self.rings, p, size, number, length, time)
    }

    // The frame counts by its number, whatever its line and length.
    pub(crate) fn judge(
        &mut self,
        table: &Table,
        line: u64,
        number: u64,
        length: u64,
        time: u64,
    ) -> Verdict
        requires { Arrived (view_table table.now) self.old line «length» }
        ensures { GivesInPlace (view_table table.now) self.old (judge_counted (view_table table.now) (frameReport time line number «length»)) (verdict_of result) self.new }
    {
        let place = table_lookup::place_of(&table.numbers, table.count, number);
        let verdict = self.verdict(table, place, line, number, length, time);
        tally(&mut self.tallies, place, verdict);
        verdict
    }
}
