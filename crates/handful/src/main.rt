// handful: reads a table file on standard input, and prints the handful of links that breaks the table and what they reserve on
// each line; or prints `refused N`. A program has no exit status, so what else there is to know goes to standard error: a message,
// or `refused` alone.
#![tactic(auto)]

mod lines;

use output::messages::{refuse, tell};

// The program's name alone.
const WORDS: usize = 1;

fn main(rt: HostRuntime) {
    if input::arg_count(&rt) != WORDS {
        let _ = tell("usage: handful", b"");
        return;
    }
    let Some(t) = table_input::read_table(&rt) else {
        return;
    };
    let _ = match overload_core::core_of(t) {
        Ok(kept) => lines::print(kept),
        Err(refusal) => refuse(refusal).outcome(),
    };
}
