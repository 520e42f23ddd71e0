// jitter_left [NUMBER]: reads a table file on standard input, and prints how much jitter is left to the link of that number, or a
// line for each link; or prints `refused N`. A program has no exit status, so what else there is to know goes to standard error: a
// message, or `refused` alone; and how far a long run is.
#![tactic(auto)]

mod lines;

use output::messages::tell;

// The words without a number and with one, the program's name among them.
const WITHOUT_NUMBER: usize = 1;

const WITH_NUMBER: usize = 2;

fn main(rt: HostRuntime) {
    let asked = match input::arg_count(&rt) {
        WITHOUT_NUMBER => Some(None),
        WITH_NUMBER => input::read_numeral(input::word(&rt, 1, &mut io::buffer())).map(Some),
        _ => None,
    };
    match asked {
        Some(number) => with_asked(&rt, number),
        None => {
            let _ = tell("usage: jitter_left [NUMBER]", b"");
        }
    }
}

// The link of a number is asked for, or every link.
fn with_asked(rt: &HostRuntime, asked: Option<u64>) {
    let Some(t) = table_input::read_table(rt) else {
        return;
    };
    match asked {
        Some(number) => lines::print_one(t, number),
        None => lines::print_all(t),
    }
}
