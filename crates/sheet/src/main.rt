// Reads a table file on standard input and prints its sheet, or `refused N`. A program has no exit status, so what
// else there is to know goes to standard error: a message, or `refused` alone.
#![tactic(auto)]

use output::messages::tell;
use std::io::Print;
use table_input::{ROOM, read_file};

fn main(rt: HostRuntime) {
    let mut file = [0u8; ROOM];
    if let Ok(n) = read_file(&rt, &mut file) {
        print_sheet(&rt, &file[..n]);
    }
}

fn print_sheet(rt: &HostRuntime, file: &[u8]) {
    let text = sheet_text::text_of(file);
    let sheet = text.as_str();
    if rt.write_all(sheet.as_bytes()).is_err() {
        say("can't write");
    } else if sheet.starts_with("refused") {
        say("refused");
    }
}

// Apart from its callers, on whose stack the sheet is made.
#[inline(never)]
fn say(what: &str) {
    let _ = tell(what, b"");
}
