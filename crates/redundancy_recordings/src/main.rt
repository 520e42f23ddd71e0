// redundancy SKEW A B: presents the waiting frames of two recordings, again and again, and prints a line for each call. A recording
// is a run of frames: tick and length (8 bytes each, little-endian; lengths from 1 to 2,048), and as many bytes. `-` names
// standard input.
#![tactic(auto)]

mod calls;
mod recording;
mod source;

use calls::Stop;
use output::messages::tell;
use redundancy::Network;
use source::Source;

fn main(rt: HostRuntime) {
    if input::arg_count(&rt) != 4 {
        tell_usage();
        return;
    }
    match input::read_numeral(input::word(&rt, 1, &mut io::buffer())) {
        Some(skew) => with_skew(&rt, skew),
        None => tell_usage(),
    }
}

fn tell_usage() {
    let _ = tell("usage: redundancy SKEW A B", b"");
}

fn with_skew(rt: &HostRuntime, skew: u64) {
    let mut first = io::buffer();
    let mut second = io::buffer();
    let a = input::word(rt, 2, &mut first);
    let b = input::word(rt, 3, &mut second);
    with_names(rt, skew, a, b);
}

fn with_names(rt: &HostRuntime, skew: u64, a: &[u8], b: &[u8]) {
    if is_input(a) && is_input(b) {
        tell_usage();
        return;
    }
    let Some(source_a) = opened(rt, a) else {
        let _ = tell("can't open ", a);
        return;
    };
    let Some(source_b) = opened(rt, b) else {
        let _ = tell("can't open ", b);
        return;
    };
    if let Err(stop) = calls::run(skew, source_a, source_b) {
        tell_stop(stop, a, b);
    }
}

fn tell_stop(stop: Stop, a: &[u8], b: &[u8]) {
    let _ = match stop {
        Stop::Unread(Network::A) => tell("can't read ", a),
        Stop::Unread(Network::B) => tell("can't read ", b),
        Stop::Refused => tell("refused", b""),
        Stop::Unwritten => tell("can't write", b""),
    };
}

fn is_input(name: &[u8]) -> bool {
    name == b"-".as_slice()
}

fn opened(rt: &HostRuntime, name: &[u8]) -> Option<Source> {
    if is_input(name) {
        return Some(Source::Input(rt.stdin()));
    }
    Some(Source::File(input::open_read(rt, name)?))
}
