// Reports of a case, five numbers each.
ghost use Rattle.std.specs.Prelude.{◌≡◌, length};

use little_endian::LittleEndian;
use std::io::Read;

// The numbers of 80 reports.
pub(crate) const NUMBERS: usize = 400;

// The form of a departure of the first port.
const DEPARTURE: u64 = 2;

// Reads so many reports. What the input lacks counts as 0.
pub(crate) fn read(rt: &HostRuntime, many: u16, reports: &mut [u64]) {
    for report in reports.chunks_exact_mut(5).take(usize::from(many)) {
        report.copy_from_slice(&read_report(rt));
    }
}

fn read_report(rt: &HostRuntime) -> [u64; 5] {
    let mut one = [0u8; 1];
    let _ = rt.stdin().read_exact(&mut one);
    let form = u64::from(one[0]);
    if form == DEPARTURE {
        return [form, 0, 0, 0, 0];
    }
    let mut bytes = [0u8; 13];
    let _ = rt.stdin().read_exact(&mut bytes);
    let tick = u64::read(&bytes, 0);
    let line = u64::from(u8::read(&bytes, 8));
    let number = u64::from(u16::read(&bytes, 9));
    let length = u64::from(u16::read(&bytes, 11));
    [form, tick, line, number, length]
}

// The departures in the list become the frames that stand for them among so many reports, in order, on the chosen line.
// What the list lacks counts as 0.
pub(crate) fn put_departures(many: u16, reports: &mut [u64], list: &[u64], line: u64) {
    let mut rest = list;
    for report in reports.chunks_exact_mut(5).take(usize::from(many)) {
        if report[0] == DEPARTURE {
            let (departure, behind) = rest.split_at(rest.len().min(3));
            let number = entry(departure, 0);
            let length = entry(departure, 1);
            report.copy_from_slice(&[1, entry(departure, 2), line, number, length]);
            rest = behind;
        }
    }
}

fn entry(list: &[u64], i: usize) -> u64 {
    list.get(i).copied().unwrap_or(0)
}
