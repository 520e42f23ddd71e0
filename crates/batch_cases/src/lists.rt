// Lent lists, in bytes and in numbers.
ghost use Rattle.std.specs.Prelude.{◌≤◌, length};

use little_endian::LittleEndian;

// Room for the longest run of bytes of a case.
pub(crate) const ROOM: usize = 51200;

pub(crate) const NUMBERS: usize = 6400;

// What a list is filled with before a call: no two neighbours alike, and none 0.
pub(crate) fn lay(bytes: &mut [u8]) {
    for (i, byte) in bytes.iter_mut().enumerate() {
        *byte = 1 + (i % 251) as u8;
    }
}

pub(crate) fn lay_numbers(list: &mut [u64])
    requires { length list.old ≤ 6400 }
{
    let mut bytes = [0u8; ROOM];
    lay(&mut bytes);
    numbers_of(&bytes, list);
}

// The numbers of a run of bytes, 8 bytes each; what is behind its end counts as 0.
pub(crate) fn numbers_of(bytes: &[u8], list: &mut [u64])
    requires { length list.old ≤ 6400 }
{
    for (i, number) in list.iter_mut().enumerate() {
        *number = u64::read(bytes, 8 * i);
    }
}

// A count of frames, as far as a list goes.
pub(crate) fn place(frames: u64) -> usize
    ensures { result ≤ 6400 }
{
    frames.min(6400) as usize
}

// The frames freed of so many answers.
pub(crate) fn freed(answers: &[u64; NUMBERS], many: usize) -> usize {
    let n = many.min(NUMBERS / 3);
    let mut sum: usize = 0;
    for i in 0..n {
        sum += place(answers[3 * i + 2]);
    }
    sum
}
