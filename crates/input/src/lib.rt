// Internal to the product: what a program is given.
#![tactic(auto)]

ghost use Rattle.std.specs.Prelude.{◌≡◌, ◌<◌, ◌≤◌, length, IfOk, IfErr};
ghost use Rattle.io.specs.Counts.{IsPrefixLen};
ghost use Rattle.input.specs.Numerals.{read_numeral};

use std::env::FillError;
use std::fs::File;
use std::io::Read;
use std::rt::{Env, Files};

// The file that a program begins with and reads.
pub const STDIN_FILENO: i32 = 0;

// A decimal numeral; one above 2^64 - 1 counts as that.
pub fn read_numeral(text: &[u8]) -> Option<u64>
    ensures { result ≡ read_numeral text.now }
{
    let mut value: u64 = 0;
    for &byte in text {
        if !byte.is_ascii_digit() {
            return None;
        }
        let digit = u64::from(byte - b'0');
        value = value.saturating_mul(10).saturating_add(digit);
    }
    if text.is_empty() { None } else { Some(value) }
}

// A read failed, and so many bytes were put at the start of the buffer before.
#[derive(Clone, Copy, Debug, PartialEq, Eq)]
pub struct CutShort {
    pub length: usize,
}

// Reads until the buffer is full or the input ends, from a file or from standard input, and answers how many bytes were put at its
// start.
pub fn read<R: Read>(fd: &mut R, buf: &mut [u8]) -> Result<usize, CutShort>
    ensures ok { IfOk result (λ n. IsPrefixLen n buf.new) }
    ensures err { IfErr result (λ e. e.length < length buf.new) }
{
    let n = read_full(fd, buf);
    if n == buf.len() || has_ended(fd) {
        return Ok(n);
    }
    Err(CutShort { length: n })
}

// Reads until the buffer is full, the input ends or a read fails, and answers how many bytes were put at its start.
fn read_full<R: Read>(fd: &mut R, buf: &mut [u8]) -> usize
    ensures { IsPrefixLen result buf.new }
{
    // (no `for` is plainer: it goes on by as many bytes as a read gave)
    let mut done = 0;
    while done < buf.len() {
        let n = fd.read(&mut buf[done..]).unwrap_or(0);
        if n == 0 {
            break;
        }
        done += n;
    }
    done
}

// Whether nothing is left to read. A read that fails tells it from the end.
fn has_ended<R: Read>(fd: &mut R) -> bool {
    let mut one = [0u8; 1];
    fd.read(&mut one).is_ok_and(|n| n == 0)
}

// How many words a program is given, its name among them.
pub fn arg_count<E: Env>(rt: &E) -> usize {
    for i in 0..usize::MAX {
        if !is_arg(rt, i) {
            return i;
        }
    }
    usize::MAX
}

// One that does not fit is one too.
fn is_arg<E: Env>(rt: &E, i: usize) -> bool {
    match rt.arg(i, &mut []) {
        Ok(_) => true,
        Err(FillError::TooLong) => true,
        Err(FillError::NotPresent) => false,
    }
}

// Puts word i at the start of a buffer, and answers its length: 0 where it is missing or longer than the buffer.
pub fn arg<E: Env>(rt: &E, i: usize, buf: &mut [u8]) -> usize
    ensures { IsPrefixLen result buf.new }
{
    rt.arg(i, buf).unwrap_or(0)
}

// Word i, which the start of a buffer holds: empty where it is missing or longer than the buffer.
pub fn word<'a, E: Env>(rt: &E, i: usize, buf: &'a mut [u8]) -> &'a [u8]
    ensures { length result.now ≤ length buf.old }
{
    let n = arg(rt, i, buf);
    &buf[..n]
}

// Opens the file of that name for reading, if it can be opened and the name is text.
pub fn open_read<F: Files>(rt: &F, name: &[u8]) -> Option<F::File> {
    let path = str::from_utf8(name).ok()?;
    File::open(rt, path).ok()
}
