// Internal to the product: what a program prints is collected, and written when the room for it is full.
#![tactic(auto)]

pub mod messages;

ghost use Rattle.std.specs.Prelude.{◌≡◌, ◌≤◌, true, false, IsOk, ◌↔◌};

use std::fmt;
use std::fmt::{Display, Write};

// The files that a program begins with and writes to.
pub const STDOUT_FILENO: i32 = 1;

pub const STDERR_FILENO: i32 = 2;

pub const ROOM: usize = 8192;

// Writes to a file, by `write!` and the like. A write that failed stays known: no call behind it answers Ok.
// (no heap, fixed memory: an array, and how many bytes of it are collected)
#[derive(Clone, Copy)]
pub struct Out {
    fd: i32,
    room: [u8; ROOM],
    length: usize,
    failed: bool,

    ghost within: { length ≤ 8192 },
}

impl Write for Out {
    ghost write_str_gives = { λ old bytes new. (old.failed ≡ false) × (new.failed ≡ false) };

    fn write_str(&mut self, text: &str) -> fmt::Result
        ensures ok { IsOk result → (self.old.failed ≡ false) × (self.new.failed ≡ false) }
        ensures outcome { IsOk result ↔ (self.new.failed ≡ false) }
        ensures known { self.old.failed ≡ true → self.new.failed ≡ true }
    {
        self.bytes(text.as_bytes())
    }
}

impl Out {
    pub fn new(fd: i32) -> Out
        ensures { (result.fd ≡ fd) × (result.length ≡ 0) × (result.failed ≡ false) }
    {
        Out {
            fd,
            room: [0; ROOM],
            length: 0,
            failed: false,
        }
    }

    // What `write!` and `writeln!` call. A value that can't be printed counts as a write that failed.
    pub fn write_fmt<D: Display + Drop>(&mut self, value: D) -> fmt::Result
        ensures outcome { IsOk result ↔ (self.new.failed ≡ false) }
        ensures known { self.old.failed ≡ true → self.new.failed ≡ true }
    {
        let had_failed = self.failed;
        let printed = self.write(value);
        self.failed = had_failed || self.failed || printed.is_err();
        self.outcome()
    }

    // Bytes that need not be text.
    pub fn bytes(&mut self, bytes: &[u8]) -> fmt::Result
        ensures outcome { IsOk result ↔ (self.new.failed ≡ false) }
        ensures known { self.old.failed ≡ true → self.new.failed ≡ true }
    {
        for &byte in bytes {
            self.byte(byte)?;
        }
        self.outcome()
    }

    fn byte(&mut self, byte: u8) -> fmt::Result
        ensures outcome { IsOk result ↔ (self.new.failed ≡ false) }
        ensures known { self.old.failed ≡ true → self.new.failed ≡ true }
    {
        if self.length >= ROOM {
            self.flush()?;
        }
        let n = self.length;
        self.room[n] = byte;
        self.length = n + 1;
        self.outcome()
    }

    // All that is collected, written.
    pub fn flush(&mut self) -> fmt::Result
        ensures outcome { IsOk result ↔ (self.new.failed ≡ false) }
        ensures known { self.old.failed ≡ true → self.new.failed ≡ true }
        ensures empty { self.new.length ≡ 0 }
    {
        let n = self.length;
        self.length = 0;
        if !self.failed {
            self.failed = !io::write_all(self.fd, &self.room[..n]);
        }
        self.outcome()
    }

    // Whether every write so far took what it was given.
    pub fn outcome(&self) -> fmt::Result
        ensures { IsOk result ↔ (self.now.failed ≡ false) }
    {
        if self.failed { Err(fmt::Error) } else { Ok(()) }
    }
}
