// What a recording is read of: standard input, or a file.
use std::fs::File;
use std::io::{Read, Stdin};

#[derive(Drop)]
pub(crate) enum Source {
    Input(Stdin),
    File(File),
}

impl Read for Source {
    fn read(&mut self, buf: &mut [u8]) -> std::io::Result<usize> {
        match self {
            Source::Input(stdin) => stdin.read(buf),
            Source::File(file) => file.read(buf),
        }
    }
}
