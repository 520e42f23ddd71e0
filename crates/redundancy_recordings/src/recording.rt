// A recording, read in parts.
ghost use Rattle.std.specs.Prelude.{◌≤◌, IfOk};

use crate::source::Source;
use input::CutShort;
use little_endian::LittleEndian;
use redundancy::Waiting;

// The bytes of a part. A frame lies in it whole.
const PART: usize = 8192;

// The bytes before those of a frame: its tick and its length.
const HEAD: usize = 16;

// The longest frame.
const MOST: u64 = 2048;

// What stands behind a part: more, or the end; or a read failed.
#[derive(Clone, Copy, Debug, PartialEq, Eq)]
enum Behind {
    More,
    End,
    Broken,
}

// The bytes of a part that are still to be read: from one place up to another.
#[derive(Clone, Copy)]
struct Unread {
    from: usize,
    to: usize,
    behind: Behind,

    ghost within: { (from ≤ to) × (to ≤ 8192) },
}

// The frame that waits: its tick, and where its bytes lie in the part.
#[derive(Clone, Copy)]
struct Frame {
    tick: u64,
    at: usize,
    end: usize,

    ghost within: { (at ≤ end) × (end ≤ 8192) },
}

// A recording has something other than a frame, or can't be read.
#[derive(Clone, Copy, Debug, PartialEq, Eq)]
pub(crate) struct Unreadable;

#[derive(Drop)]
pub(crate) struct Recording {
    source: Source,
    part: [u8; PART],
    unread: Unread,
    frame: Option<Frame>,
}

impl Recording {
    // Before the first frame.
    pub(crate) fn new(source: Source) -> Recording {
        let unread = Unread {
            from: 0,
            to: 0,
            behind: Behind::More,
        };
        Recording {
            source,
            part: [0; PART],
            unread,
            frame: None,
        }
    }

    pub(crate) fn has_ended(&self) -> bool {
        self.frame.is_none()
    }

    // The frame that waits, empty where the recording has ended.
    pub(crate) fn waiting(&self) -> Waiting<'_> {
        match self.frame {
            Some(f) => Waiting {
                frame: &self.part[f.at..f.end],
                tick: f.tick,
            },
            None => Waiting {
                frame: &[],
                tick: 0,
            },
        }
    }

    // The next frame waits, or the recording has ended.
    pub(crate) fn advance(&mut self) -> Result<(), Unreadable> {
        self.fill(HEAD);
        let head = self.unread;
        if head.from == head.to && head.behind == Behind::End {
            self.frame = None;
            return Ok(());
        }
        let length = self.length()?;
        self.fill(HEAD + length);
        let u = self.unread;
        if u.to - u.from < HEAD + length {
            return Err(Unreadable);
        }
        let at = u.from + HEAD;
        let end = at + length;
        let tick = u64::read(&self.part, u.from);
        self.frame = Some(Frame { tick, at, end });
        self.unread = Unread {
            from: end,
            to: u.to,
            behind: u.behind,
        };
        Ok(())
    }

    // The length that the head of a frame says.
    fn length(&self) -> Result<usize, Unreadable>
        ensures { IfOk result (λ n. n ≤ 2048) }
    {
        let u = self.unread;
        if u.to - u.from < HEAD {
            return Err(Unreadable);
        }
        let length = u64::read(&self.part, u.from + 8);
        if length == 0 || length > MOST {
            return Err(Unreadable);
        }
        Ok(length as usize)
    }

    // At least so many bytes to be read, or all that there are: what is left of the part goes to its start, and more is read behind it.
    fn fill(&mut self, many: usize) {
        let u = self.unread;
        let kept = u.to - u.from;
        if many <= kept || u.behind != Behind::More {
            return;
        }
        self.part.copy_within(u.from..u.to, 0);
        let read = input::read(&mut self.source, &mut self.part[kept..]);
        self.unread = match read {
            Ok(n) => Unread {
                from: 0,
                to: kept + n,
                behind: if kept + n == PART {
                    Behind::More
                } else {
                    Behind::End
                },
            },
            Err(CutShort { length }) => Unread {
                from: 0,
                to: kept + length,
                behind: Behind::Broken,
            },
        };
    }
}
