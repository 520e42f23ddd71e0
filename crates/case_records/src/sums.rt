// 32-bit FNV-1a of bytes, of a list, and of the numbers of a table or a port, each number as 8 bytes, little-endian.
ghost use Rattle.std.specs.Prelude.{◌^◌, ◌<◌};

use port::Port;
use port_scheduler::{Queue, Sending};
use table::Table;
use units::MOST_FRAMES;

#[derive(Clone, Copy)]
struct Sum(u32);

impl Sum {
    const NOTHING: Sum = Sum(2166136261);

    fn bytes(self, bytes: &[u8]) -> Sum {
        bytes.iter().fold(self, |sum, byte| {
            Sum((sum.0 ^ u32::from(*byte)).wrapping_mul(16777619))
        })
    }

    fn numbers(self, numbers: &[u64]) -> Sum {
        numbers
            .iter()
            .fold(self, |sum, n| sum.bytes(&n.to_le_bytes()))
    }

    fn table(self, t: &Table) -> Sum {
        let head = self.numbers(&[u64::from(t.lines), u64::from(t.count)]);
        let links = t.numbers.iter().zip(t.links.iter());
        let rows = links.fold(head, |sum, (number, v)| {
            sum.numbers(&[
                u64::from(*number),
                u64::from(v.least),
                u64::from(v.greatest),
                u64::from(v.line),
                u64::from(v.priority),
                u64::from(v.code),
                u64::from(v.jitter),
            ])
        });
        t.sizes
            .iter()
            .fold(rows, |sum, size| sum.numbers(&[u64::from(*size)]))
    }

    // A queue's frames up to its count, or all of them.
    fn queue(self, q: &Queue, whole: bool) -> Sum {
        let shown = if whole {
            MOST_FRAMES
        } else {
            usize::from(q.count)
        };
        let head = self.numbers(&[u64::from(q.count), u64::from(q.mark)]);
        q.frames.iter().take(shown).fold(head, |sum, f| {
            sum.numbers(&[u64::from(f.number), u64::from(f.length), f.arrival])
        })
    }

    fn sender(self, sender: Option<Sending>) -> Sum {
        match sender {
            None => self.numbers(&[0]),
            Some(s) => self.numbers(&[1, u64::from(s.priority), s.start]),
        }
    }

    fn port(self, port: &Port, whole: bool) -> Sum {
        let table = self.numbers(&[port.clock]).table(&port.table);
        let queues = port.queues.iter();
        let then = queues
            .fold(table, |sum, q| sum.queue(q, whole))
            .sender(port.sender)
            .numbers(&port.gate.line_ticks);
        let accounts = port.gate.accounts.iter();
        accounts
            .fold(then, |sum, a| sum.numbers(&[a.credit, a.tick]))
            .numbers(&port.counts)
            .numbers(&[port.unknown])
    }
}

// The first n bytes, or all of them.
pub fn of_bytes(bytes: &[u8], n: usize) -> u64
    ensures { result < 2 ^ 32 }
{
    u64::from(Sum::NOTHING.bytes(&bytes[..n.min(bytes.len())]).0)
}

// The first n numbers, or all of them.
pub fn of_list(list: &[u64], n: usize) -> u64
    ensures { result < 2 ^ 32 }
{
    u64::from(Sum::NOTHING.numbers(&list[..n.min(list.len())]).0)
}

pub fn of_table(t: Table) -> u64
    ensures { result < 2 ^ 32 }
{
    u64::from(Sum::NOTHING.table(&t).0)
}

pub fn of_port(port: Port, whole: bool) -> u64
    ensures { result < 2 ^ 32 }
{
    u64::from(Sum::NOTHING.port(&port, whole).0)
}
