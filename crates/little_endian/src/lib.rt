// Internal to the product: little-endian numbers in a run of bytes.
#![tactic(auto)]

ghost use Rattle.std.specs.Prelude.{◌≡◌, ℕ, ◌+◌, ◌≤◌, length};
ghost use Rattle.model.specs.TableFile.{to_bytes, from_bytes, number_at};
ghost use Rattle.little_endian.specs.Output.{laid};

// A number of so many bytes, the lowest first.
pub trait LittleEndian {
    ghost width: { ℕ };

    ghost value: { Self → ℕ };

    // What stands behind the end counts as 0.
    fn read(s: &[u8], at: usize) -> Self
        ensures { value result ≡ number_at at width s.now };

    // A number that stands wholly before the end: no place is tested, so that it is one load.
    fn read_within(s: &[u8], at: usize) -> Self
        requires { at + width ≤ length s.now }
        ensures { value result ≡ number_at at width s.now };

    fn write(self, s: &mut [u8], at: usize)
        requires { at + width ≤ length s.old }
        ensures { s.new ≡ laid at (to_bytes width (value self)) s.old };
}

fn bytes_at<const K: usize>(s: &[u8], at: usize) -> [u8; K]
    ensures { from_bytes result ≡ number_at at K s.now }
{
    let rest = &s[at.min(s.len())..];
    if let Some(bytes) = rest.first_chunk::<K>() {
        return *bytes;
    }
    let mut bytes = [0u8; K];
    bytes[..rest.len()].copy_from_slice(rest);
    bytes
}

fn bytes_within<const K: usize>(s: &[u8], at: usize) -> [u8; K]
    requires { at + K ≤ length s.now }
    ensures { from_bytes result ≡ number_at at K s.now }
{
    let mut whole = [0u8; K];
    whole.copy_from_slice(&s[at..at + K]);
    whole
}

fn put_bytes<const K: usize>(s: &mut [u8], at: usize, bytes: [u8; K])
    requires { at + K ≤ length s.old }
    ensures { s.new ≡ laid at bytes.entry s.old }
{
    s[at..at + K].copy_from_slice(&bytes);
}

impl LittleEndian for u8 {
    ghost width = { 1 };

    ghost value = { λ x. x };

    fn read(s: &[u8], at: usize) -> u8 {
        u8::from_le_bytes(bytes_at(s, at))
    }

    fn read_within(s: &[u8], at: usize) -> u8 {
        u8::from_le_bytes(bytes_within(s, at))
    }

    fn write(self, s: &mut [u8], at: usize) {
        put_bytes(s, at, u8::to_le_bytes(self));
    }
}

impl LittleEndian for u16 {
    ghost width = { 2 };

    ghost value = { λ x. x };

    fn read(s: &[u8], at: usize) -> u16 {
        u16::from_le_bytes(bytes_at(s, at))
    }

    fn read_within(s: &[u8], at: usize) -> u16 {
        u16::from_le_bytes(bytes_within(s, at))
    }

    fn write(self, s: &mut [u8], at: usize) {
        put_bytes(s, at, u16::to_le_bytes(self));
    }
}

impl LittleEndian for u32 {
    ghost width = { 4 };

    ghost value = { λ x. x };

    fn read(s: &[u8], at: usize) -> u32 {
        u32::from_le_bytes(bytes_at(s, at))
    }

    fn read_within(s: &[u8], at: usize) -> u32 {
        u32::from_le_bytes(bytes_within(s, at))
    }

    fn write(self, s: &mut [u8], at: usize) {
        put_bytes(s, at, u32::to_le_bytes(self));
    }
}

impl LittleEndian for u64 {
    ghost width = { 8 };

    ghost value = { λ x. x };

    fn read(s: &[u8], at: usize) -> u64 {
        u64::from_le_bytes(bytes_at(s, at))
    }

    fn read_within(s: &[u8], at: usize) -> u64 {
        u64::from_le_bytes(bytes_within(s, at))
    }

    fn write(self, s: &mut [u8], at: usize) {
        put_bytes(s, at, u64::to_le_bytes(self));
    }
}
