// The bytes of a case, read in order. What is behind their end counts as 0.
ghost use Rattle.std.specs.Prelude.{◌≡◌, ◌+◌, ◌*◌, ℕ, min, drop};
ghost use Rattle.model.specs.TableFile.{number_at};

use little_endian::LittleEndian;

// A number of a case.
pub trait Field: LittleEndian {
    // How many bytes it has.
    fn size() -> usize
        ensures { result ≡ Self.width };
}

impl Field for u8 {
    fn size() -> usize {
        1
    }
}

impl Field for u16 {
    fn size() -> usize {
        2
    }
}

impl Field for u32 {
    fn size() -> usize {
        4
    }
}

impl Field for u64 {
    fn size() -> usize {
        8
    }
}

#[derive(Drop)]
pub struct Reader<'a> {
    pub rest: &'a [u8],
}

impl Reader<'_> {
    pub fn number<T: Field>(&mut self) -> T
        ensures value { T.value result ≡ number_at 0 T.width self.old.rest.now }
        ensures rest { self.new.rest.now ≡ drop T.width self.old.rest.now }
    {
        let number = T::read(self.rest, 0);
        self.rest = &self.rest[T::size().min(self.rest.len())..];
        number
    }

    // An array stands there as its last entry, how many are given, and these; those that are not given are like the last.
    // Where each entry takes w bytes, all of them take as many as the clause says.
    pub fn array<T: Copy, const N: usize, F: Fn(&mut Reader<'_>) -> T>(
        &mut self,
        entry: F,
    ) -> [T; N]
        requires { F.IsAlwaysCallable entry }
        ensures { (w : ℕ) → ((x : _) (e : T) (y : _) → F.post entry x e y → y.now.rest.now ≡ drop w x.now.rest.now) → self.new.rest.now ≡ drop (w + 2 + w * min (number_at w 2 self.old.rest.now) N) self.old.rest.now }
    {
        let last = entry(self);
        let given: u16 = self.number();
        let mut all = [last; N];
        let n = usize::from(given).min(N);
        for x in &mut all[..n] {
            *x = entry(self);
        }
        all
    }
}
