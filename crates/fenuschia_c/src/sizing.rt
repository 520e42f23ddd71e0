// Bounds, holds, windows and sizes of a table file, as numbers.
ghost use Rattle.std.specs.Prelude.{◌≡◌, ◌+◌, ◌≤◌, length};
ghost use Rattle.model.specs.Batch.{bytes_of};
ghost use Rattle.little_endian.specs.Output.{laid};
ghost use Rattle.refusal.specs.Numbers.{number_or_0};
ghost use Rattle.fenuschia_c.specs.Sized.{sizing_file, Sized};

use little_endian::LittleEndian;
use refusal::{Refusal, number_or_0};

fn put_eight(out: &mut [u8], at: usize, numbers: [u32; 8])
    requires { at + 64 ≤ length out.old }
    ensures { out.new ≡ laid at (bytes_of numbers) out.old }
{
    for p in 0..8 {
        u64::from(numbers[p]).write(out, at + 8 * p);
    }
}

fn put_sizing(file: &[u8], out: &mut [u8]) -> Result<(), Refusal>
    ensures { Sized (sizing_file file.now out.old) (number_or_0 result) out.new }
{
    let t = table_file::read(file)?;
    let b = bounds::bounds_of(t)?;
    if out.len() < 256 {
        return Err(Refusal::OutputTooShort);
    }
    put_eight(out, 0, b.bounds);
    put_eight(out, 64, b.holds);
    put_eight(out, 128, b.windows);
    put_eight(out, 192, t.sizes);
    Ok(())
}

// Writes 32 numbers to the output: eight bounds, eight holds, eight windows, eight sizes, priority 0 first; what is behind them stays.
// Answers 0, or 1 to 7 or 23 of the reader, 8 if the table has no bounds, 9 if the output is shorter, and then writes to no byte.
pub fn fenuschia_sizing(file: &[u8], out: &mut [u8]) -> u32
    ensures { Sized (sizing_file file.now out.old) result out.new }
{
    number_or_0(put_sizing(file, out))
}
