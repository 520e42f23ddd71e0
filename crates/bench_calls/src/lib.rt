// Calls that bench/ times: on byte slices and numbers.
#![tactic(auto)]

ghost use Rattle.std.specs.Prelude.{◌≡◌, ◌≤◌, ◌*◌, length, sum};
ghost use Rattle.std.specs.Result.{result_unwrap_or};
ghost use Rattle.model.specs.TableFile.{read_table};
ghost use Rattle.model.specs.JitterMargin.{margin};
ghost use Rattle.model.specs.OverloadCore.{core};
ghost use Rattle.model.specs.Sheet.{sheet};
ghost use Rattle.bench_calls.specs.Sums.{sizing_sum};

use refusal::Refusal;

fn sum_of(a: &[u32]) -> u64
    requires { length a.now ≤ 8 }
    ensures { (result ≡ sum a.now) × (result ≤ 4294967295 * 8) }
{
    a.iter().map(|&n| u64::from(n)).sum()
}

fn sizing(file: &[u8]) -> Result<u64, Refusal>
    ensures { result_unwrap_or result 0 ≡ sizing_sum (read_table file.now).table }
{
    let t = table_file::read(file)?;
    let s = bounds::bounds_of(t)?;
    Ok(sum_of(&s.bounds) + sum_of(&s.holds) + sum_of(&s.windows))
}

// The sum of the bounds, holds and windows of the table of a file; 0 with a refusal.
#[unsafe(no_mangle)]
pub extern "C" fn bench_sizing(file: &[u8]) -> u64
    ensures { result ≡ sizing_sum (read_table file.now).table }
{
    sizing(file).unwrap_or(0)
}

// The sum of the bytes of the sheet of a file.
#[unsafe(no_mangle)]
pub extern "C" fn bench_sheet(file: &[u8]) -> u64
    ensures { result ≡ sum (sheet file.now) }
{
    let text = sheet_text::text_of(file);
    byte_sum(text.as_str().as_bytes())
}

fn byte_sum(bytes: &[u8]) -> u64
    requires { length bytes.now ≤ 619 }
    ensures { result ≡ sum bytes.now }
{
    bytes.iter().map(|&b| u64::from(b)).sum()
}

fn jitter(file: &[u8], number: u64) -> Result<u32, Refusal>
    ensures { result_unwrap_or result 0 ≡ (margin (read_table file.now).table number).jitter }
{
    let t = table_file::read(file)?;
    jitter_margin::jitter_left(t, number)
}

// The jitter that is left to the link of that number in the table of a file; 0 with a refusal.
#[unsafe(no_mangle)]
pub extern "C" fn bench_jitter(file: &[u8], number: u64) -> u64
    ensures { result ≡ (margin (read_table file.now).table number).jitter }
{
    u64::from(jitter(file, number).unwrap_or(0))
}

fn kept(file: &[u8]) -> Result<u16, Refusal>
    ensures { result_unwrap_or result 0 ≡ length (core (read_table file.now).table).table.links }
{
    let t = table_file::read(file)?;
    let c = overload_core::core_of(t)?;
    Ok(c.count)
}

// How many links of the table of a file remain, tried for removal while the table has no bounds; 0 with a refusal.
#[unsafe(no_mangle)]
pub extern "C" fn bench_core(file: &[u8]) -> u64
    ensures { result ≡ length (core (read_table file.now).table).table.links }
{
    u64::from(kept(file).unwrap_or(0))
}
