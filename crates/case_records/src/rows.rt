// What is printed of a case. The functions that say it answer how much they handed to the write, and pass over a write that fails; those
// that print it answer that the write failed. Both try all that there is.
ghost use Rattle.std.specs.Prelude.{◌≡◌, ◌/◌, min, length, IfOk};
ghost use Rattle.io.specs.Digits.{IsDigitCount};

use std::io::{Print, Result};

pub fn say(rt: &HostRuntime, text: &[u8]) -> usize
    ensures { result ≡ length text.now }
{
    let _ = rt.write_all(text);
    text.len()
}

pub fn print(rt: &HostRuntime, n: u64) -> usize
    ensures { IsDigitCount 10 1 n result }
{
    let mut digits = [0u8; 20];
    let k = io::decimal(n, &mut digits);
    say(rt, &digits[..k])
}

// The same behind a blank.
pub fn number(rt: &HostRuntime, n: u64) -> usize
    ensures { IsDigitCount 10 1 n result }
{
    say(rt, b" ");
    print(rt, n)
}

// Three numbers of the list in a row: so many rows, or all that there are; answers how many.
pub fn say_rows(rt: &HostRuntime, list: &[u64], many: usize) -> usize
    ensures { result ≡ min many (length list.now / 3) }
{
    let _ = print_rows(rt, list, many);
    many.min(list.len() / 3)
}

// The same; an error where a row could not be printed.
pub fn print_rows(rt: &HostRuntime, list: &[u64], many: usize) -> Result<usize>
    ensures { IfOk result (λ n. n ≡ min many (length list.now / 3)) }
{
    let n = many.min(list.len() / 3);
    let mut printed = Ok(());
    for i in 0..n {
        printed = printed.and(println!(rt;
            "{} {} {}",
            list[3 * i],
            list[3 * i + 1],
            list[3 * i + 2]
        ));
    }
    printed?;
    Ok(n)
}
