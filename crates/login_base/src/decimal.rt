// Numbers in digits at the end of a text.

ghost use Rattle.std.specs.Prelude.{◌≡◌, ◌+◌, ◌≤◌, ◌++◌, OnOk, length, vec_len, vec_capacity};
ghost use Rattle.std.specs.Fmt.{decimal};

use crate::memory::NoMemory;

/// A number of 64 bits has at most so many digits in decimal.
const MOST_DIGITS: usize = 20;

/// Puts a number in digits at the end, without memory.
#[tactic(auto, using(crate::proofs::Decimals::of_digits))]
pub fn push_decimal(out: &mut Vec<u8>, number: u64)
    requires { vec_len out.old + length (decimal number) ≤ vec_capacity out.old }
    ensures items { out.new.items ≡ out.old.items ++ decimal number }
    ensures len { vec_len out.new ≡ vec_len out.old + length (decimal number) }
    ensures capacity { vec_capacity out.new ≡ vec_capacity out.old }
{
    if number < 10 {
        out.push_reserved(b'0' + number as u8);
        return;
    }
    push_decimal(out, number / 10);
    out.push_reserved(b'0' + (number % 10) as u8);
}

/// Puts a number in digits at the end. Its digits take no memory of their own.
pub fn append_decimal(out: &mut Vec<u8>, number: u64) -> Result<(), NoMemory>
    ensures { OnOk result (out.new.items ≡ out.old.items ++ decimal number) }
{
    out.reserve(MOST_DIGITS)?;
    push_decimal(out, number);
    Ok(())
}
