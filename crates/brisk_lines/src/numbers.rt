//! Numbers, read where their whole text stands.
ghost use Rattle.std.specs.Prelude.{◌≡◌, ◌<◌, ◌^◌, ℕ, ℤ, Some, FitsSigned};
ghost use Rattle.std.specs.Int.{w64};
ghost use Rattle.std.specs.Fmt.{decimal, signed_decimal};
ghost use Rattle.brisk_lines.specs.Lines.{Reads, IsShort};

use itoa::Buffer;
use std::str::from_utf8;

fn parsed_number(bytes: &[u8]) -> Option<u64>
    ensures { (n : ℕ) → n < 2 ^ 64 → bytes.now ≡ decimal n → result ≡ Some n }
{
    from_utf8(bytes).ok()?.parse().ok()
}

fn parsed_integer(bytes: &[u8]) -> Option<i64>
    ensures { (n : ℤ) → FitsSigned w64 n → bytes.now ≡ signed_decimal n → result ≡ Some n }
{
    from_utf8(bytes).ok()?.parse().ok()
}

pub fn number_in(bytes: &[u8]) -> Option<u64>
    ensures { Reads decimal (λ n. n < 2 ^ 64) bytes.now result }
{
    let number = parsed_number(bytes)?;
    if Buffer::new().format(number).as_bytes() == bytes {
        Some(number)
    } else {
        None
    }
}

pub fn integer_in(bytes: &[u8]) -> Option<i64>
    ensures { Reads signed_decimal (FitsSigned w64) bytes.now result }
{
    let number = parsed_integer(bytes)?;
    if Buffer::new().format(number).as_bytes() == bytes {
        Some(number)
    } else {
        None
    }
}

pub fn short_in(bytes: &[u8]) -> Option<u32>
    ensures { Reads decimal IsShort bytes.now result }
{
    let number = number_in(bytes)?;
    u32::try_from(number).ok()
}
