//! Numbers as they are printed.
ghost use Rattle.pdq_value.specs.Appending.{AppendsPart};
ghost use Rattle.pdq_value.specs.Numbers.{BadNumbersAreRefused, LargeNumbersAreRefused, NumberTextsAreRead, NumberTextsReadBack, NumberTextsSayNumbers, PrintedNumbersSayThemselves, decimals_text, last_digits, number_text, sign_text};
ghost use Rattle.std.specs.Prelude.{◌≡◌, ◌≤◌, ◌++◌, OnErr, OnOk, decimal};

use crate::appending::append;
use itoa::Buffer;
use pdq_base::Memory;

/// Appends a number in units of the last of `scale` decimal places: `-` where it is negative, the whole part without
/// leading zeros, and where the scale is not 0 `.` and exactly that many digits.
///
/// # Errors
/// `Memory` where it is wanting; then a beginning of the text is appended.
pub fn print_number(unscaled: i128, scale: u32, to: &mut Vec<u8>) -> Result<(), Memory>
    requires { scale ≤ 8 }
    ensures text { OnOk result (to.new.items ≡ to.old.items ++ number_text unscaled scale) }
    ensures part { OnErr result (AppendsPart to.old.items to.new.items (number_text unscaled scale)) }
{
    print_sign(unscaled, to)?;
    let magnitude = unscaled.unsigned_abs();
    print_whole(magnitude / 10u128.pow(scale), to)?;
    print_decimals(magnitude, scale, to)
}

fn print_sign(number: i128, to: &mut Vec<u8>) -> Result<(), Memory>
    ensures text { OnOk result (to.new.items ≡ to.old.items ++ sign_text number) }
    ensures part { OnErr result (AppendsPart to.old.items to.new.items (sign_text number)) }
{
    if number < 0 { append(to, b"-") } else { Ok(()) }
}

fn print_whole(number: u128, to: &mut Vec<u8>) -> Result<(), Memory>
    ensures text { OnOk result (to.new.items ≡ to.old.items ++ decimal number) }
    ensures part { OnErr result (AppendsPart to.old.items to.new.items (decimal number)) }
{
    append(to, Buffer::new().format(number).as_bytes())
}

fn print_decimals(magnitude: u128, scale: u32, to: &mut Vec<u8>) -> Result<(), Memory>
    ensures text { OnOk result (to.new.items ≡ to.old.items ++ decimals_text magnitude scale) }
    ensures part { OnErr result (AppendsPart to.old.items to.new.items (decimals_text magnitude scale)) }
{
    if scale == 0 {
        return Ok(());
    }
    append(to, b".")?;
    print_last_digits(magnitude, scale, to)
}

fn print_last_digits(number: u128, count: u32, to: &mut Vec<u8>) -> Result<(), Memory>
    ensures text { OnOk result (to.new.items ≡ to.old.items ++ last_digits count number) }
    ensures part { OnErr result (AppendsPart to.old.items to.new.items (last_digits count number)) }
{
    if count == 0 {
        return Ok(());
    }
    print_last_digits(number / 10, count - 1, to)?;
    append(to, &[b'0' + (number % 10) as u8])
}

/// A text is read as a value exactly where it says a number below 10^18 in magnitude, is too large exactly where it says another
/// number, and else is bad at the first place from which on no bytes behind it make it a number text. What is printed of a value is
/// read back as the value, and what is printed of a sum says the sum.
pub fn number_texts_read_back()
    ensures reading { NumberTextsAreRead }
    ensures large { LargeNumbersAreRefused }
    ensures bad { BadNumbersAreRefused }
    ensures round_trip { NumberTextsReadBack }
    ensures saying { NumberTextsSayNumbers }
    ensures wide { PrintedNumbersSayThemselves }
{}
