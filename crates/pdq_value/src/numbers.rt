//! Number texts and averages.
ghost use Rattle.pdq_value.specs.Numbers.{bad_place, decimals_of, digits_end, good_decimals, is_negative, magnitude_of, number_after, number_read, whole_begin};
ghost use Rattle.std.specs.Prelude.{◌≡◌, ◌+◌, ◌++◌, ◌-◌, ◌*◌, ◌^◌, ◌<◌, ◌≤◌, IfSome, drop, length, min, replicate, take};

/// Numbers of a table are below this in magnitude, in units of their last decimal place.
const MAGNITUDE_LIMIT: u64 = 1_000_000_000_000_000_000;

/// Why a text is not read as a number.
#[derive(Clone, Copy, Debug, PartialEq, Eq)]
pub enum NumberFault {
    /// The byte at this place, from 0, breaks the rules, or the text of this length ends too early.
    BadNumber { place: u32 },
    /// Its magnitude at the scale is 10^18 or more.
    TooLarge,
}

/// The number that a text says, in units of the last of `scale` decimal places.
///
/// # Errors
/// `BadNumber` where it is no number text of the scale, else `TooLarge` from 10^18 on.
pub fn read_number(text: &[u8], scale: u32) -> Result<i64, NumberFault>
    requires scale { scale ≤ 6 }
    requires size { length text.now < 4294967295 }
    ensures value { result ≡ number_read text.now scale }
{
    if let Some(place) = first_bad_place(text, scale) {
        return Err(NumberFault::BadNumber {
            place: place as u32,
        });
    }
    let size = magnitude(text, scale);
    if size >= MAGNITUDE_LIMIT {
        return Err(NumberFault::TooLarge);
    }
    let number = size as i64;
    Ok(if has_minus_sign(text) {
        -number
    } else {
        number
    })
}

fn has_minus_sign(text: &[u8]) -> bool
    ensures value { result ≡ is_negative text.now }
{
    !text.is_empty() && text[0] == b'-'
}

fn begin_of_whole(text: &[u8]) -> usize
    ensures value { result ≡ whole_begin text.now }
    ensures within { result ≤ length text.now }
{
    if has_minus_sign(text) { 1 } else { 0 }
}

/// Where the digits from this place on end.
fn end_of_digits(text: &[u8], start: usize) -> usize
    requires { start ≤ length text.now }
    ensures value { result ≡ digits_end text.now start }
    ensures within { result ≤ length text.now }
{
    for i in start..text.len() {
        if !text[i].is_ascii_digit() {
            return i;
        }
    }
    text.len()
}

/// How many decimals are as they must be.
fn good_decimal_count(decimals: &[u8], scale: u32) -> usize
    ensures value { result ≡ good_decimals scale decimals.now }
    ensures within { result ≤ length decimals.now }
{
    for (i, byte) in decimals.iter().enumerate() {
        let good = if i < scale as usize {
            byte.is_ascii_digit()
        } else {
            *byte == b'0'
        };
        if !good {
            return i;
        }
    }
    decimals.len()
}

fn first_bad_place(text: &[u8], scale: u32) -> Option<usize>
    ensures value { result ≡ bad_place scale text.now }
    ensures within { IfSome result (λ place. place ≤ length text.now) }
{
    let begin = begin_of_whole(text);
    let end = end_of_digits(text, begin);
    if end == begin {
        return Some(end);
    }
    if end == text.len() {
        return None;
    }
    if text[end] != b'.' {
        return Some(end);
    }
    let good = good_decimal_count(&text[end + 1..], scale);
    let stop = end + 1 + good;
    if good > 0 && stop == text.len() {
        None
    } else {
        Some(stop)
    }
}

/// The number that goes on with a digit, or the limit where it is no less.
fn with_digit(number: u64, digit: u8) -> u64
    requires { number ≤ 10 ^ 18 }
    ensures value { result ≡ min (10 * number + (digit - 48)) (10 ^ 18) }
{
    (10 * number + u64::from(digit.saturating_sub(b'0'))).min(MAGNITUDE_LIMIT)
}

/// The number that goes on with these digits, or the limit where it is no less.
fn with_digits(number: u64, digits: &[u8]) -> u64
    requires { number ≤ 10 ^ 18 }
    ensures value { result ≡ min (number_after number digits.now) (10 ^ 18) }
{
    let mut grown = number;
    for digit in digits {
        grown = with_digit(grown, *digit);
    }
    grown
}

/// The number that goes on with as many decimals as the scale has, or the limit where it is no less.
fn with_decimals(number: u64, decimals: &[u8], scale: u32) -> u64
    requires { number ≤ 10 ^ 18 }
    ensures value { result
        ≡ min (number_after number (take scale (decimals.now ++ replicate scale 48))) (10 ^ 18) }
{
    let mut grown = number;
    for i in 0..scale as usize {
        let digit = if i < decimals.len() {
            decimals[i]
        } else {
            b'0'
        };
        grown = with_digit(grown, digit);
    }
    grown
}

/// The magnitude of a number text, or the limit where it is no less.
fn magnitude(text: &[u8], scale: u32) -> u64
    ensures value { result ≡ min (magnitude_of scale text.now) (10 ^ 18) }
{
    let begin = begin_of_whole(text);
    let end = end_of_digits(text, begin);
    let whole = with_digits(0, &text[begin..end]);
    let decimals = if end < text.len() {
        &text[end + 1..]
    } else {
        &[]
    };
    with_decimals(whole, decimals, scale)
}
