//! How numbers are read and written.
ghost use Rattle.std.specs.Prelude.{◌≡◌, ℕ, ◌++◌, ◌^◌, ◌<◌, ◌≤◌, length, map, slice_index, take, IfSome, OnOk, unsigned_abs, true};
ghost use Rattle.std.specs.Char.{is_ascii_digit};
ghost use Rattle.std.specs.List.{list_all, take_while};
ghost use Rattle.std.specs.Simd.Lanes.{mask_l};
ghost use Rattle.scr_fields.specs.Numbers as spelled;
ghost use Rattle.scr_fields.specs.Texts.{number_text};

use std::alloc::{AllocError as NoMemory, Global};
use std::simd::prelude::*;

/// The most digits of a number.
const MAX_DIGITS: usize = 18;

/// The number that the text spells: an optional `-` and 1 to 18 digits. None where the text has
/// another form.
pub fn read_number(text: &[u8]) -> Option<i64>
    ensures value { result ≡ spelled.number_value text.now }
    ensures small { IfSome result (λ z. unsigned_abs z < 10 ^ 18) }
{
    match text.strip_prefix(b"-") {
        Some(digits) => read_digits(digits).map(|value| -(value as i64)),
        None => read_digits(text).map(|value| value as i64),
    }
}

/// What 1 to 18 digits stand for.
fn read_digits(digits: &[u8]) -> Option<u64>
    ensures value { result ≡ spelled.digits_value digits.now }
    ensures small { IfSome result (λ n. n < 10 ^ 18) }
{
    if are_digits(digits) {
        Some(decimal_value(digits))
    } else {
        None
    }
}

fn are_digits(text: &[u8]) -> bool
    ensures { result ≡ spelled.are_digits text.now }
{
    1 <= text.len() && text.len() <= MAX_DIGITS && all_digits(text)
}

fn all_digits(text: &[u8]) -> bool
    ensures { result ≡ list_all is_ascii_digit text.now }
{
    text.iter().all(|b| b.is_ascii_digit())
}

/// What at most 18 digits stand for, of which the first counts most.
fn decimal_value(digits: &[u8]) -> u64
    requires few { length digits.now ≤ 18 }
    requires digits { list_all is_ascii_digit digits.now ≡ true }
    ensures value { result ≡ spelled.decimal_value digits.now }
    ensures small { result < 10 ^ 18 }
{
    let mut value = 0;
    for digit in digits {
        value = value * 10 + u64::from(*digit - b'0');
    }
    value
}

/// The number that the digits in front of a text spell, 18 of them at most, and how many they are.
/// None where the text begins with no digit.
pub fn leading_number(text: &[u8]) -> Option<(i64, usize)>
    ensures value { result ≡ spelled.leading_number text.now }
    ensures small { IfSome result (λ read. unsigned_abs read.0 < 10 ^ 18) }
{
    let front = &text[..text.len().min(MAX_DIGITS)];
    let (value, count) = leading_digits(front);
    if count == 0 {
        None
    } else {
        Some((value as i64, count))
    }
}

/// What the digits in front of a text of at most 18 bytes stand for, and how many they are.
fn leading_digits(text: &[u8]) -> (u64, usize)
    requires few { length text.now ≤ 18 }
    ensures value { result.0 ≡ spelled.decimal_value (take_while is_ascii_digit text.now) }
    ensures small { result.0 < 10 ^ 18 }
    ensures count { result.1 ≡ length (take_while is_ascii_digit text.now) }
{
    let (mut value, mut count) = front_digits(text);
    'digits: while count < text.len() && text[count].is_ascii_digit() {
        value = value * 10 + u64::from(text[count] - b'0');
        count += 1;
    }
    (value, count)
}

/// What the first eight bytes stand for, or the first four, and how many they are, where all are digits: so many are tested
/// and reckoned together. None are read else.
#[tactic(auto, using(crate::proofs::DigitGroups::all_eight, crate::proofs::DigitGroups::all_four, crate::proofs::DigitGroups::digit_in_front))]
#[inline(always)]
fn front_digits(text: &[u8]) -> (u64, usize)
    ensures within { result.1 ≤ length text.now }
    ensures value { result.0 ≡ spelled.decimal_value (take result.1 text.now) }
    ensures small { result.0 < 10 ^ result.1 }
    ensures digits { (k : ℕ) → k < result.1 → is_ascii_digit (slice_index text.now k) ≡ true }
{
    if text.len() < 8 {
        return (0, 0);
    }
    let mask = digits(u8x8::from_slice(text));
    if mask == 255 {
        (eight_value(text), 8)
    } else if mask % 16 == 15 {
        (four_value(text), 4)
    } else {
        (0, 0)
    }
}

// A bit for each lane that has a digit.
#[inline(always)]
fn digits(lanes: u8x8) -> u64
    ensures { result ≡ mask_l (map is_ascii_digit lanes) }
{
    (lanes - u8x8::splat(b'0'))
        .simd_lt(u8x8::splat(10))
        .to_bitmask()
}

// What the first eight bytes stand for, which are digits.
#[tactic(auto, using(crate::proofs::DigitGroups::first_half, crate::proofs::DigitGroups::second_half, crate::proofs::DigitGroups::eight_is))]
#[inline(always)]
fn eight_value(text: &[u8]) -> u64
    requires within { 8 ≤ length text.now }
    requires digits { list_all is_ascii_digit (take 8 text.now) ≡ true }
    ensures value { result ≡ spelled.decimal_value (take 8 text.now) }
    ensures small { result < 10 ^ 8 }
{
    four_value(text) * 10_000 + four_value(&text[4..])
}

// What the first four bytes stand for, which are digits.
#[tactic(auto, using(crate::proofs::DigitGroups::four_read))]
#[inline(always)]
fn four_value(text: &[u8]) -> u64
    requires within { 4 ≤ length text.now }
    requires digits { list_all is_ascii_digit (take 4 text.now) ≡ true }
    ensures value { result ≡ spelled.decimal_value (take 4 text.now) }
    ensures small { result < 10 ^ 4 }
{
    let codes = u64::from(text[0]) * 1000
        + u64::from(text[1]) * 100
        + u64::from(text[2]) * 10
        + u64::from(text[3]);
    // The code of `0`, in each place.
    codes - 48 * 1111
}

/// Appends the number without leading zeros.
pub fn push_number(alloc: Global, number: i64, out: &mut Vec<u8>) -> Result<(), NoMemory>
    ensures { OnOk result (out.new.items ≡ out.old.items ++ number_text number) }
{
    let digits = format!(in alloc; "{number}")?;
    out.extend_from_slice(digits.as_bytes())
}
