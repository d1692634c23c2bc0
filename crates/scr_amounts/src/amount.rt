//! How an amount is printed.
ghost use Rattle.std.specs.Prelude.{◌≡◌, ◌/◌, ◌%◌, ◌<◌, ◌++◌, OnOk, codes, decimal};
ghost use Rattle.scr_amounts.specs.Amounts.{amount, euros};

use itoa::Buffer;
use std::alloc::{AllocError as NoMemory, Global};

/// What 64 bits count up to.
const WORDS: u128 = 1 << 64;

/// Appends so many cents, in euros with two decimals.
#[tactic(auto, unfolding(crate::specs::Amounts::amount))]
pub fn push_amount(_alloc: Global, out: &mut Vec<u8>, cents: i128) -> Result<(), NoMemory>
    ensures { OnOk result (out.new.items ≡ out.old.items ++ amount cents) }
{
    if cents < 0 {
        push(out, "-")?;
    }
    push_euros(out, cents.unsigned_abs())
}

#[tactic(auto, unfolding(crate::specs::Amounts::euros))]
fn push_euros(out: &mut Vec<u8>, cents: u128) -> Result<(), NoMemory>
    ensures { OnOk result (out.new.items ≡ out.old.items ++ euros cents) }
{
    let mut digits = Buffer::new();
    let (whole, tens, units) = digits_of(cents);
    push(out, digits.format(whole))?;
    push_decimals(out, tens, units)
}

/// The whole euros of so many cents, and the last two digits: all from one division, which most amounts are few enough for that it takes
/// no wide number.
fn digits_of(cents: u128) -> (u128, u8, u8)
    ensures whole { result.0 ≡ cents / 100 }
    ensures tens { result.1 ≡ cents / 10 % 10 }
    ensures units { result.2 ≡ cents % 10 }
{
    if cents < WORDS {
        let few = cents as u64;
        let part = (few % 100) as u8;
        return ((few / 100) as u128, part / 10, part % 10);
    }
    let part = (cents % 100) as u8;
    (cents / 100, part / 10, part % 10)
}

/// Appends a point and two digits.
fn push_decimals(out: &mut Vec<u8>, tens: u8, units: u8) -> Result<(), NoMemory>
    requires tens { tens < 10 }
    requires units { units < 10 }
    ensures { OnOk result (out.new.items ≡ ((out.old.items ++ codes ".") ++ decimal tens) ++ decimal units) }
{
    out.extend_from_slice(&[b'.', b'0' + tens, b'0' + units])
}

fn push(out: &mut Vec<u8>, text: &str) -> Result<(), NoMemory>
    ensures { OnOk result (out.new.items ≡ out.old.items ++ text.now) }
{
    out.extend_from_slice(text.as_bytes())
}
