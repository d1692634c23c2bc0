//! What a field of each form stands for.
#![tactic(auto, unfolding(crate::specs::FieldForms::name_of, crate::specs::FieldForms::currency_of, crate::specs::FieldForms::group_of, crate::specs::FieldForms::small_number, crate::specs::FieldForms::step_of, crate::specs::FieldForms::segment_of, crate::specs::FieldForms::region_of, crate::specs::FieldForms::currency_key_of, crate::specs::FieldForms::absorb_key_of))]

ghost use Rattle.std.specs.Prelude.{◌≡◌, ◌≤◌, length, IfSome, codes};
ghost use Rattle.std.specs.Char.{is_ascii_uppercase};
ghost use Rattle.std.specs.List.{list_all};
ghost use Rattle.scr_tables.specs.Names as names;
ghost use Rattle.scr_profile.specs.Segments.{segments};
ghost use Rattle.scr_sheet.specs.Forms as formed;
ghost use Rattle.scr_fields.specs.FieldForms as spec;
ghost use Rattle.scr_fields.specs.Words.{is_text};

use crate::numbers::read_number;
use crate::words::scenario;
use scr_profile::Set;
use scr_sheet::{AbsorbKey, Name};

pub fn name(text: &[u8]) -> Option<Name>
    ensures value { result ≡ spec.name_of text.now }
    ensures formed { IfSome result formed.IsName }
{
    Name::parse(text)
}

pub fn currency(text: &[u8]) -> Option<Name>
    ensures value { result ≡ spec.currency_of text.now }
    ensures formed { IfSome result formed.IsCurrency }
{
    if is_currency(text) {
        Name::parse(text)
    } else {
        None
    }
}

fn is_currency(text: &[u8]) -> bool
    ensures { result ≡ names.is_currency text.now }
{
    text.len() == 3 && are_capitals(text)
}

fn are_capitals(text: &[u8]) -> bool
    ensures { result ≡ list_all is_ascii_uppercase text.now }
{
    text.iter().all(|b| b.is_ascii_uppercase())
}

fn is_dash(text: &[u8]) -> bool
    ensures { result ≡ is_text (codes "-") text.now }
{
    text == b"-".as_slice()
}

/// A group's name, or `-`.
pub fn group(text: &[u8]) -> Option<Option<Name>>
    ensures value { result ≡ spec.group_of text.now }
    ensures formed { IfSome result formed.IsNameOrNone }
{
    if is_dash(text) {
        Some(None)
    } else {
        name(text).map(Some)
    }
}

/// A number from `low` to `high`.
fn small_number(text: &[u8], low: u8, high: u8) -> Option<u8>
    ensures value { result ≡ spec.small_number low high text.now }
    ensures low { IfSome result (λ n. low ≤ n) }
    ensures high { IfSome result (λ n. n ≤ high) }
{
    let value = read_number(text)?;
    if i64::from(low) <= value && value <= i64::from(high) {
        Some(value as u8)
    } else {
        None
    }
}

/// A credit quality step, or `-`.
pub fn step(text: &[u8]) -> Option<Option<u8>>
    ensures value { result ≡ spec.step_of text.now }
    ensures formed { IfSome result formed.IsStepOrNone }
{
    if is_dash(text) {
        Some(None)
    } else {
        small_number(text, 0, 6).map(Some)
    }
}

/// The number of a segment of the set.
pub fn segment(text: &[u8], set: Set) -> Option<u8>
    ensures value { result ≡ spec.segment_of set text.now }
    ensures low { IfSome result (λ n. 1 ≤ n) }
    ensures high { IfSome result (λ n. n ≤ segments set) }
{
    match set {
        Set::Nl => small_number(text, 1, 12),
        Set::Nslt => small_number(text, 1, 4),
    }
}

/// The number of a region.
pub fn region(text: &[u8]) -> Option<u8>
    ensures value { result ≡ spec.region_of text.now }
    ensures low { IfSome result (λ n. 1 ≤ n) }
    ensures high { IfSome result (λ n. n ≤ 18) }
{
    small_number(text, 1, 18)
}

/// A scenario whose loss may be absorbed.
pub fn absorb_key(text: &[u8]) -> Option<AbsorbKey>
    ensures value { result ≡ spec.absorb_key_of text.now }
    ensures formed { IfSome result formed.IsAbsorbKey }
{
    match scenario(text) {
        Some(key) => Some(key),
        None => currency_key(text),
    }
}

/// `currency.CUR.up` or `currency.CUR.down`.
fn currency_key(text: &[u8]) -> Option<AbsorbKey>
    ensures value { result ≡ spec.currency_key_of text.now }
    ensures formed { IfSome result formed.IsAbsorbKey }
{
    let rest = text.strip_prefix(b"currency.")?;
    if rest.len() < 3 {
        return None;
    }
    let currency = currency(&rest[..3])?;
    turn(currency, &rest[3..])
}

/// What the currency rises or falls to.
fn turn(currency: Name, text: &[u8]) -> Option<AbsorbKey>
    requires { formed.IsCurrency currency }
    ensures value { result ≡ spec.turn_of currency text.now }
    ensures formed { IfSome result formed.IsAbsorbKey }
{
    if text == b".up".as_slice() {
        Some(AbsorbKey::CurrencyUp(currency))
    } else if text == b".down".as_slice() {
        Some(AbsorbKey::CurrencyDown(currency))
    } else {
        None
    }
}
