//! The reading of a factor file.

ghost use Rattle.std.specs.Prelude.{◌≡◌, option_map};
ghost use Rattle.toml.specs.Data.{get_member};
ghost use Rattle.toml.specs.View.{view, table_view};
ghost use Rattle.scr_factors.specs.Forms as form;
ghost use Rattle.scr_factors.specs.Keys as keys;
ghost use Rattle.scr_factors.specs.Reading as spec;
ghost use Rattle.scr_factors.specs.Reading.{spread_keys, values_in, Answers};

use crate::segments::{first_asymmetry, matrix_of};
use crate::{FactorFault, Factors, Key, forms};
use std::alloc::Global;
use toml::{Table, Value};

// The greatest number that a row may hold.
const LARGEST: u32 = 1_000_000;

fn member<'a>(table: &'a Table, name: &str) -> Option<&'a Value>
    ensures { option_map (λ v. view v.now) result ≡ get_member name.now (table_view table.now) }
{
    table.get(name)
}

fn value_at<'a>(document: &'a Table, key: Key) -> Option<&'a Value>
    ensures { option_map (λ v. view v.now) result ≡ keys.value_at key (table_view document.now) }
{
    match key.table() {
        None => member(document, key.name()),
        Some(table) => member(member(document, table)?.as_table()?, key.name()),
    }
}

fn numbers<const N: usize>(document: &Table, key: Key) -> Result<[u32; N], FactorFault>
    ensures { result ≡ spec.numbers N key (table_view document.now) }
{
    let value = value_at(document, key).ok_or(FactorFault::Missing(key))?;
    forms::numbers(value, LARGEST).ok_or(FactorFault::BadValue(key))
}

fn form(document: &Table) -> Result<u32, FactorFault>
    ensures { result ≡ spec.taken form.one Key.Form (table_view document.now) }
{
    let value = value_at(document, Key::Form).ok_or(FactorFault::Missing(Key::Form))?;
    forms::one(value).ok_or(FactorFault::BadValue(Key::Form))
}

fn correlation_rows(document: &Table) -> Result<[[u32; 12]; 12], FactorFault>
    ensures { result ≡ spec.taken form.correlation_rows Key.NlCorr (table_view document.now) }
{
    let value = value_at(document, Key::NlCorr).ok_or(FactorFault::Missing(Key::NlCorr))?;
    forms::correlation_rows(value).ok_or(FactorFault::BadValue(Key::NlCorr))
}

fn spread_rows(document: &Table) -> Result<[[u32; 10]; 8], FactorFault>
    ensures { result ≡ spec.rows spread_keys (table_view document.now) }
{
    Ok([
        numbers(document, Key::SpreadS0)?,
        numbers(document, Key::SpreadS1)?,
        numbers(document, Key::SpreadS2)?,
        numbers(document, Key::SpreadS3)?,
        numbers(document, Key::SpreadS4)?,
        numbers(document, Key::SpreadS5)?,
        numbers(document, Key::SpreadS6)?,
        numbers(document, Key::SpreadNone)?,
    ])
}

fn values_of(document: &Table) -> Result<Factors, FactorFault>
    ensures { result ≡ spec.values_of (table_view document.now) }
{
    form(document)?;
    let spread = spread_rows(document)?;
    let nl_premium = numbers(document, Key::NlPremium)?;
    let nl_reserve = numbers(document, Key::NlReserve)?;
    let rows = correlation_rows(document)?;
    let nslt_premium = numbers(document, Key::NsltPremium)?;
    let nslt_reserve = numbers(document, Key::NsltReserve)?;
    if let Some((i, j)) = first_asymmetry(&rows) {
        return Err(FactorFault::NotSymmetric(i as u8 + 1, j as u8 + 1));
    }
    Ok(Factors {
        spread,
        nl_premium,
        nl_reserve,
        correlations: matrix_of(&rows),
        nslt_premium,
        nslt_reserve,
    })
}

/// The numbers of a factor file, which is TOML with these keys. `form` is 1. `spread.s0` to
/// `spread.s6` and `spread.none` are ten numbers each, `nl.premium` and `nl.reserve` twelve, and
/// `nslt.premium` and `nslt.reserve` four: whole numbers from 0 to 1,000,000. `nl.corr` is twelve
/// rows of twelve whole numbers from 0 to 100, symmetric and with 100 on the diagonal.
///
/// The keys are read in the order of `Key`, and the first fault is told; `NotSymmetric` comes last.
/// Other keys are passed over. Want of memory may be told in place of any answer.
pub fn read_factors(alloc: Global, bytes: &[u8]) -> Result<Factors, FactorFault>
    ensures { Answers (values_in bytes.now) result }
{
    match toml::table_from_slice(alloc, bytes) {
        Ok(document) => values_of(&document),
        Err(error) if error.is_memory() => Err(FactorFault::NoMemory),
        Err(_) => Err(FactorFault::NotToml),
    }
}
