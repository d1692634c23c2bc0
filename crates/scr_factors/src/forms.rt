//! The forms that the values of a factor file have.

ghost use Rattle.std.specs.Prelude.{◌≡◌};
ghost use Rattle.toml.specs.View.{view};
ghost use Rattle.scr_factors.specs.Forms as spec;

use toml::Value;

// The whole number from 0 to the limit that a value is.
pub(crate) fn whole_number(value: &Value, limit: u32) -> Option<u32>
    ensures { result ≡ spec.whole_number limit (view value.now) }
{
    let number = u32::try_from(value.as_integer()?).ok()?;
    if number > limit {
        return None;
    }
    Some(number)
}

// The number 1, if a value is that.
pub(crate) fn one(value: &Value) -> Option<u32>
    ensures { result ≡ spec.one (view value.now) }
{
    let number = whole_number(value, 1)?;
    if number != 1 {
        return None;
    }
    Some(number)
}

// The list of N such numbers that a value is.
pub(crate) fn numbers<const N: usize>(value: &Value, limit: u32) -> Option<[u32; N]>
    ensures { result ≡ spec.list_of N (spec.whole_number limit) (view value.now) }
{
    let items = value.as_array()?.as_slice();
    if items.len() != N {
        return None;
    }
    let mut found = [0; N];
    for i in 0..N {
        found[i] = whole_number(&items[i], limit)?;
    }
    Some(found)
}

// The twelve rows of hundredths from 0 to 100, with 100 on the diagonal, that a value is.
pub(crate) fn correlation_rows(value: &Value) -> Option<[[u32; 12]; 12]>
    ensures { result ≡ spec.correlation_rows (view value.now) }
{
    let rows = number_rows(value)?;
    if !has_unit_diagonal(&rows) {
        return None;
    }
    Some(rows)
}

fn number_rows(value: &Value) -> Option<[[u32; 12]; 12]>
    ensures { result ≡ spec.list_of 12 (spec.list_of 12 (spec.whole_number 100)) (view value.now) }
{
    let items = value.as_array()?.as_slice();
    if items.len() != 12 {
        return None;
    }
    let mut found = [[0; 12]; 12];
    for i in 0..12 {
        found[i] = numbers(&items[i], 100)?;
    }
    Some(found)
}

fn has_unit_diagonal(rows: &[[u32; 12]; 12]) -> bool
    ensures { result ≡ spec.has_unit_diagonal rows.now }
{
    (0..12).all(|i| rows[i][i] == 100)
}
