//! What figures read of other rows than their own.
ghost use Rattle.std.specs.Prelude.{◌≡◌, None};
ghost use Rattle.std.specs.Option.{option_map_or};
ghost use Rattle.scr_nodes.specs.Rows.{rates_of, step_of_group};

use scr_sheet::{BalanceSheet, Name};

/// The rates of a currency, none where it has no curve.
pub(crate) fn rates_of<'a>(sheet: &'a BalanceSheet, currency: &Name) -> &'a [i64]
    ensures { result.now ≡ rates_of currency.now sheet.now }
{
    match sheet.curves.get(currency) {
        Some(curve) => curve.rates.as_slice(),
        None => &[],
    }
}

/// The credit quality step of a group, if there is a group and it has one.
pub(crate) fn step_of(sheet: &BalanceSheet, group: Option<Name>) -> Option<u8>
    ensures { result ≡ option_map_or (step_of_group sheet.now) group None }
{
    let group = sheet.groups.get(&group?)?;
    group.step
}
