//! Which rows of the balance sheet a figure is reckoned from (Delegated Regulation (EU) 2015/35, by
//! its Articles).
ghost use Rattle.std.specs.Prelude.{◌≡◌};
ghost use Rattle.scr_nodes.specs.Rows.{holds, is_foreign, is_of_default_class, is_of_kind, is_stressed};

use crate::Biometric;
use scr_profile::DefaultClass;
use scr_sheet::{BalanceSheet, Curve, Group, Liability, LiabilityKind, Name, Projection, Stake};
pub use scr_sheet::{
    has_class, has_flows, has_group, is_closed, is_held_in, is_of_group, is_owed_in, is_paying,
    is_paying_in,
};

/// Whether the fund holds what has this name, a fund or a security, as one of its own
/// components (Article 84). The cost is that of its components.
pub fn holds(name: &Name, stake: &Stake) -> bool
    ensures { result ≡ holds name.now stake.now }
{
    stake
        .fund
        .components
        .as_slice()
        .iter()
        .any(|component| *name == component.0)
}

/// Whether the curve is that of a foreign currency, one other than the reporting one (Article
/// 188(1)).
pub fn is_foreign(sheet: &BalanceSheet, curve: &Curve) -> bool
    ensures { result ≡ is_foreign sheet.now curve.now }
{
    sheet.numbers.currency != curve.currency
}

/// Whether the group of counterparties is of the class of probabilities of default (Article
/// 199(2)).
pub fn is_of_default_class(class: DefaultClass, group: &Group) -> bool
    ensures { result ≡ is_of_default_class class group.now }
{
    DefaultClass::of_step(group.step) == class
}

/// The liability's kind is the one that the stresses fall on.
pub(crate) fn is_of_kind(biometric: Biometric, kind: LiabilityKind) -> bool
    ensures { result ≡ is_of_kind biometric kind }
{
    match (biometric, kind) {
        (Biometric::Life, LiabilityKind::Life) => true,
        (Biometric::Health, LiabilityKind::Health) => true,
        _ => false,
    }
}

/// Whether the biometric stresses fall on the liability's kind (Articles 136 and 151) and it
/// has payments under the projection.
pub fn is_stressed(biometric: Biometric, projection: Projection, liability: &Liability) -> bool
    ensures { result ≡ is_stressed biometric projection liability.now }
{
    is_of_kind(biometric, liability.kind) && has_flows(projection, liability)
}
