//! Whether a balance sheet has a figure, and the rows and the stresses that figures stand for.
ghost use Rattle.std.specs.Prelude.{◌≡◌};
ghost use Rattle.scr_nodes.specs.Live.{currency_lives, is_live, liability_lives, pays, is_bond, is_stressed_liability, is_foreign_currency, security_lives, whole_lives};
ghost use Rattle.scr_nodes.specs.Rows.{has_stress, is_stress};

use crate::rows::{has_class, has_flows, is_foreign, is_paying};
use crate::{Biometric, Node, OfCurrency, OfLiability, OfSecurity, Whole};
use scr_sheet::{BalanceSheet, Class, Name, Projection};

/// Whether the balance sheet has this figure. The cost is that of a look-up.
pub fn is_live(sheet: &BalanceSheet, node: &Node) -> bool
    ensures { result ≡ is_live sheet.now node.now }
{
    match node {
        Node::Fund(name, _) => sheet.funds.contains(name),
        Node::Security(name, what) => security_lives(sheet, name, *what),
        Node::Liability(name, what) => liability_lives(sheet, name, *what),
        Node::Currency(currency, what) => currency_lives(sheet, currency, *what),
        Node::Group(name, _) => sheet.groups.contains(name),
        Node::Whole(what) => whole_lives(*what),
    }
}

fn security_lives(sheet: &BalanceSheet, name: &Name, what: OfSecurity) -> bool
    ensures { result ≡ security_lives sheet.now name.now what }
{
    match what {
        OfSecurity::Total => sheet.securities.contains(name),
        OfSecurity::UnitLoss(_) | OfSecurity::Rate(_) => pays(sheet, name),
        OfSecurity::Spread => is_bond(sheet, name),
    }
}

fn liability_lives(sheet: &BalanceSheet, name: &Name, what: OfLiability) -> bool
    ensures { result ≡ liability_lives sheet.now name.now what }
{
    match what {
        OfLiability::Rate(_) | OfLiability::Present => sheet.liabilities.contains(name),
        OfLiability::Loss(projection) => is_stressed_liability(sheet, name, projection),
    }
}

fn currency_lives(sheet: &BalanceSheet, currency: &Name, what: OfCurrency) -> bool
    ensures { result ≡ currency_lives sheet.now currency.now what }
{
    match what {
        OfCurrency::Loss(_) => sheet.curves.contains(currency),
        OfCurrency::Scenario(_, _) | OfCurrency::Choice | OfCurrency::Picked(_) =>
            is_foreign_currency(sheet, currency),
    }
}

fn whole_lives(what: Whole) -> bool
    ensures { result ≡ whole_lives what }
{
    match what {
        Whole::BioScenario(biometric, projection, _) => has_stress(biometric, projection),
        _ => true,
    }
}

/// Whether there is a security of this name with payments, which a change of interest rates can
/// make worth less (Article 165).
pub fn pays(sheet: &BalanceSheet, security: &Name) -> bool
    ensures { result ≡ pays sheet.now security.now }
{
    match sheet.securities.get(security) {
        Some(position) => is_paying(position),
        None => false,
    }
}

/// Whether there is a security of this name that is a bond (Article 176).
pub fn is_bond(sheet: &BalanceSheet, security: &Name) -> bool
    ensures { result ≡ is_bond sheet.now security.now }
{
    match sheet.securities.get(security) {
        Some(position) => has_class(Class::Bond, position),
        None => false,
    }
}

/// Whether the projection is a stress, and there is a liability of this name with payments under
/// it.
pub fn is_stressed_liability(sheet: &BalanceSheet, liability: &Name, projection: Projection) -> bool
    ensures { result ≡ is_stressed_liability sheet.now liability.now projection }
{
    match sheet.liabilities.get(liability) {
        Some(liability) => is_stress(projection) && has_flows(projection, liability),
        None => false,
    }
}

/// Whether the currency has a curve and is not the reporting one (Article 188(1)).
pub fn is_foreign_currency(sheet: &BalanceSheet, currency: &Name) -> bool
    ensures { result ≡ is_foreign_currency sheet.now currency.now }
{
    match sheet.curves.get(currency) {
        Some(curve) => is_foreign(sheet, curve),
        None => false,
    }
}

/// Whether the projection is a stress, and not the best estimate.
pub fn is_stress(projection: Projection) -> bool
    ensures { result ≡ is_stress projection }
{
    !matches!(projection, Projection::Base)
}

/// Whether the obligations have the stress (Articles 137 to 143 and 152 to 159).
pub fn has_stress(biometric: Biometric, projection: Projection) -> bool
    ensures { result ≡ has_stress biometric projection }
{
    match (biometric, projection) {
        (_, Projection::Base) | (Biometric::Health, Projection::Catastrophe) => false,
        _ => true,
    }
}
