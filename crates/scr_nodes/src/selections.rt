//! What figures are read off the tables: rows of one table, and one figure of each of them.
ghost use Rattle.std.specs.Prelude.{◌≡◌};
ghost use Rattle.scr_nodes.specs.Selections.{is_counted, is_counterparty, is_currency, is_holder, is_obligation};

use crate::rows::{
    has_class, has_flows, has_group, holds, is_closed, is_foreign, is_held_in, is_of_default_class,
    is_of_group, is_owed_in, is_paying, is_paying_in, is_stressed,
};
use crate::{Biometric, OfCurrency, OfFund, OfGroup, OfLiability, OfSecurity};
use scr_profile::DefaultClass;
use scr_sheet::{BalanceSheet, Class, Curve, Group, Liability, Name, Position, Projection, Stake};

/// The figures that are read off one table, in the order of its rows: which rows, and which figure of
/// each.
#[derive(Clone, Copy)]
pub enum Selection {
    None,
    Funds(Holders, OfFund),
    Securities(Holdings, OfSecurity),
    Liabilities(Obligations, OfLiability),
    Currencies(Currencies, OfCurrency),
    Groups(Counterparties, OfGroup),
}

/// Funds.
#[derive(Clone, Copy)]
pub enum Holders {
    /// Those that hold what has this name (Article 84).
    Of(Name),
    /// Those without components (Article 168(3)).
    Closed,
}

/// Securities.
#[derive(Clone, Copy)]
pub enum Holdings {
    /// Those of a class (Article 168).
    OfClass(Class),
    /// Those in a currency (Article 188).
    In(Name),
    /// Those with payments (Article 165).
    Paying,
    /// Those in a currency that have payments (Article 165).
    PayingIn(Name),
    /// Those of a group of counterparties (Article 182).
    OfGroup(Name),
    /// Those of any group (Article 184(2)).
    Grouped,
}

/// Liabilities.
#[derive(Clone, Copy)]
pub enum Obligations {
    All,
    /// Those in a currency (Articles 165 and 188).
    In(Name),
    /// Those with payments under a projection.
    Under(Projection),
    /// Those on which a biometric stress falls (Articles 136 and 151), with payments under it.
    Stressed(Biometric, Projection),
}

/// Currencies that have a curve.
#[derive(Clone, Copy)]
pub enum Currencies {
    All,
    /// Those other than the reporting one (Article 188(1)).
    Foreign,
}

/// Groups of counterparties.
#[derive(Clone, Copy)]
pub enum Counterparties {
    All,
    /// Those of a class of probabilities of default (Article 199(2)).
    OfClass(DefaultClass),
}

/// Whether the fund is one of them.
pub fn is_holder(holders: &Holders, stake: &Stake) -> bool
    ensures { result ≡ is_holder holders.now stake.now }
{
    match holders {
        Holders::Of(name) => holds(name, stake),
        Holders::Closed => is_closed(stake),
    }
}

/// Whether the security is one of them.
pub fn is_counted(holdings: &Holdings, position: &Position) -> bool
    ensures { result ≡ is_counted holdings.now position.now }
{
    match holdings {
        Holdings::OfClass(class) => has_class(*class, position),
        Holdings::In(currency) => is_held_in(currency, position),
        Holdings::Paying => is_paying(position),
        Holdings::PayingIn(currency) => is_paying_in(currency, position),
        Holdings::OfGroup(name) => is_of_group(name, position),
        Holdings::Grouped => has_group(position),
    }
}

/// Whether the liability is one of them.
pub fn is_obligation(obligations: &Obligations, liability: &Liability) -> bool
    ensures { result ≡ is_obligation obligations.now liability.now }
{
    match obligations {
        Obligations::All => true,
        Obligations::In(currency) => is_owed_in(currency, liability),
        Obligations::Under(projection) => has_flows(*projection, liability),
        Obligations::Stressed(biometric, projection) => is_stressed(
            *biometric,
            *projection,
            liability,
        ),
    }
}

/// Whether the currency is one of them.
pub fn is_currency(sheet: &BalanceSheet, currencies: Currencies, curve: &Curve) -> bool
    ensures { result ≡ is_currency sheet.now currencies curve.now }
{
    match currencies {
        Currencies::All => true,
        Currencies::Foreign => is_foreign(sheet, curve),
    }
}

/// Whether the group is one of them.
pub fn is_counterparty(counterparties: Counterparties, group: &Group) -> bool
    ensures { result ≡ is_counterparty counterparties group.now }
{
    match counterparties {
        Counterparties::All => true,
        Counterparties::OfClass(class) => is_of_default_class(class, group),
    }
}
