//! The member lists of the large sums: which rows are members (Delegated Regulation (EU) 2015/35, by its Articles).
ghost use Rattle.std.specs.Prelude.{◌≡◌};
ghost use Rattle.scr_sheet.specs.Members as spec;

use crate::{
    BalanceSheet, Class, Edit, Liability, LiabilityKind, Name, Position, Projection, Stake, Table,
};

/// A list of rows over which a large sum runs. A currency is its code.
#[derive(Clone, Copy)]
pub enum Roll {
    /// The securities of the class, as kinds of equities (Article 168), property (Article 174) and bonds (Article 176) are.
    Class(Class),
    /// The funds without components (Articles 84 and 168(3)).
    Closed,
    /// The securities that are bonds (Article 176).
    Bonds,
    /// The securities that have a group of counterparties (Article 182(1)).
    Grouped,
    /// The securities of the group.
    Group(Name),
    /// The securities of the currency (Article 188).
    Assets(Name),
    /// Those of them that have payments (Article 165).
    Flows(Name),
    /// The liabilities of the currency (Articles 165 and 188).
    Lines(Name),
    /// The liabilities of the kind with payments under the projection (Articles 136 and 151).
    Losses(LiabilityKind, Projection),
    /// All groups of counterparties.
    Groups,
}

impl Roll {
    /// Whose rows the members are.
    pub fn table(&self) -> Table
        ensures { result ≡ spec.table_of self.now }
    {
        match self {
            Roll::Closed => Table::Fund,
            Roll::Lines(_) | Roll::Losses(_, _) => Table::Liability,
            Roll::Groups => Table::Group,
            _ => Table::Security,
        }
    }
}

/// Whether the row of this name is a member of the roll.
pub fn is_member(sheet: &BalanceSheet, roll: &Roll, name: &Name) -> bool
    ensures { result ≡ spec.is_member roll.now name.now sheet.now }
{
    match roll.table() {
        Table::Security => match sheet.securities.get(name) {
            Some(position) => has_security(roll, position),
            None => false,
        },
        Table::Fund => match sheet.funds.get(name) {
            Some(stake) => is_closed(stake),
            None => false,
        },
        Table::Liability => match sheet.liabilities.get(name) {
            Some(liability) => has_liability(roll, liability),
            None => false,
        },
        Table::Group => sheet.groups.contains(name),
        Table::Bank | Table::Rein | Table::Curve => false,
    }
}

// The security is a member of the roll.
fn has_security(roll: &Roll, position: &Position) -> bool
    ensures { result ≡ spec.has_security roll.now position.now }
{
    match roll {
        Roll::Class(class) => has_class(*class, position),
        Roll::Bonds => has_class(Class::Bond, position),
        Roll::Grouped => has_group(position),
        Roll::Group(name) => is_of_group(name, position),
        Roll::Assets(currency) => is_held_in(currency, position),
        Roll::Flows(currency) => is_paying_in(currency, position),
        _ => false,
    }
}

// The liability is a member of the roll.
fn has_liability(roll: &Roll, liability: &Liability) -> bool
    ensures { result ≡ spec.has_liability roll.now liability.now }
{
    match roll {
        Roll::Lines(currency) => is_owed_in(currency, liability),
        Roll::Losses(kind, projection) => {
            is_kind(*kind, liability.kind) && has_flows(*projection, liability)
        }
        _ => false,
    }
}

// The two kinds are one.
fn is_kind(kind: LiabilityKind, of: LiabilityKind) -> bool
    ensures { result ≡ spec.is_kind kind of }
{
    matches!(
        (kind, of),
        (LiabilityKind::Life, LiabilityKind::Life)
            | (LiabilityKind::Health, LiabilityKind::Health)
            | (LiabilityKind::Other, LiabilityKind::Other)
    )
}

/// Whether the fund has no components, so that nothing is seen through it and what is held of it counts as a type 2 equity
/// (Articles 84 and 168(3)).
pub fn is_closed(stake: &Stake) -> bool
    ensures { result ≡ spec.is_closed stake.now }
{
    stake.fund.components.as_slice().is_empty()
}

/// Whether the security has payments, which a change of interest rates can make worth less (Article 165).
pub fn is_paying(position: &Position) -> bool
    ensures { result ≡ spec.is_paying position.now }
{
    !position.security.flows.as_slice().is_empty()
}

/// Whether the security is in the currency and has payments (Article 165).
pub fn is_paying_in(currency: &Name, position: &Position) -> bool
    ensures { result ≡ spec.is_paying_in currency.now position.now }
{
    *currency == position.security.currency && is_paying(position)
}

/// Whether the liability is in the currency (Articles 165 and 188).
pub fn is_owed_in(currency: &Name, liability: &Liability) -> bool
    ensures { result ≡ spec.is_owed_in currency.now liability.now }
{
    *currency == liability.currency
}

/// Whether the security is of the class, as kinds of equities (Article 168), property (Article 174) and bonds (Article 176)
/// are.
pub fn has_class(class: Class, position: &Position) -> bool
    ensures { result ≡ spec.has_class class position.now }
{
    class == position.security.class
}

/// Whether the security is in the currency.
pub fn is_held_in(currency: &Name, position: &Position) -> bool
    ensures { result ≡ spec.is_held_in currency.now position.now }
{
    *currency == position.security.currency
}

/// Whether the security is of the group of counterparties (Article 182(1)).
pub fn is_of_group(name: &Name, position: &Position) -> bool
    ensures { result ≡ spec.is_of_group name.now position.now }
{
    match position.security.group {
        Some(group) => *name == group,
        None => false,
    }
}

/// Whether the security is of some group.
pub fn has_group(position: &Position) -> bool
    ensures { result ≡ spec.has_group position.now }
{
    position.security.group.is_some()
}

/// Whether the liability has payments under the projection, the best estimate or a biometric stress.
pub fn has_flows(projection: Projection, liability: &Liability) -> bool
    ensures { result ≡ spec.has_flows projection liability.now }
{
    !liability.flows.under(projection).as_slice().is_empty()
}

// ---- records

/// The name of the row that the record makes, replaces, changes or drops. None where it changes a currency or the single
/// numbers.
pub fn row_name(edit: &Edit) -> Option<Name>
    ensures { result ≡ spec.row_name edit.now }
{
    match edit {
        Edit::Group { name, .. }
        | Edit::Security { name, .. }
        | Edit::Fund { name, .. }
        | Edit::Hold { name, .. }
        | Edit::Liability { name, .. }
        | Edit::Rein { name, .. }
        | Edit::Bank { name, .. }
        | Edit::Remove { name, .. } => Some(*name),
        Edit::Flows { security, .. } => Some(*security),
        Edit::LiabilityFlows { liability, .. } => Some(*liability),
        _ => None,
    }
}
