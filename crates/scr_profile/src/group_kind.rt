//! The kinds of groups of counterparties.

/// What a group of counterparties is taken to be in the concentration sub-module (Articles 182 to
/// 187 of Delegated Regulation (EU) 2015/35).
#[derive(Clone, Copy, Debug, PartialEq, Eq)]
pub enum GroupKind {
    /// A single-name exposure (Article 182).
    Name,
    /// Covered bonds (Article 187(1)).
    Covered,
    /// Immovable property (Article 187(2)).
    Property,
    /// Central governments and their like (Article 187(3)).
    State,
}
