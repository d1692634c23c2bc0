//! Why a record is refused.

use crate::{AbsorbKey, Name, Names};

/// Why a record is refused. Where several faults stand together, the first in the order of the variants is told,
/// and a refused record changes nothing.
#[derive(Debug, PartialEq, Eq, Drop)]
pub enum Fault {
    /// The field of this number is not of its form; 0 stands for the verb or for a byte that no record has.
    Syntax(u32),
    /// The name must exist and does not.
    UnknownName(Name),
    /// The name stands in another table than the field allows, or a liability's kind lacks the projection.
    WrongKind(Name),
    /// The name is used, and so can't be dropped, or its liability can't change its kind.
    InUse(Name, User),
    /// The fund would hold itself: the first of the shortest chains of components from it back to itself.
    Cycle(Names),
    /// The quantity, its value in the book as the record would leave it, and the bound that the value crosses.
    Range(Quantity, i128, i128),
    /// Memory was refused. It may come in place of any other answer.
    NoMemory,
}

/// What uses a name.
#[derive(Clone, Copy, Debug, PartialEq, Eq)]
pub enum User {
    /// The reporting currency.
    Asof,
    /// Cents held directly.
    Hold,
    /// Flows under a projection that the kind lacks.
    Lflow,
    /// An absorption.
    Absorb(AbsorbKey),
    /// A row.
    Row(Name),
}

/// What a limit is set on, in the order in which the limits are tested.
#[derive(Clone, Copy, Debug, PartialEq, Eq)]
pub enum Quantity {
    Rate,
    Duration,
    Weight,
    Flow,
    Hold,
    Amount,
    Provision,
    Sym,
    TaxRate,
    SecFlows,
    Held,
    LiabilityFlows,
    Volumes,
    Defaults,
    Years,
    Currencies,
    Securities,
    Funds,
    Components,
    Liabilities,
    Groups,
    Exposures,
}
