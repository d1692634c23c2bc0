//! The rows of the tables.

use crate::{Flows, Name};
use scr_profile::GroupKind;
use scr_tables::Series;

/// The yearly rates of a curve in millionths, from the maturity of one year on.
pub type Rates = Series<i64>;

/// The components of a fund, securities or funds, each with its weight.
pub type Components = Series<(Name, i64)>;

/// A group of counterparties, with its credit quality step, if it has one.
#[derive(Clone, Copy)]
pub struct Group {
    pub name: Name,
    pub kind: GroupKind,
    pub step: Option<u8>,
}

/// What the market risk sub-modules take a security to be.
#[derive(Clone, Copy, PartialEq, Eq)]
pub enum Class {
    /// Type 1 equity: listed in regulated markets of the EEA or the OECD, and its like (Article 168(2)).
    Type1Equity,
    /// Type 1 equity of strategic nature (Article 171).
    Type1Strategic,
    /// Type 2 equity: any other (Article 168(3)).
    Type2Equity,
    /// Type 2 equity of strategic nature (Article 171).
    Type2Strategic,
    /// Qualifying infrastructure equity (Article 164a).
    Infrastructure,
    /// Qualifying infrastructure corporate equity (Article 164b).
    InfrastructureCorporate,
    /// Immovable property (Article 174).
    Property,
    /// Bonds and loans (Article 176).
    Bond,
    /// Bonds of governments (Article 180).
    Government,
    /// None of these.
    Other,
}

/// A security. Its duration is in thousandths of a year, its flows are per 1,000,000 of its value.
#[derive(Drop)]
pub struct Security {
    pub name: Name,
    pub class: Class,
    pub group: Option<Name>,
    pub currency: Name,
    pub duration: u32,
    pub flows: Flows,
}

/// A security with the cents held directly of it, 0 where nothing is held.
#[derive(Drop)]
pub struct Position {
    pub security: Security,
    pub held: u64,
}

/// A fund: what it holds, in parts by weight (Article 84). A fund without components is closed.
#[derive(Drop)]
pub struct Fund {
    pub name: Name,
    pub components: Components,
}

/// A fund with the cents held directly of it, 0 where nothing is held.
#[derive(Drop)]
pub struct Stake {
    pub fund: Fund,
    pub held: u64,
}

/// The kind of a liability of insurance obligations.
#[derive(Clone, Copy)]
pub enum LiabilityKind {
    /// Life underwriting risk (Article 136).
    Life,
    /// Health similar to life (Article 151).
    Health,
    /// Neither: it counts in the interest and currency risk alone.
    Other,
}

/// The cash flows of a liability in cents under each projection; an empty list where nothing is handed in.
#[derive(Drop)]
pub struct LiabilityFlows {
    pub base: Flows,
    pub mortality: Flows,
    pub longevity: Flows,
    pub disability: Flows,
    pub expense: Flows,
    pub revision: Flows,
    pub lapse_up: Flows,
    pub lapse_down: Flows,
    pub lapse_mass: Flows,
    pub catastrophe: Flows,
}

/// A liability of insurance obligations.
#[derive(Drop)]
pub struct Liability {
    pub name: Name,
    pub kind: LiabilityKind,
    pub currency: Name,
    pub flows: LiabilityFlows,
}

/// A type 1 exposure of the default module (Article 189(2)): cash at a bank, in cents.
#[derive(Clone, Copy)]
pub struct Bank {
    pub name: Name,
    pub group: Name,
    pub cents: u64,
}

/// A reinsurance arrangement: recoverables, risk-mitigating effect and collateral in cents (Article 192).
#[derive(Clone, Copy)]
pub struct Rein {
    pub name: Name,
    pub group: Name,
    pub recoverables: u64,
    pub mitigation: u64,
    pub collateral: u64,
}

/// A currency with its risk-free rates in millionths (Article 43), and the absorption of the two currency scenarios.
#[derive(Drop)]
pub struct Curve {
    pub currency: Name,
    pub rates: Rates,
    pub absorb_up: u64,
    pub absorb_down: u64,
}
