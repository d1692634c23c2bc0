//! The records that change a balance sheet.

use crate::{
    AbsorbKey, CatKey, Class, Components, Flows, GroupKind, LiabilityKind, Name, Projection, Rates,
    Table,
};
use scr_dates::Day;
use scr_profile::Set;

/// A record of a book or of a script of edits: one variant per verb, with the record's fields in their order.
#[derive(Drop)]
pub enum Edit {
    /// `asof`: the reference date and the reporting currency.
    Asof {
        date: Day,
        currency: Name,
    },
    /// `curve`: makes a currency with its rates, or replaces the rates.
    Curve {
        currency: Name,
        rates: Rates,
    },
    /// `group`: makes or replaces a group of counterparties.
    Group {
        name: Name,
        kind: GroupKind,
        step: Option<u8>,
    },
    /// `sec`: makes a security, or replaces the one of its name, which keeps its flows and what is held of it.
    Security {
        name: Name,
        class: Class,
        group: Option<Name>,
        currency: Name,
        duration: i64,
    },
    /// `flows`: what a security promises.
    Flows {
        security: Name,
        flows: Flows,
    },
    /// `fund`: makes a fund with its components and their weights, or replaces those of the one of its name, which keeps
    /// what is held of it.
    Fund {
        name: Name,
        components: Components,
    },
    /// `hold`: the cents held directly of a security or a fund from now on.
    Hold {
        name: Name,
        cents: i64,
    },
    /// `liability`: makes a liability, or replaces the one of its name, which keeps its flows.
    Liability {
        name: Name,
        kind: LiabilityKind,
        currency: Name,
    },
    /// `lflow`: a liability's flows under a projection.
    LiabilityFlows {
        liability: Name,
        projection: Projection,
        flows: Flows,
    },
    /// `absorb`: the absorption of a scenario.
    Absorb {
        key: AbsorbKey,
        cents: i64,
    },
    /// `seg`: the volumes of a segment in a region, both numbered from 1.
    Segment {
        set: Set,
        number: u8,
        region: u8,
        premium: i64,
        reserve: i64,
    },
    /// `cat`: a catastrophe charge.
    Cat {
        key: CatKey,
        cents: i64,
    },
    /// `lapse`: the lapse charge of a set.
    Lapse {
        set: Set,
        cents: i64,
    },
    /// `rein`: makes or replaces a reinsurance arrangement.
    Rein {
        name: Name,
        group: Name,
        recoverables: i64,
        mitigation: i64,
        collateral: i64,
    },
    /// `bank`: makes or replaces a bank.
    Bank {
        name: Name,
        group: Name,
        cents: i64,
    },
    /// `due`: type 2 exposures due for more than three months, and others.
    Due {
        overdue: i64,
        other: i64,
    },
    /// `op`: what the operational risk is worked from.
    Op {
        tpl: i64,
        tpul: i64,
        tpn: i64,
        el: i64,
        eul: i64,
        pel: i64,
        peul: i64,
        en: i64,
        pen: i64,
        expul: i64,
    },
    /// `sym`: the symmetric adjustment.
    Sym {
        millionths: i64,
    },
    /// `tax`: the rate and the cap of the adjustment for deferred taxes.
    Tax {
        millionths: i64,
        cap: i64,
    },
    /// `fdb`: future discretionary benefits.
    Fdb {
        cents: i64,
    },
    /// `intangible`: the value of intangible assets.
    Intangible {
        cents: i64,
    },
    /// `drop`: takes a row out of its table, a security or a liability with its flows.
    Remove {
        table: Table,
        name: Name,
    },
}
