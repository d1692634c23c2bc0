//! The squares of the capital requirements of exposures over the same assets.
ghost use Rattle.std.specs.Prelude.{◌≡◌, ℕ, ◌*◌, ◌-◌, ◌<◌, ◌≤◌, map};
ghost use Rattle.scr_profile.specs.declared.limits.TheConstants.{MAX_HELD};
ghost use Rattle.scr_conc.specs.Thresholds.{step_of, threshold_units, factor_units};
ghost use Rattle.scr_conc.specs.ConcentrationEnds.{exposure_square_units};
ghost use Rattle.scr_conc.specs.Scales as scales;

use crate::{charge_of, excess_charge, threshold_of};
use scr_profile::GroupKind;
use std::marker::Model;

/// The least threshold of all kinds and steps, in thousandths.
const LEAST: u64 = 15;

/// What the capital requirements of all exposures over the same assets are worked out by: of each kind of group and each credit quality
/// step, or none, the threshold over the assets, in thousandths of a cent, and the risk factor, in hundredths (Articles 185 to 187); and the
/// most cents that are above no threshold. Contracts see the assets, in cents.
#[derive(Drop)]
pub struct Scale {
    assets: u64,
    free: u64,
    shares: [[u64; 8]; 4],
    charges: [[u64; 8]; 4],
}

impl Model for Scale {
    ghost use Rattle.std.specs.Prelude.{ℕ};

    ghost Value = { ℕ };

    ghost view = { λ scale. scale.assets };

    ghost use Rattle.scr_conc.specs.Scales.{IsScale};

    ghost invariant = { IsScale };
}

impl Scale {
    /// Over so many cents of assets.
    pub fn new(assets: u64) -> Scale
        requires { assets ≤ MAX_HELD }
        ensures { result ≡ assets }
    {
        Scale {
            assets,
            free: free(assets),
            shares: [
                shares(GroupKind::Name, assets),
                shares(GroupKind::Covered, assets),
                shares(GroupKind::Property, assets),
                shares(GroupKind::State, assets),
            ],
            charges: [
                charges(GroupKind::Name),
                charges(GroupKind::Covered),
                charges(GroupKind::Property),
                charges(GroupKind::State),
            ],
        }
    }

    /// The square of the capital requirement of one exposure, in square hundred-thousandths of a cent: Articles 183(2) and 184(1), by
    /// the kind of its group and its step. It is so many cents.
    pub fn square(&self, kind: GroupKind, step: Option<u8>, exposure: u64) -> u128
        requires step { step_of step ≤ 6 }
        requires part { exposure ≤ self.now }
        requires exposed { exposure ≤ MAX_HELD }
        ensures value { result ≡ exposure_square_units self.now (record { cents = exposure; kind = kind; step = step }) }
        ensures size { result ≤ (73_000 * exposure) * (73_000 * exposure) }
    {
        // Most exposures are below every threshold.
        if exposure <= self.free {
            return 0;
        }
        let share = self.share(kind, step);
        let required = u128::from(excess_charge(exposure, share, self.charge(kind, step)));
        required * required
    }

    /// The most cents that are above no threshold: an exposure of at most so many has no requirement, whatever its kind and its step.
    pub fn free(&self) -> u64
        ensures { scales.IsMostFree self.now result }
    {
        self.free
    }

    /// The threshold over the assets, in thousandths of a cent.
    fn share(&self, kind: GroupKind, step: Option<u8>) -> u64
        requires { step_of step ≤ 6 }
        ensures { result ≡ threshold_units kind step * self.now }
    {
        let shares = &self.shares[row(kind)];
        shares[column(step)]
    }

    /// The risk factor, in hundredths.
    fn charge(&self, kind: GroupKind, step: Option<u8>) -> u64
        requires { step_of step ≤ 6 }
        ensures value { result ≡ factor_units kind step }
        ensures size { result ≤ 73 }
    {
        let charges = &self.charges[row(kind)];
        charges[column(step)]
    }
}

/// The most cents that are above no threshold over the assets.
fn free(assets: u64) -> u64
    requires { assets ≤ MAX_HELD }
    ensures { scales.IsMostFree assets result }
{
    LEAST * assets / 1000
}

/// The thresholds of a kind over so many cents of assets, step by step and without one, in thousandths of a cent.
fn shares(kind: GroupKind, assets: u64) -> [u64; 8]
    requires { assets ≤ MAX_HELD }
    ensures { result ≡ scales.shares_of assets kind }
{
    [
        share(kind, Some(0), assets),
        share(kind, Some(1), assets),
        share(kind, Some(2), assets),
        share(kind, Some(3), assets),
        share(kind, Some(4), assets),
        share(kind, Some(5), assets),
        share(kind, Some(6), assets),
        share(kind, None, assets),
    ]
}

fn share(kind: GroupKind, step: Option<u8>, assets: u64) -> u64
    requires step { step_of step ≤ 6 }
    requires held { assets ≤ MAX_HELD }
    ensures { result ≡ threshold_units kind step * assets }
{
    u64::from(threshold_of(kind, step)) * assets
}

/// The risk factors of a kind, step by step and without one, in hundredths.
fn charges(kind: GroupKind) -> [u64; 8]
    ensures { result ≡ scales.charges_of kind }
{
    [
        charge(kind, Some(0)),
        charge(kind, Some(1)),
        charge(kind, Some(2)),
        charge(kind, Some(3)),
        charge(kind, Some(4)),
        charge(kind, Some(5)),
        charge(kind, Some(6)),
        charge(kind, None),
    ]
}

fn charge(kind: GroupKind, step: Option<u8>) -> u64
    requires { step_of step ≤ 6 }
    ensures { result ≡ factor_units kind step }
{
    u64::from(charge_of(kind, step))
}

/// Where those of a kind stand.
fn row(kind: GroupKind) -> usize
    ensures value { result ≡ scales.row_of kind }
    ensures low { result < 4 }
{
    match kind {
        GroupKind::Name => 0,
        GroupKind::Covered => 1,
        GroupKind::Property => 2,
        GroupKind::State => 3,
    }
}

/// Where those of a step stand in the row of a kind.
fn column(step: Option<u8>) -> usize
    requires { step_of step ≤ 6 }
    ensures value { result ≡ scales.column_of step }
    ensures low { result < 8 }
{
    match step {
        Some(step) => usize::from(step),
        None => 7,
    }
}
