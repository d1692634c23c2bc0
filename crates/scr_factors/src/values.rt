//! The numbers of a factor file.

ghost use Rattle.std.specs.Prelude.{◌≡◌, ◌<◌, ◌≤◌, pos};
ghost use Rattle.scr_profile.specs.Matrix.{IsCorrelation};
ghost use Rattle.scr_profile.specs.Segments.{IsSegment};
ghost use Rattle.scr_factors.specs.Values.{IsInForm, spread_at, sigma_of};

use crate::{Matrix, Set};
use std::marker::Model;

/// The numbers of a factor file.
#[derive(Debug, Drop)]
pub struct Factors {
    pub(crate) spread: [[u32; 10]; 8],
    pub(crate) nl_premium: [u32; 12],
    pub(crate) nl_reserve: [u32; 12],
    pub(crate) correlations: Matrix,
    pub(crate) nslt_premium: [u32; 4],
    pub(crate) nslt_reserve: [u32; 4],
}

impl Model for Factors {
    ghost use Rattle.scr_factors.specs.Values.{FactorValues, IsInForm};

    ghost Value = { FactorValues };

    ghost use Rattle.scr_factors.specs.Held.{values_held};

    ghost view = { values_held };

    ghost invariant = { λ a. IsInForm (values_held a) };
}

impl Factors {
    /// The factors of spread risk (Delegated Regulation (EU) 2015/35, Article 176) of a row and a
    /// band of durations: `a` in millionths and `b` in millionths per year of duration. Rows 0 to 6
    /// are the credit quality steps and row 7 is for bonds without one; the bands begin at 0, 5,
    /// 10, 15 and 20 years.
    pub fn spread(&self, row: u8, band: u8) -> (u32, u32)
        requires row_in { row < 8 }
        requires band_in { band < 5 }
        ensures value { result ≡ spread_at self.now row band }
        ensures in_form { (result.0 ≤ 1_000_000) × (result.1 ≤ 1_000_000) }
    {
        let factors = &self.spread[usize::from(row)];
        let place = 2 * usize::from(band);
        (factors[place], factors[place + 1])
    }

    /// The standard deviations of premium and of reserve risk of a segment, in millionths:
    /// Delegated Regulation (EU) 2015/35, Articles 117 and 148. `seg` is the segment's number, from
    /// 1.
    pub fn sigma(&self, set: Set, seg: u8) -> (u32, u32)
        requires { IsSegment set seg }
        ensures value { result ≡ sigma_of self.now set seg }
        ensures in_form { (result.0 ≤ 1_000_000) × (result.1 ≤ 1_000_000) }
    {
        let place = usize::from(seg) - 1;
        match set {
            Set::Nl => (self.nl_premium[place], self.nl_reserve[place]),
            Set::Nslt => (self.nslt_premium[place], self.nslt_reserve[place]),
        }
    }

    /// The correlations of the twelve segments of non-life, in hundredths: Delegated Regulation
    /// (EU) 2015/35, Article 117.
    pub fn corr(&self) -> &Matrix
        ensures value { result.now ≡ self.now.correlations }
        ensures size { result.now.n ≡ 12 }
        ensures denominator { result.now.den ≡ pos 100 }
        ensures correlations { IsCorrelation result.now }
    {
        &self.correlations
    }

    /// Does nothing: its contract says that the numbers have the form of a factor file.
    pub fn known(&self)
        ensures { IsInForm self.now }
    {
        let _spread = &self.spread;
    }
}
