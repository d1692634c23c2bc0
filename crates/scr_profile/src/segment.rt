//! The segments of premium and reserve risk.
ghost use Rattle.std.specs.Prelude.{◌≡◌};
ghost use Rattle.scr_profile.specs.Segments.{IsSegment, number_of, set_of};

use crate::Set;

/// A segment of premium and reserve risk: of non-life (Annex II of Delegated Regulation (EU)
/// 2015/35) or of health that is not similar to life (Annex XIV).
#[derive(Clone, Copy, PartialEq, Eq)]
pub enum Segment {
    MotorLiability,
    OtherMotor,
    /// Marine, aviation and transport.
    Transport,
    /// Fire and other damage to property.
    Property,
    GeneralLiability,
    /// Credit and suretyship.
    Credit,
    LegalExpenses,
    Assistance,
    /// Miscellaneous financial loss.
    FinancialLoss,
    /// Non-proportional, as all reinsurance here.
    CasualtyReinsurance,
    TransportReinsurance,
    PropertyReinsurance,
    MedicalExpense,
    IncomeProtection,
    WorkersCompensation,
    HealthReinsurance,
}

impl Segment {
    /// The set that the segment is one of.
    pub fn set(self) -> Set
        ensures { result ≡ set_of self }
    {
        match self {
            Segment::MedicalExpense
            | Segment::IncomeProtection
            | Segment::WorkersCompensation
            | Segment::HealthReinsurance => Set::Nslt,
            _ => Set::Nl,
        }
    }

    /// Its number in the Annex, from 1.
    pub fn number(self) -> u8
        ensures value { result ≡ number_of self }
        ensures one_of_set { IsSegment (set_of self) (number_of self) }
    {
        match self {
            Segment::MotorLiability | Segment::MedicalExpense => 1,
            Segment::OtherMotor | Segment::IncomeProtection => 2,
            Segment::Transport | Segment::WorkersCompensation => 3,
            Segment::Property | Segment::HealthReinsurance => 4,
            Segment::GeneralLiability => 5,
            Segment::Credit => 6,
            Segment::LegalExpenses => 7,
            Segment::Assistance => 8,
            Segment::FinancialLoss => 9,
            Segment::CasualtyReinsurance => 10,
            Segment::TransportReinsurance => 11,
            Segment::PropertyReinsurance => 12,
        }
    }
}
