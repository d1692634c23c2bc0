//! The closed lists of words that records choose from (this project's own).

use crate::Name;

/// The tables of rows.
#[derive(Clone, Copy)]
pub enum Table {
    Group,
    Security,
    Fund,
    Liability,
    Bank,
    Rein,
    Curve,
}

/// A projection of a liability's cash flows: the best estimate, or what is left of it under one of the biometric stresses
/// of Delegated Regulation (EU) 2015/35, Articles 137 to 143 and 152 to 159.
#[derive(Clone, Copy, PartialEq, Eq)]
pub enum Projection {
    Base,
    Mortality,
    Longevity,
    Disability,
    Expense,
    Revision,
    LapseUp,
    LapseDown,
    LapseMass,
    Catastrophe,
}

/// Every projection, in the order of their variants.
pub const PROJECTIONS: [Projection; 10] = [
    Projection::Base,
    Projection::Mortality,
    Projection::Longevity,
    Projection::Disability,
    Projection::Expense,
    Projection::Revision,
    Projection::LapseUp,
    Projection::LapseDown,
    Projection::LapseMass,
    Projection::Catastrophe,
];

/// The scenarios whose loss technical provisions may absorb (Article 206), each with the handed-in absorption.
#[derive(Clone, Copy, Debug, PartialEq, Eq)]
pub enum AbsorbKey {
    InterestUp,
    InterestDown,
    Equity,
    Property,
    Spread,
    Concentration,
    /// The fall of the reporting currency against this one.
    CurrencyUp(Name),
    /// Its rise.
    CurrencyDown(Name),
    Default,
    LifeMortality,
    LifeLongevity,
    LifeDisability,
    LifeExpense,
    LifeRevision,
    LifeLapseUp,
    LifeLapseDown,
    LifeLapseMass,
    LifeCatastrophe,
    HealthMortality,
    HealthLongevity,
    HealthDisability,
    HealthExpense,
    HealthRevision,
    HealthLapseUp,
    HealthLapseDown,
    HealthLapseMass,
    /// The health catastrophe sub-module.
    HealthCatastrophe,
}

/// The handed-in catastrophe charges of non-life, and then those of health.
#[derive(Clone, Copy, PartialEq, Eq)]
pub enum CatKey {
    Windstorm,
    Earthquake,
    Flood,
    Hail,
    Subsidence,
    NonProportionalProperty,
    Motor,
    Marine,
    Aviation,
    Fire,
    Liability,
    Credit,
    Other,
    MassAccident,
    AccidentConcentration,
    Pandemic,
}
