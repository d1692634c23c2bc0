//! The words for what figures are told apart by: directions, measures, risks, perils and the like.
ghost use Rattle.std.specs.Prelude.{◌≡◌};
ghost use Rattle.scr_figure_titles.specs.Words as words;

use scr_nodes::{Adjustment, Alternatives, Direction, Equities, Measure, Operational, Risk};
use scr_profile::{DefaultClass, Segment, Set};
use scr_sheet::{CatKey, Class, Projection};

/// A rise or a fall.
pub fn direction_words(direction: Direction) -> &'static str
    ensures { result.now ≡ words.direction_words direction }
{
    match direction {
        Direction::Up => ", rise",
        Direction::Down => ", fall",
    }
}

/// Before or after absorption.
pub fn measure_words(measure: Measure) -> &'static str
    ensures { result.now ≡ words.measure_words measure }
{
    match measure {
        Measure::Gross => ", gross",
        Measure::Net => ", net",
    }
}

/// What alternative scenarios are of.
pub fn alternatives_words(alternatives: Alternatives) -> &'static str
    ensures { result.now ≡ words.alternatives_words alternatives }
{
    match alternatives {
        Alternatives::Interest => "interest rate risk",
        Alternatives::LifeLapse => "lapse risk of life",
        Alternatives::HealthLapse => "lapse risk of health similar to life",
    }
}

/// A class of securities.
pub fn class_words(class: Class) -> &'static str
    ensures { result.now ≡ words.class_words class }
{
    match class {
        Class::Type1Equity => "type 1 equities",
        Class::Type1Strategic => "strategic type 1 equities",
        Class::Type2Equity => "type 2 equities",
        Class::Type2Strategic => "strategic type 2 equities",
        Class::Infrastructure => "infrastructure equities",
        Class::InfrastructureCorporate => "infrastructure corporate equities",
        Class::Property => "property",
        Class::Bond => "bonds and loans",
        Class::Government => "bonds of governments",
        Class::Other => "other securities",
    }
}

/// A kind of equities.
pub fn equities_words(kind: Equities) -> &'static str
    ensures { result.now ≡ words.equities_words kind }
{
    match kind {
        Equities::Type1 => "type 1",
        Equities::Type2 => "type 2",
        Equities::Infrastructure => "infrastructure",
        Equities::InfrastructureCorporate => "infrastructure corporate",
    }
}

/// A risk that is absorbed as a whole.
pub fn risk_words(risk: Risk) -> &'static str
    ensures { result.now ≡ words.risk_words risk }
{
    match risk {
        Risk::Equity => "equity risk",
        Risk::Property => "property risk",
        Risk::Spread => "spread risk",
        Risk::Concentration => "market risk concentrations",
        Risk::Default => "counterparty default risk",
        Risk::HealthCatastrophe => "health catastrophe risk",
    }
}

/// A projection of payments, by the risk that it is a stress for.
pub fn projection_words(projection: Projection) -> &'static str
    ensures { result.now ≡ words.projection_words projection }
{
    match projection {
        Projection::Base => "best estimate",
        Projection::Mortality => "mortality risk",
        Projection::Longevity => "longevity risk",
        Projection::Disability => "disability and morbidity risk",
        Projection::Expense => "expense risk",
        Projection::Revision => "revision risk",
        Projection::LapseUp => "lapse risk, more lapses",
        Projection::LapseDown => "lapse risk, fewer lapses",
        Projection::LapseMass => "lapse risk, mass lapse",
        Projection::Catastrophe => "life catastrophe risk",
    }
}

/// A set of segments.
pub fn set_words(set: Set) -> &'static str
    ensures { result.now ≡ words.set_words set }
{
    match set {
        Set::Nl => "non-life",
        Set::Nslt => "health not similar to life",
    }
}

/// A peril.
pub fn catastrophe_words(key: CatKey) -> &'static str
    ensures { result.now ≡ words.catastrophe_words key }
{
    match key {
        CatKey::Windstorm => "windstorm",
        CatKey::Earthquake => "earthquake",
        CatKey::Flood => "flood",
        CatKey::Hail => "hail",
        CatKey::Subsidence => "subsidence",
        CatKey::NonProportionalProperty => "non-proportional property reinsurance",
        CatKey::Motor => "motor vehicle liability",
        CatKey::Marine => "marine",
        CatKey::Aviation => "aviation",
        CatKey::Fire => "fire",
        CatKey::Liability => "liability",
        CatKey::Credit => "credit and suretyship",
        CatKey::Other => "other non-life catastrophes",
        CatKey::MassAccident => "mass accident",
        CatKey::AccidentConcentration => "accident concentration",
        CatKey::Pandemic => "pandemic",
    }
}

/// A part of operational risk.
pub fn operational_words(part: Operational) -> &'static str
    ensures { result.now ≡ words.operational_words part }
{
    match part {
        Operational::Premiums => ", by premiums",
        Operational::Provisions => ", by provisions",
        Operational::Cap => ", the cap",
        Operational::Charge => "",
    }
}

/// What absorbs losses.
pub fn adjustment_words(adjustment: Adjustment) -> &'static str
    ensures { result.now ≡ words.adjustment_words adjustment }
{
    match adjustment {
        Adjustment::TechnicalProvisions => "technical provisions",
        Adjustment::DeferredTaxes => "deferred taxes",
    }
}

/// A class of probabilities of default.
pub fn probability_words(class: DefaultClass) -> &'static str
    ensures { result.now ≡ words.probability_words class }
{
    match class {
        DefaultClass::Step0 => "first class of probabilities",
        DefaultClass::Step1 => "second class of probabilities",
        DefaultClass::Step2 => "third class of probabilities",
        DefaultClass::Step3 => "fourth class of probabilities",
        DefaultClass::Step4 => "fifth class of probabilities",
        DefaultClass::Steps5And6 => "sixth class of probabilities",
    }
}

/// A segment of non-life or of health not similar to life (Annexes II and XIV).
pub fn segment_words(segment: Segment) -> &'static str
    ensures { result.now ≡ words.segment_words segment }
{
    match segment {
        Segment::MotorLiability => "motor vehicle liability",
        Segment::OtherMotor => "other motor",
        Segment::Transport => "marine, aviation and transport",
        Segment::Property => "fire and other damage to property",
        Segment::GeneralLiability => "general liability",
        Segment::Credit => "credit and suretyship",
        Segment::LegalExpenses => "legal expenses",
        Segment::Assistance => "assistance",
        Segment::FinancialLoss => "miscellaneous financial loss",
        Segment::CasualtyReinsurance => "non-proportional casualty reinsurance",
        Segment::TransportReinsurance =>
            "non-proportional marine, aviation and transport reinsurance",
        Segment::PropertyReinsurance => "non-proportional property reinsurance",
        Segment::MedicalExpense => "medical expense",
        Segment::IncomeProtection => "income protection",
        Segment::WorkersCompensation => "workers' compensation",
        Segment::HealthReinsurance => "non-proportional health reinsurance",
    }
}
