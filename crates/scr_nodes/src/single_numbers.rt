//! What figures read of the single numbers of a balance sheet.
ghost use Rattle.std.specs.Prelude.{◌≡◌};
ghost use Rattle.scr_nodes.specs.OwnOf.{catastrophe_cents, interest_key, lapse_cents, risk_key, stress_key, volumes_in_regions};

use crate::{Biometric, Direction, Risk};
use scr_profile::{Segment, Set};
use scr_sheet::{AbsorbKey, CatKey, Numbers, Projection};

/// Under which key it is handed in how much technical provisions absorb of a change of interest
/// rates (Article 165).
pub fn interest_key(direction: Direction) -> AbsorbKey
    ensures { result ≡ interest_key direction }
{
    match direction {
        Direction::Up => AbsorbKey::InterestUp,
        Direction::Down => AbsorbKey::InterestDown,
    }
}

/// Under which key it is handed in how much technical provisions absorb of a risk.
pub fn risk_key(risk: Risk) -> AbsorbKey
    ensures { result ≡ risk_key risk }
{
    match risk {
        Risk::Equity => AbsorbKey::Equity,
        Risk::Property => AbsorbKey::Property,
        Risk::Spread => AbsorbKey::Spread,
        Risk::Concentration => AbsorbKey::Concentration,
        Risk::Default => AbsorbKey::Default,
        Risk::HealthCatastrophe => AbsorbKey::HealthCatastrophe,
    }
}

/// Under which key it is handed in how much technical provisions absorb of a biometric stress
/// (Articles 137 to 143 and 152 to 159); none where the obligations have no such stress.
pub fn stress_key(biometric: Biometric, projection: Projection) -> Option<AbsorbKey>
    ensures { result ≡ stress_key biometric projection }
{
    match (biometric, projection) {
        (Biometric::Life, Projection::Mortality) => Some(AbsorbKey::LifeMortality),
        (Biometric::Life, Projection::Longevity) => Some(AbsorbKey::LifeLongevity),
        (Biometric::Life, Projection::Disability) => Some(AbsorbKey::LifeDisability),
        (Biometric::Life, Projection::Expense) => Some(AbsorbKey::LifeExpense),
        (Biometric::Life, Projection::Revision) => Some(AbsorbKey::LifeRevision),
        (Biometric::Life, Projection::LapseUp) => Some(AbsorbKey::LifeLapseUp),
        (Biometric::Life, Projection::LapseDown) => Some(AbsorbKey::LifeLapseDown),
        (Biometric::Life, Projection::LapseMass) => Some(AbsorbKey::LifeLapseMass),
        (Biometric::Life, Projection::Catastrophe) => Some(AbsorbKey::LifeCatastrophe),
        (Biometric::Health, Projection::Mortality) => Some(AbsorbKey::HealthMortality),
        (Biometric::Health, Projection::Longevity) => Some(AbsorbKey::HealthLongevity),
        (Biometric::Health, Projection::Disability) => Some(AbsorbKey::HealthDisability),
        (Biometric::Health, Projection::Expense) => Some(AbsorbKey::HealthExpense),
        (Biometric::Health, Projection::Revision) => Some(AbsorbKey::HealthRevision),
        (Biometric::Health, Projection::LapseUp) => Some(AbsorbKey::HealthLapseUp),
        (Biometric::Health, Projection::LapseDown) => Some(AbsorbKey::HealthLapseDown),
        (Biometric::Health, Projection::LapseMass) => Some(AbsorbKey::HealthLapseMass),
        _ => None,
    }
}

/// The handed-in charge of a catastrophe (Articles 120 to 135 and 160 to 163), in cents.
pub fn catastrophe_cents(numbers: &Numbers, key: CatKey) -> u64
    ensures { result ≡ catastrophe_cents key numbers.now }
{
    match key {
        CatKey::Windstorm => numbers.cat[0],
        CatKey::Earthquake => numbers.cat[1],
        CatKey::Flood => numbers.cat[2],
        CatKey::Hail => numbers.cat[3],
        CatKey::Subsidence => numbers.cat[4],
        CatKey::NonProportionalProperty => numbers.cat[5],
        CatKey::Motor => numbers.cat[6],
        CatKey::Marine => numbers.cat[7],
        CatKey::Aviation => numbers.cat[8],
        CatKey::Fire => numbers.cat[9],
        CatKey::Liability => numbers.cat[10],
        CatKey::Credit => numbers.cat[11],
        CatKey::Other => numbers.cat[12],
        CatKey::MassAccident => numbers.health_cat[0],
        CatKey::AccidentConcentration => numbers.health_cat[1],
        CatKey::Pandemic => numbers.health_cat[2],
    }
}

/// The handed-in charge of lapse risk, of non-life obligations (Article 118) or of health
/// obligations not similar to life (Article 150), in cents.
pub fn lapse_cents(numbers: &Numbers, set: Set) -> u64
    ensures { result ≡ lapse_cents set numbers.now }
{
    match set {
        Set::Nl => numbers.lapse[0],
        Set::Nslt => numbers.lapse[1],
    }
}

/// The handed-in volumes of a segment by region, each with that of premium and that of reserve risk
/// (Articles 116 and 147), in cents.
pub fn volumes_in_regions(numbers: &Numbers, segment: Segment) -> &[(u64, u64); 18]
    ensures { result.now ≡ volumes_in_regions segment numbers.now }
{
    let place = usize::from(segment.number()) - 1;
    match segment.set() {
        Set::Nl => &numbers.nl[place],
        Set::Nslt => &numbers.nslt[place],
    }
}
