//! The figures of the whole sheet and their families.
ghost use Rattle.std.specs.Prelude.{◌≡◌, ◌<◌, length};
ghost use Rattle.std.specs.List.{slice_index_or};
ghost use Rattle.scr_nodes.specs.Numbers.{adjustment_place, charge_place, choice_place, class_place, equities_place, operational_place, risk_place, scenario_place, scenarios_from, segments_from, set_place};
ghost use Rattle.scr_figure_ids.specs.Families.{whole_family};
ghost use Rattle.scr_nodes.specs.declared.node.Whole.TheVariants as wholes;

use crate::families::{direction_place, measure_place};
use scr_nodes::live::has_stress;
use scr_nodes::{
    Adjustment, Alternatives, Biometric, Direction, Equities, Measure, Operational, Risk, Whole,
};
use scr_profile::{DefaultClass, Segment, Set};
use scr_sheet::{CatKey, Class, Projection};

/// The family of a figure that no balance sheet can have.
const NO_FAMILY: u32 = 154;

/// The figures of the whole sheet in the order of their families.
const WHOLES: [Whole; 154] = [
    Whole::ClassSum(Class::Type1Equity),
    Whole::ClassSum(Class::Type1Strategic),
    Whole::ClassSum(Class::Type2Equity),
    Whole::ClassSum(Class::Type2Strategic),
    Whole::ClassSum(Class::Infrastructure),
    Whole::ClassSum(Class::InfrastructureCorporate),
    Whole::ClassSum(Class::Property),
    Whole::ClassSum(Class::Bond),
    Whole::ClassSum(Class::Government),
    Whole::ClassSum(Class::Other),
    Whole::EquityPart(Equities::Type1),
    Whole::EquityPart(Equities::Type2),
    Whole::EquityPart(Equities::Infrastructure),
    Whole::EquityPart(Equities::InfrastructureCorporate),
    Whole::InterestScenario(Direction::Up, Measure::Gross),
    Whole::InterestScenario(Direction::Up, Measure::Net),
    Whole::InterestScenario(Direction::Down, Measure::Gross),
    Whole::InterestScenario(Direction::Down, Measure::Net),
    Whole::Choice(Alternatives::Interest),
    Whole::Picked(Alternatives::Interest, Measure::Gross),
    Whole::Picked(Alternatives::Interest, Measure::Net),
    Whole::EquityRoot,
    Whole::Property,
    Whole::Spread,
    Whole::Concentration,
    Whole::NetPart(Risk::Equity),
    Whole::NetPart(Risk::Property),
    Whole::NetPart(Risk::Spread),
    Whole::NetPart(Risk::Concentration),
    Whole::Currency(Measure::Gross),
    Whole::Currency(Measure::Net),
    Whole::Market(Measure::Gross),
    Whole::Market(Measure::Net),
    Whole::ClassLoss(DefaultClass::Step0),
    Whole::ClassLoss(DefaultClass::Step1),
    Whole::ClassLoss(DefaultClass::Step2),
    Whole::ClassLoss(DefaultClass::Step3),
    Whole::ClassLoss(DefaultClass::Step4),
    Whole::ClassLoss(DefaultClass::Steps5And6),
    Whole::ClassSquare(DefaultClass::Step0),
    Whole::ClassSquare(DefaultClass::Step1),
    Whole::ClassSquare(DefaultClass::Step2),
    Whole::ClassSquare(DefaultClass::Step3),
    Whole::ClassSquare(DefaultClass::Step4),
    Whole::ClassSquare(DefaultClass::Steps5And6),
    Whole::Variance,
    Whole::DefaultBand,
    Whole::DefaultType1,
    Whole::DefaultType2,
    Whole::Default,
    Whole::NetPart(Risk::Default),
    Whole::BioScenario(Biometric::Life, Projection::Mortality, Measure::Gross),
    Whole::BioScenario(Biometric::Life, Projection::Mortality, Measure::Net),
    Whole::BioScenario(Biometric::Life, Projection::Longevity, Measure::Gross),
    Whole::BioScenario(Biometric::Life, Projection::Longevity, Measure::Net),
    Whole::BioScenario(Biometric::Life, Projection::Disability, Measure::Gross),
    Whole::BioScenario(Biometric::Life, Projection::Disability, Measure::Net),
    Whole::BioScenario(Biometric::Life, Projection::Expense, Measure::Gross),
    Whole::BioScenario(Biometric::Life, Projection::Expense, Measure::Net),
    Whole::BioScenario(Biometric::Life, Projection::Revision, Measure::Gross),
    Whole::BioScenario(Biometric::Life, Projection::Revision, Measure::Net),
    Whole::BioScenario(Biometric::Life, Projection::LapseUp, Measure::Gross),
    Whole::BioScenario(Biometric::Life, Projection::LapseUp, Measure::Net),
    Whole::BioScenario(Biometric::Life, Projection::LapseDown, Measure::Gross),
    Whole::BioScenario(Biometric::Life, Projection::LapseDown, Measure::Net),
    Whole::BioScenario(Biometric::Life, Projection::LapseMass, Measure::Gross),
    Whole::BioScenario(Biometric::Life, Projection::LapseMass, Measure::Net),
    Whole::Choice(Alternatives::LifeLapse),
    Whole::Picked(Alternatives::LifeLapse, Measure::Gross),
    Whole::Picked(Alternatives::LifeLapse, Measure::Net),
    Whole::BioScenario(Biometric::Life, Projection::Catastrophe, Measure::Gross),
    Whole::BioScenario(Biometric::Life, Projection::Catastrophe, Measure::Net),
    Whole::Life(Measure::Gross),
    Whole::Life(Measure::Net),
    Whole::BioScenario(Biometric::Health, Projection::Mortality, Measure::Gross),
    Whole::BioScenario(Biometric::Health, Projection::Mortality, Measure::Net),
    Whole::BioScenario(Biometric::Health, Projection::Longevity, Measure::Gross),
    Whole::BioScenario(Biometric::Health, Projection::Longevity, Measure::Net),
    Whole::BioScenario(Biometric::Health, Projection::Disability, Measure::Gross),
    Whole::BioScenario(Biometric::Health, Projection::Disability, Measure::Net),
    Whole::BioScenario(Biometric::Health, Projection::Expense, Measure::Gross),
    Whole::BioScenario(Biometric::Health, Projection::Expense, Measure::Net),
    Whole::BioScenario(Biometric::Health, Projection::Revision, Measure::Gross),
    Whole::BioScenario(Biometric::Health, Projection::Revision, Measure::Net),
    Whole::BioScenario(Biometric::Health, Projection::LapseUp, Measure::Gross),
    Whole::BioScenario(Biometric::Health, Projection::LapseUp, Measure::Net),
    Whole::BioScenario(Biometric::Health, Projection::LapseDown, Measure::Gross),
    Whole::BioScenario(Biometric::Health, Projection::LapseDown, Measure::Net),
    Whole::BioScenario(Biometric::Health, Projection::LapseMass, Measure::Gross),
    Whole::BioScenario(Biometric::Health, Projection::LapseMass, Measure::Net),
    Whole::Choice(Alternatives::HealthLapse),
    Whole::Picked(Alternatives::HealthLapse, Measure::Gross),
    Whole::Picked(Alternatives::HealthLapse, Measure::Net),
    Whole::Slt(Measure::Gross),
    Whole::Slt(Measure::Net),
    Whole::Segment(Segment::MotorLiability),
    Whole::Segment(Segment::OtherMotor),
    Whole::Segment(Segment::Transport),
    Whole::Segment(Segment::Property),
    Whole::Segment(Segment::GeneralLiability),
    Whole::Segment(Segment::Credit),
    Whole::Segment(Segment::LegalExpenses),
    Whole::Segment(Segment::Assistance),
    Whole::Segment(Segment::FinancialLoss),
    Whole::Segment(Segment::CasualtyReinsurance),
    Whole::Segment(Segment::TransportReinsurance),
    Whole::Segment(Segment::PropertyReinsurance),
    Whole::Segment(Segment::MedicalExpense),
    Whole::Segment(Segment::IncomeProtection),
    Whole::Segment(Segment::WorkersCompensation),
    Whole::Segment(Segment::HealthReinsurance),
    Whole::CatCharge(CatKey::Windstorm),
    Whole::CatCharge(CatKey::Earthquake),
    Whole::CatCharge(CatKey::Flood),
    Whole::CatCharge(CatKey::Hail),
    Whole::CatCharge(CatKey::Subsidence),
    Whole::CatCharge(CatKey::Motor),
    Whole::CatCharge(CatKey::Marine),
    Whole::CatCharge(CatKey::Aviation),
    Whole::CatCharge(CatKey::Fire),
    Whole::CatCharge(CatKey::Liability),
    Whole::CatCharge(CatKey::Credit),
    Whole::CatCharge(CatKey::NonProportionalProperty),
    Whole::CatCharge(CatKey::Other),
    Whole::CatCharge(CatKey::MassAccident),
    Whole::CatCharge(CatKey::AccidentConcentration),
    Whole::CatCharge(CatKey::Pandemic),
    Whole::Lapse(Set::Nl),
    Whole::Lapse(Set::Nslt),
    Whole::Intangible,
    Whole::PremiumReserve(Set::Nl),
    Whole::PremiumReserve(Set::Nslt),
    Whole::Natural,
    Whole::ManMade,
    Whole::NonlifeCatastrophe,
    Whole::HealthCatastrophe,
    Whole::NetPart(Risk::HealthCatastrophe),
    Whole::Nslt(Measure::Gross),
    Whole::Nslt(Measure::Net),
    Whole::Health(Measure::Gross),
    Whole::Health(Measure::Net),
    Whole::Nonlife(Measure::Gross),
    Whole::Nonlife(Measure::Net),
    Whole::Bscr(Measure::Gross),
    Whole::Bscr(Measure::Net),
    Whole::Diversification,
    Whole::OpPart(Operational::Premiums),
    Whole::OpPart(Operational::Provisions),
    Whole::OpPart(Operational::Cap),
    Whole::OpPart(Operational::Charge),
    Whole::Adjust(Adjustment::TechnicalProvisions),
    Whole::Adjust(Adjustment::DeferredTaxes),
    Whole::Scr,
    Whole::Assets,
];

/// The figure of the whole sheet with this family.
pub fn whole_at(family: u32) -> Whole
    requires { family < 154 }
    ensures { whole_family result ≡ family }
{
    whole_in(&WHOLES, family)
}

fn whole_in(wholes: &[Whole], k: u32) -> Whole
    requires { k < length wholes.now }
    ensures { result ≡ slice_index_or wholes.now k result }
{
    wholes[k as usize]
}

/// The family of a figure of the whole sheet.
#[inline(always)]
pub(crate) fn whole_family(what: Whole) -> u32
    ensures { result ≡ whole_family what }
{
    match what {
        Whole::ClassSum(class) => class_place(class),
        Whole::EquityPart(equities) => 10 + equities_place(equities),
        Whole::InterestScenario(direction, measure) => {
            14 + 2 * direction_place(direction) + measure_place(measure)
        }
        Whole::Choice(which) => choice_place(which),
        Whole::Picked(which, measure) => 1 + choice_place(which) + measure_place(measure),
        Whole::EquityRoot => 21,
        Whole::Property => 22,
        Whole::Spread => 23,
        Whole::Concentration => 24,
        Whole::NetPart(risk) => risk_place(risk),
        Whole::Currency(measure) => 29 + measure_place(measure),
        Whole::Market(measure) => 31 + measure_place(measure),
        Whole::ClassLoss(class) => 33 + u32::from(class.first_step()),
        Whole::ClassSquare(class) => 39 + u32::from(class.first_step()),
        Whole::Variance => 45,
        Whole::DefaultBand => 46,
        Whole::DefaultType1 => 47,
        Whole::DefaultType2 => 48,
        Whole::Default => 49,
        Whole::BioScenario(biometric, projection, measure) => {
            scenario_family(biometric, projection, measure)
        }
        Whole::Life(measure) => 72 + measure_place(measure),
        Whole::Slt(measure) => 93 + measure_place(measure),
        Whole::Segment(segment) => segments_from(segment.set()) + u32::from(segment.number()),
        Whole::CatCharge(key) => 111 + charge_place(key),
        Whole::Lapse(set) => 127 + set_place(set),
        Whole::Intangible => 129,
        Whole::PremiumReserve(set) => 130 + set_place(set),
        Whole::Natural => 132,
        Whole::ManMade => 133,
        Whole::NonlifeCatastrophe => 134,
        Whole::HealthCatastrophe => 135,
        Whole::Nslt(measure) => 137 + measure_place(measure),
        Whole::Health(measure) => 139 + measure_place(measure),
        Whole::Nonlife(measure) => 141 + measure_place(measure),
        Whole::Bscr(measure) => 143 + measure_place(measure),
        Whole::Diversification => 145,
        Whole::OpPart(part) => 146 + operational_place(part),
        Whole::Adjust(adjustment) => 150 + adjustment_place(adjustment),
        Whole::Scr => 152,
        Whole::Assets => 153,
    }
}

fn scenario_family(biometric: Biometric, projection: Projection, measure: Measure) -> u32
    ensures { result ≡ whole_family (wholes.BioScenario biometric projection measure) }
{
    if has_stress(biometric, projection) {
        scenarios_from(biometric) + scenario_place(projection) + measure_place(measure)
    } else {
        NO_FAMILY
    }
}

/// The index of a class of securities, 0 to 9.
pub(crate) fn class_place(class: Class) -> u32
    ensures place { result ≡ class_place class }
    ensures few { class_place class < 10 }
{
    match class {
        Class::Type1Equity => 0,
        Class::Type1Strategic => 1,
        Class::Type2Equity => 2,
        Class::Type2Strategic => 3,
        Class::Infrastructure => 4,
        Class::InfrastructureCorporate => 5,
        Class::Property => 6,
        Class::Bond => 7,
        Class::Government => 8,
        Class::Other => 9,
    }
}

fn equities_place(equities: Equities) -> u32
    ensures place { result ≡ equities_place equities }
    ensures few { equities_place equities < 4 }
{
    match equities {
        Equities::Type1 => 0,
        Equities::Type2 => 1,
        Equities::Infrastructure => 2,
        Equities::InfrastructureCorporate => 3,
    }
}

fn choice_place(which: Alternatives) -> u32
    ensures place { result ≡ choice_place which }
    ensures few { choice_place which < 91 }
{
    match which {
        Alternatives::Interest => 18,
        Alternatives::LifeLapse => 67,
        Alternatives::HealthLapse => 90,
    }
}

fn risk_place(risk: Risk) -> u32
    ensures place { result ≡ risk_place risk }
    ensures few { risk_place risk < 137 }
{
    match risk {
        Risk::Equity => 25,
        Risk::Property => 26,
        Risk::Spread => 27,
        Risk::Concentration => 28,
        Risk::Default => 50,
        Risk::HealthCatastrophe => 136,
    }
}

fn scenarios_from(biometric: Biometric) -> u32
    ensures place { result ≡ scenarios_from biometric }
    ensures few { scenarios_from biometric < 75 }
{
    match biometric {
        Biometric::Life => 51,
        Biometric::Health => 74,
    }
}

fn scenario_place(projection: Projection) -> u32
    ensures place { result ≡ scenario_place projection }
    ensures few { scenario_place projection < 20 }
{
    match projection {
        Projection::Base | Projection::Mortality => 0,
        Projection::Longevity => 2,
        Projection::Disability => 4,
        Projection::Expense => 6,
        Projection::Revision => 8,
        Projection::LapseUp => 10,
        Projection::LapseDown => 12,
        Projection::LapseMass => 14,
        Projection::Catastrophe => 19,
    }
}

fn segments_from(set: Set) -> u32
    ensures place { result ≡ segments_from set }
    ensures few { segments_from set < 107 }
{
    match set {
        Set::Nl => 94,
        Set::Nslt => 106,
    }
}

fn charge_place(key: CatKey) -> u32
    ensures place { result ≡ charge_place key }
    ensures few { charge_place key < 16 }
{
    match key {
        CatKey::Windstorm => 0,
        CatKey::Earthquake => 1,
        CatKey::Flood => 2,
        CatKey::Hail => 3,
        CatKey::Subsidence => 4,
        CatKey::Motor => 5,
        CatKey::Marine => 6,
        CatKey::Aviation => 7,
        CatKey::Fire => 8,
        CatKey::Liability => 9,
        CatKey::Credit => 10,
        CatKey::NonProportionalProperty => 11,
        CatKey::Other => 12,
        CatKey::MassAccident => 13,
        CatKey::AccidentConcentration => 14,
        CatKey::Pandemic => 15,
    }
}

fn set_place(set: Set) -> u32
    ensures place { result ≡ set_place set }
    ensures few { set_place set < 2 }
{
    match set {
        Set::Nl => 0,
        Set::Nslt => 1,
    }
}

fn operational_place(part: Operational) -> u32
    ensures place { result ≡ operational_place part }
    ensures few { operational_place part < 4 }
{
    match part {
        Operational::Premiums => 0,
        Operational::Provisions => 1,
        Operational::Cap => 2,
        Operational::Charge => 3,
    }
}

fn adjustment_place(adjustment: Adjustment) -> u32
    ensures place { result ≡ adjustment_place adjustment }
    ensures few { adjustment_place adjustment < 2 }
{
    match adjustment {
        Adjustment::TechnicalProvisions => 0,
        Adjustment::DeferredTaxes => 1,
    }
}
