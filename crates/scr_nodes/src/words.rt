//! The sources that no table gives, in the order in which the rule of the figure takes them
//! (Delegated Regulation (EU) 2015/35, by its Articles).
ghost use Rattle.std.specs.Prelude.{◌≡◌, ◌++◌, [], ◌∷◌};
ghost use Rattle.scr_nodes.specs.declared.node.Adjustment.TheVariants as adjustments;
ghost use Rattle.scr_nodes.specs.declared.node.Operational.TheVariants as operations;
ghost use Rattle.scr_nodes.specs.declared.node.Equities.TheVariants as kinds;
ghost use Rattle.scr_profile.specs.declared.set.Set.TheVariants as sets;
ghost use Rattle.scr_nodes.specs.declared.node.Node.TheVariants as nodes;
ghost use Rattle.scr_nodes.specs.declared.node.Whole.TheVariants as wholes;
ghost use Rattle.scr_nodes.specs.Sources.{interest_scenarios, lapse_scenarios, currency_scenarios, classes_of, equity_parts, gross_of, risk_part, market_parts, class_losses, class_squares, default_types, life_parts, slt_parts, health_parts, segments_of, natural_perils, man_made_perils, nonlife_catastrophes, nonlife_parts, health_perils, modules, diversification_sources, requirement_parts, operational_sources, adjustment_sources};

use crate::{
    Adjustment, Alternatives, Biometric, Direction, Equities, Measure, Node, OfCurrency,
    Operational, Risk, Whole,
};
use scr_profile::{DefaultClass, Segment, Set};
use scr_sheet::{CatKey, Class, Name, Projection};

/// The requirements for the rise and the fall of interest rates, each before and after
/// absorption (Articles 165(1) and 206(2)).
pub fn interest_scenarios() -> [Node; 4]
    ensures { result ≡ interest_scenarios }
{
    [
        Node::Whole(Whole::InterestScenario(Direction::Up, Measure::Gross)),
        Node::Whole(Whole::InterestScenario(Direction::Up, Measure::Net)),
        Node::Whole(Whole::InterestScenario(Direction::Down, Measure::Gross)),
        Node::Whole(Whole::InterestScenario(Direction::Down, Measure::Net)),
    ]
}

/// What is held of the two classes of type 1 equities, of strategic ones last (Articles 168(2),
/// 169(1) and 171).
pub fn type1_classes() -> [Node; 2]
    ensures { result ≡ classes_of kinds.Type1 }
{
    [
        Node::Whole(Whole::ClassSum(Class::Type1Equity)),
        Node::Whole(Whole::ClassSum(Class::Type1Strategic)),
    ]
}

/// What is held of the two classes of type 2 equities, of strategic ones last (Articles 168(3),
/// 169(2) and 171).
pub fn type2_classes() -> [Node; 2]
    ensures { result ≡ classes_of kinds.Type2 }
{
    [
        Node::Whole(Whole::ClassSum(Class::Type2Equity)),
        Node::Whole(Whole::ClassSum(Class::Type2Strategic)),
    ]
}

/// What is held of equities of qualifying infrastructure (Articles 164a and 169(3)).
pub fn infrastructure_classes() -> [Node; 1]
    ensures { result ≡ classes_of kinds.Infrastructure }
{
    [Node::Whole(Whole::ClassSum(Class::Infrastructure))]
}

/// What is held of equities of qualifying infrastructure corporates (Articles 164b and 169(4)).
pub fn infrastructure_corporate_classes() -> [Node; 1]
    ensures { result ≡ classes_of kinds.InfrastructureCorporate }
{
    [Node::Whole(Whole::ClassSum(Class::InfrastructureCorporate))]
}

/// The requirements for the four kinds of equities (Article 168(4)).
pub fn equity_parts() -> [Node; 4]
    ensures { result ≡ equity_parts }
{
    [
        Node::Whole(Whole::EquityPart(Equities::Type1)),
        Node::Whole(Whole::EquityPart(Equities::Type2)),
        Node::Whole(Whole::EquityPart(Equities::Infrastructure)),
        Node::Whole(Whole::EquityPart(Equities::InfrastructureCorporate)),
    ]
}

/// A risk's requirement before absorption.
pub fn gross_of(risk: Risk) -> Node
    ensures { result ≡ gross_of risk }
{
    match risk {
        Risk::Equity => Node::Whole(Whole::EquityRoot),
        Risk::Property => Node::Whole(Whole::Property),
        Risk::Spread => Node::Whole(Whole::Spread),
        Risk::Concentration => Node::Whole(Whole::Concentration),
        Risk::Default => Node::Whole(Whole::Default),
        Risk::HealthCatastrophe => Node::Whole(Whole::HealthCatastrophe),
    }
}

/// A risk's requirement before or after absorption.
fn risk_part(risk: Risk, measure: Measure) -> Node
    ensures { result ≡ risk_part risk measure }
{
    match measure {
        Measure::Gross => gross_of(risk),
        Measure::Net => Node::Whole(Whole::NetPart(risk)),
    }
}

/// The requirements for more, fewer and mass lapses, each before and after absorption (of life
/// insurance Article 142, of health insurance similar to life Article 159).
pub fn lapse_scenarios(biometric: Biometric) -> [Node; 6]
    ensures { result ≡ lapse_scenarios biometric }
{
    [
        Node::Whole(Whole::BioScenario(biometric, Projection::LapseUp, Measure::Gross)),
        Node::Whole(Whole::BioScenario(biometric, Projection::LapseUp, Measure::Net)),
        Node::Whole(Whole::BioScenario(biometric, Projection::LapseDown, Measure::Gross)),
        Node::Whole(Whole::BioScenario(biometric, Projection::LapseDown, Measure::Net)),
        Node::Whole(Whole::BioScenario(biometric, Projection::LapseMass, Measure::Gross)),
        Node::Whole(Whole::BioScenario(biometric, Projection::LapseMass, Measure::Net)),
    ]
}

/// The requirements for the rise and the fall of a foreign currency, each before and after
/// absorption (Article 188(2)).
pub fn currency_scenarios(currency: &Name) -> [Node; 4]
    ensures { result ≡ currency_scenarios currency.now }
{
    [
        Node::Currency(
            *currency,
            OfCurrency::Scenario(Direction::Up, Measure::Gross),
        ),
        Node::Currency(*currency, OfCurrency::Scenario(Direction::Up, Measure::Net)),
        Node::Currency(
            *currency,
            OfCurrency::Scenario(Direction::Down, Measure::Gross),
        ),
        Node::Currency(
            *currency,
            OfCurrency::Scenario(Direction::Down, Measure::Net),
        ),
    ]
}

/// The requirements for the sub-modules of market risk, before or after absorption, and last
/// the choice of the interest scenario, which decides their correlations (Article 164).
pub fn market_parts(measure: Measure) -> [Node; 7]
    ensures { result ≡ market_parts measure }
{
    [
        Node::Whole(Whole::Picked(Alternatives::Interest, measure)),
        risk_part(Risk::Equity, measure),
        risk_part(Risk::Property, measure),
        risk_part(Risk::Spread, measure),
        risk_part(Risk::Concentration, measure),
        Node::Whole(Whole::Currency(measure)),
        Node::Whole(Whole::Choice(Alternatives::Interest)),
    ]
}

/// What the variance of the losses of all groups is reckoned from: the sums of each class, and
/// then those of the squares (Article 201).
pub fn variance_sources() -> [Node; 12]
    ensures { result ≡ (class_losses ++ class_squares) }
{
    [
        Node::Whole(Whole::ClassLoss(DefaultClass::Step0)),
        Node::Whole(Whole::ClassLoss(DefaultClass::Step1)),
        Node::Whole(Whole::ClassLoss(DefaultClass::Step2)),
        Node::Whole(Whole::ClassLoss(DefaultClass::Step3)),
        Node::Whole(Whole::ClassLoss(DefaultClass::Step4)),
        Node::Whole(Whole::ClassLoss(DefaultClass::Steps5And6)),
        Node::Whole(Whole::ClassSquare(DefaultClass::Step0)),
        Node::Whole(Whole::ClassSquare(DefaultClass::Step1)),
        Node::Whole(Whole::ClassSquare(DefaultClass::Step2)),
        Node::Whole(Whole::ClassSquare(DefaultClass::Step3)),
        Node::Whole(Whole::ClassSquare(DefaultClass::Step4)),
        Node::Whole(Whole::ClassSquare(DefaultClass::Steps5And6)),
    ]
}

/// What tells which bands of the standard deviation may decide: the sums of each class, and the
/// variance (Article 200).
pub fn band_sources() -> [Node; 7]
    ensures { result ≡ (class_losses ++ nodes.Whole wholes.Variance ∷ []) }
{
    [
        Node::Whole(Whole::ClassLoss(DefaultClass::Step0)),
        Node::Whole(Whole::ClassLoss(DefaultClass::Step1)),
        Node::Whole(Whole::ClassLoss(DefaultClass::Step2)),
        Node::Whole(Whole::ClassLoss(DefaultClass::Step3)),
        Node::Whole(Whole::ClassLoss(DefaultClass::Step4)),
        Node::Whole(Whole::ClassLoss(DefaultClass::Steps5And6)),
        Node::Whole(Whole::Variance),
    ]
}

/// What the requirement for type 1 exposures is reckoned from: the sums of each class, the
/// variance, and which bands may decide (Article 200).
pub fn type1_sources() -> [Node; 8]
    ensures { result ≡ (class_losses ++ nodes.Whole wholes.Variance ∷ nodes.Whole wholes.DefaultBand ∷ []) }
{
    [
        Node::Whole(Whole::ClassLoss(DefaultClass::Step0)),
        Node::Whole(Whole::ClassLoss(DefaultClass::Step1)),
        Node::Whole(Whole::ClassLoss(DefaultClass::Step2)),
        Node::Whole(Whole::ClassLoss(DefaultClass::Step3)),
        Node::Whole(Whole::ClassLoss(DefaultClass::Step4)),
        Node::Whole(Whole::ClassLoss(DefaultClass::Steps5And6)),
        Node::Whole(Whole::Variance),
        Node::Whole(Whole::DefaultBand),
    ]
}

/// The requirements for type 1 and type 2 exposures (Article 189(1)).
pub fn default_types() -> [Node; 2]
    ensures { result ≡ default_types }
{
    [
        Node::Whole(Whole::DefaultType1),
        Node::Whole(Whole::DefaultType2),
    ]
}

/// The requirements for the sub-modules of life underwriting risk, before or after absorption
/// (Article 136).
pub fn life_parts(measure: Measure) -> [Node; 7]
    ensures { result ≡ life_parts measure }
{
    [
        Node::Whole(Whole::BioScenario(Biometric::Life, Projection::Mortality, measure)),
        Node::Whole(Whole::BioScenario(Biometric::Life, Projection::Longevity, measure)),
        Node::Whole(Whole::BioScenario(Biometric::Life, Projection::Disability, measure)),
        Node::Whole(Whole::BioScenario(Biometric::Life, Projection::Expense, measure)),
        Node::Whole(Whole::BioScenario(Biometric::Life, Projection::Revision, measure)),
        Node::Whole(Whole::Picked(Alternatives::LifeLapse, measure)),
        Node::Whole(Whole::BioScenario(Biometric::Life, Projection::Catastrophe, measure)),
    ]
}

/// The requirements for the sub-modules of health underwriting risk similar to life, before or
/// after absorption (Article 151).
pub fn slt_parts(measure: Measure) -> [Node; 6]
    ensures { result ≡ slt_parts measure }
{
    [
        Node::Whole(Whole::BioScenario(Biometric::Health, Projection::Mortality, measure)),
        Node::Whole(Whole::BioScenario(Biometric::Health, Projection::Longevity, measure)),
        Node::Whole(Whole::BioScenario(Biometric::Health, Projection::Disability, measure)),
        Node::Whole(Whole::BioScenario(Biometric::Health, Projection::Expense, measure)),
        Node::Whole(Whole::BioScenario(Biometric::Health, Projection::Revision, measure)),
        Node::Whole(Whole::Picked(Alternatives::HealthLapse, measure)),
    ]
}

/// The requirements for the sub-modules of health underwriting risk, before or after absorption
/// (Article 144).
pub fn health_parts(measure: Measure) -> [Node; 3]
    ensures { result ≡ health_parts measure }
{
    [
        Node::Whole(Whole::Slt(measure)),
        Node::Whole(Whole::Nslt(measure)),
        risk_part(Risk::HealthCatastrophe, measure),
    ]
}

/// The twelve segments of non-life insurance (Article 115).
pub fn nonlife_segments() -> [Node; 12]
    ensures { result ≡ segments_of sets.Nl }
{
    [
        Node::Whole(Whole::Segment(Segment::MotorLiability)),
        Node::Whole(Whole::Segment(Segment::OtherMotor)),
        Node::Whole(Whole::Segment(Segment::Transport)),
        Node::Whole(Whole::Segment(Segment::Property)),
        Node::Whole(Whole::Segment(Segment::GeneralLiability)),
        Node::Whole(Whole::Segment(Segment::Credit)),
        Node::Whole(Whole::Segment(Segment::LegalExpenses)),
        Node::Whole(Whole::Segment(Segment::Assistance)),
        Node::Whole(Whole::Segment(Segment::FinancialLoss)),
        Node::Whole(Whole::Segment(Segment::CasualtyReinsurance)),
        Node::Whole(Whole::Segment(Segment::TransportReinsurance)),
        Node::Whole(Whole::Segment(Segment::PropertyReinsurance)),
    ]
}

/// The four segments of health insurance not similar to life (Article 146).
pub fn nslt_segments() -> [Node; 4]
    ensures { result ≡ segments_of sets.Nslt }
{
    [
        Node::Whole(Whole::Segment(Segment::MedicalExpense)),
        Node::Whole(Whole::Segment(Segment::IncomeProtection)),
        Node::Whole(Whole::Segment(Segment::WorkersCompensation)),
        Node::Whole(Whole::Segment(Segment::HealthReinsurance)),
    ]
}

/// The requirements for the sub-modules of non-life underwriting risk (Article 114).
pub fn nonlife_parts() -> [Node; 2]
    ensures { result ≡ nonlife_parts }
{
    [
        Node::Whole(Whole::PremiumReserve(Set::Nl)),
        Node::Whole(Whole::NonlifeCatastrophe),
    ]
}

/// The requirements for the perils of nature (Article 120).
pub fn natural_perils() -> [Node; 5]
    ensures { result ≡ natural_perils }
{
    [
        Node::Whole(Whole::CatCharge(CatKey::Windstorm)),
        Node::Whole(Whole::CatCharge(CatKey::Earthquake)),
        Node::Whole(Whole::CatCharge(CatKey::Flood)),
        Node::Whole(Whole::CatCharge(CatKey::Hail)),
        Node::Whole(Whole::CatCharge(CatKey::Subsidence)),
    ]
}

/// The requirements for the man-made perils (Article 128).
pub fn man_made_perils() -> [Node; 6]
    ensures { result ≡ man_made_perils }
{
    [
        Node::Whole(Whole::CatCharge(CatKey::Motor)),
        Node::Whole(Whole::CatCharge(CatKey::Marine)),
        Node::Whole(Whole::CatCharge(CatKey::Aviation)),
        Node::Whole(Whole::CatCharge(CatKey::Fire)),
        Node::Whole(Whole::CatCharge(CatKey::Liability)),
        Node::Whole(Whole::CatCharge(CatKey::Credit)),
    ]
}

/// The requirements for the catastrophes of non-life insurance (Article 119).
pub fn nonlife_catastrophes() -> [Node; 4]
    ensures { result ≡ nonlife_catastrophes }
{
    [
        Node::Whole(Whole::Natural),
        Node::Whole(Whole::ManMade),
        Node::Whole(Whole::CatCharge(CatKey::NonProportionalProperty)),
        Node::Whole(Whole::CatCharge(CatKey::Other)),
    ]
}

/// The requirements for the catastrophes of health insurance (Article 160).
pub fn health_perils() -> [Node; 3]
    ensures { result ≡ health_perils }
{
    [
        Node::Whole(Whole::CatCharge(CatKey::MassAccident)),
        Node::Whole(Whole::CatCharge(CatKey::AccidentConcentration)),
        Node::Whole(Whole::CatCharge(CatKey::Pandemic)),
    ]
}

/// The requirements for the modules of the Basic Solvency Capital Requirement, before or after
/// absorption (Article 87).
pub fn modules(measure: Measure) -> [Node; 5]
    ensures { result ≡ modules measure }
{
    [
        Node::Whole(Whole::Market(measure)),
        risk_part(Risk::Default, measure),
        Node::Whole(Whole::Life(measure)),
        Node::Whole(Whole::Health(measure)),
        Node::Whole(Whole::Nonlife(measure)),
    ]
}

/// What tells by how much the modules together exceed their root: the modules, and the Basic
/// Solvency Capital Requirement.
pub fn diversification_sources() -> [Node; 6]
    ensures { result ≡ diversification_sources }
{
    [
        Node::Whole(Whole::Market(Measure::Gross)),
        risk_part(Risk::Default, Measure::Gross),
        Node::Whole(Whole::Life(Measure::Gross)),
        Node::Whole(Whole::Health(Measure::Gross)),
        Node::Whole(Whole::Nonlife(Measure::Gross)),
        Node::Whole(Whole::Bscr(Measure::Gross)),
    ]
}

/// What the Solvency Capital Requirement is the sum of (Article 103 of Directive 2009/138/EC).
pub fn requirement_parts() -> [Node; 4]
    ensures { result ≡ requirement_parts }
{
    [
        Node::Whole(Whole::Bscr(Measure::Gross)),
        Node::Whole(Whole::Adjust(Adjustment::TechnicalProvisions)),
        Node::Whole(Whole::Adjust(Adjustment::DeferredTaxes)),
        Node::Whole(Whole::OpPart(Operational::Charge)),
    ]
}

/// What the requirement for operational risk is reckoned from (Article 204).
pub fn charge_sources() -> [Node; 3]
    ensures { result ≡ operational_sources operations.Charge }
{
    [
        Node::Whole(Whole::OpPart(Operational::Premiums)),
        Node::Whole(Whole::OpPart(Operational::Provisions)),
        Node::Whole(Whole::OpPart(Operational::Cap)),
    ]
}

/// What tells how much technical provisions absorb (Article 206).
pub fn provision_sources() -> [Node; 2]
    ensures { result ≡ adjustment_sources adjustments.TechnicalProvisions }
{
    [
        Node::Whole(Whole::Bscr(Measure::Gross)),
        Node::Whole(Whole::Bscr(Measure::Net)),
    ]
}

/// What tells how much deferred taxes absorb (Article 207).
pub fn tax_sources() -> [Node; 3]
    ensures { result ≡ adjustment_sources adjustments.DeferredTaxes }
{
    [
        Node::Whole(Whole::Bscr(Measure::Gross)),
        Node::Whole(Whole::Adjust(Adjustment::TechnicalProvisions)),
        Node::Whole(Whole::OpPart(Operational::Charge)),
    ]
}
