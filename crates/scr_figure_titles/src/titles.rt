//! What figures are called, the articles that they are by, and their units.
ghost use Rattle.std.specs.Prelude.{◌≡◌};
ghost use Rattle.scr_figure_titles.specs.Titles as titles;

use crate::articles::{
    adjustment_article, catastrophe_article, direction_article, lapse_article, line_article,
    premium_article, segment_article, stress_article,
};
use crate::step::Step;
use crate::unit::Unit;
use crate::words::{
    adjustment_words, alternatives_words, catastrophe_words, class_words, direction_words,
    equities_words, measure_words, operational_words, probability_words, projection_words,
    risk_words, segment_words, set_words,
};
use scr_nodes::{
    Adjustment, Alternatives, Biometric, Measure, Node, OfCurrency, OfFund, OfGroup, OfLiability,
    OfSecurity, Operational, Whole,
};

/// What a figure is, with others of its family.
pub fn family(node: &Node) -> &'static str
    ensures { result.now ≡ titles.family node.now }
{
    match node {
        Node::Fund(_, OfFund::Total) | Node::Security(_, OfSecurity::Total) =>
            "value held, directly and through funds",
        Node::Security(_, OfSecurity::UnitLoss(_)) =>
            "loss of a unit of its value by interest rates",
        Node::Security(_, OfSecurity::Rate(_)) | Node::Currency(_, OfCurrency::Loss(_)) =>
            "loss by interest rates",
        Node::Security(_, OfSecurity::Spread) => "loss by spreads",
        Node::Liability(_, OfLiability::Rate(_)) => "additional cost by interest rates",
        Node::Liability(_, OfLiability::Present) => "present value by the best estimate",
        Node::Liability(_, OfLiability::Loss(_)) => "additional cost under ",
        Node::Currency(_, OfCurrency::Scenario(_, _)) | Node::Whole(Whole::Currency(_)) =>
            "currency risk",
        Node::Currency(_, OfCurrency::Choice) => "the scenario that may decide",
        Node::Currency(_, OfCurrency::Picked(_)) => "currency risk, the scenario that decides",
        Node::Group(_, OfGroup::Total) => "exposure",
        Node::Group(_, OfGroup::ConcentrationSquare) =>
            "square of the requirement for concentration",
        Node::Group(_, OfGroup::Loss) => "loss where it defaults",
        Node::Whole(Whole::InterestScenario(_, _)) => "interest rate risk",
        Node::Whole(Whole::Choice(_)) => "the scenario that may decide ",
        Node::Whole(Whole::Picked(_, _)) | Node::Whole(Whole::NetPart(_)) => "",
        Node::Whole(Whole::ClassSum(_)) => "value held of ",
        Node::Whole(Whole::EquityPart(_)) => "equity risk, ",
        Node::Whole(Whole::EquityRoot) => "equity risk",
        Node::Whole(Whole::Property) => "property risk",
        Node::Whole(Whole::Spread) => "spread risk",
        Node::Whole(Whole::Assets) => "assets of which concentrations are measured",
        Node::Whole(Whole::Concentration) => "market risk concentrations",
        Node::Whole(Whole::Market(_)) => "market risk",
        Node::Whole(Whole::ClassLoss(_)) => "sum of the losses by default, ",
        Node::Whole(Whole::ClassSquare(_)) => "sum of the squares of the losses by default, ",
        Node::Whole(Whole::Variance) => "variance of the losses by default",
        Node::Whole(Whole::DefaultBand) => "the band of the deviation that may decide",
        Node::Whole(Whole::DefaultType1) => "type 1 exposures",
        Node::Whole(Whole::DefaultType2) => "type 2 exposures",
        Node::Whole(Whole::Default) => "counterparty default risk",
        Node::Whole(Whole::BioScenario(Biometric::Life, _, _)) => "life: ",
        Node::Whole(Whole::BioScenario(Biometric::Health, _, _)) => "health similar to life: ",
        Node::Whole(Whole::Life(_)) => "life underwriting risk",
        Node::Whole(Whole::Slt(_)) => "health underwriting risk similar to life",
        Node::Whole(Whole::Segment(_)) => "premium and reserve risk of a segment, ",
        Node::Whole(Whole::PremiumReserve(_)) => "premium and reserve risk of ",
        Node::Whole(Whole::CatCharge(_)) => "charge handed in for ",
        Node::Whole(Whole::Lapse(_)) => "lapse risk, handed in, of ",
        Node::Whole(Whole::Natural) => "natural catastrophe risk",
        Node::Whole(Whole::ManMade) => "man-made catastrophe risk",
        Node::Whole(Whole::NonlifeCatastrophe) => "non-life catastrophe risk",
        Node::Whole(Whole::HealthCatastrophe) => "health catastrophe risk",
        Node::Whole(Whole::Nslt(_)) => "health underwriting risk not similar to life",
        Node::Whole(Whole::Health(_)) => "health underwriting risk",
        Node::Whole(Whole::Nonlife(_)) => "non-life underwriting risk",
        Node::Whole(Whole::Intangible) => "intangible asset risk",
        Node::Whole(Whole::Bscr(_)) => "Basic Solvency Capital Requirement",
        Node::Whole(Whole::OpPart(_)) => "operational risk",
        Node::Whole(Whole::Adjust(_)) => "adjustment for the loss-absorbing capacity of ",
        Node::Whole(Whole::Scr) => "Solvency Capital Requirement",
        Node::Whole(Whole::Diversification) => "diversification of the modules",
    }
}

/// Which of its family a figure is.
pub fn detail(node: &Node) -> &'static str
    ensures { result.now ≡ titles.detail node.now }
{
    match node {
        Node::Security(_, OfSecurity::UnitLoss(direction))
        | Node::Security(_, OfSecurity::Rate(direction))
        | Node::Liability(_, OfLiability::Rate(direction))
        | Node::Currency(_, OfCurrency::Loss(direction))
        | Node::Currency(_, OfCurrency::Scenario(direction, _))
        | Node::Whole(Whole::InterestScenario(direction, _)) => direction_words(*direction),
        Node::Liability(_, OfLiability::Loss(projection))
        | Node::Whole(Whole::BioScenario(_, projection, _)) => projection_words(*projection),
        Node::Whole(Whole::Choice(alternatives)) | Node::Whole(Whole::Picked(alternatives, _)) =>
            alternatives_words(*alternatives),
        Node::Whole(Whole::ClassSum(class)) => class_words(*class),
        Node::Whole(Whole::EquityPart(kind)) => equities_words(*kind),
        Node::Whole(Whole::NetPart(risk)) => risk_words(*risk),
        Node::Whole(Whole::ClassLoss(class)) | Node::Whole(Whole::ClassSquare(class)) =>
            probability_words(*class),
        Node::Whole(Whole::Segment(segment)) => segment_words(*segment),
        Node::Whole(Whole::PremiumReserve(set)) | Node::Whole(Whole::Lapse(set)) => set_words(*set),
        Node::Whole(Whole::CatCharge(key)) => catastrophe_words(*key),
        Node::Whole(Whole::OpPart(part)) => operational_words(*part),
        Node::Whole(Whole::Adjust(adjustment)) => adjustment_words(*adjustment),
        _ => "",
    }
}

/// Whether a figure is taken before or after absorption, where it has both.
pub fn absorption(node: &Node) -> &'static str
    ensures { result.now ≡ titles.absorption node.now }
{
    match node {
        Node::Currency(_, OfCurrency::Scenario(_, measure))
        | Node::Currency(_, OfCurrency::Picked(measure))
        | Node::Whole(Whole::InterestScenario(_, measure))
        | Node::Whole(Whole::Picked(_, measure))
        | Node::Whole(Whole::Currency(measure))
        | Node::Whole(Whole::Market(measure))
        | Node::Whole(Whole::BioScenario(_, _, measure))
        | Node::Whole(Whole::Life(measure))
        | Node::Whole(Whole::Slt(measure))
        | Node::Whole(Whole::Nslt(measure))
        | Node::Whole(Whole::Health(measure))
        | Node::Whole(Whole::Nonlife(measure))
        | Node::Whole(Whole::Bscr(measure)) => measure_words(*measure),
        Node::Whole(Whole::EquityRoot)
        | Node::Whole(Whole::Property)
        | Node::Whole(Whole::Spread)
        | Node::Whole(Whole::Concentration)
        | Node::Whole(Whole::Default)
        | Node::Whole(Whole::HealthCatastrophe) => measure_words(Measure::Gross),
        Node::Whole(Whole::NetPart(_)) => measure_words(Measure::Net),
        _ => "",
    }
}

/// The articles of Delegated Regulation (EU) 2015/35 that a figure is by, or that of the Directive. A figure after absorption is by
/// Article 206(2), alone where what is absorbed is taken off just there.
pub fn article(node: &Node) -> &'static str
    ensures { result.now ≡ titles.article node.now }
{
    match node {
        Node::Fund(_, OfFund::Total) | Node::Security(_, OfSecurity::Total) => "Article 84",
        Node::Security(_, OfSecurity::UnitLoss(_))
        | Node::Security(_, OfSecurity::Rate(_))
        | Node::Liability(_, OfLiability::Rate(_))
        | Node::Currency(_, OfCurrency::Loss(_)) => "Article 165",
        Node::Security(_, OfSecurity::Spread) => "Article 176",
        Node::Liability(_, OfLiability::Present) => "Article 188",
        Node::Liability(_, OfLiability::Loss(projection)) => line_article(*projection),
        Node::Whole(Whole::BioScenario(obligations, projection, Measure::Gross)) => stress_article(
            *obligations,
            *projection,
        ),
        Node::Currency(_, OfCurrency::Scenario(_, Measure::Gross)) => "Article 188(3) and (4)",
        Node::Currency(_, OfCurrency::Choice) | Node::Currency(_, OfCurrency::Picked(_)) =>
            "Article 188(2)",
        Node::Group(_, OfGroup::Total) => "Article 182",
        Node::Group(_, OfGroup::ConcentrationSquare) => "Articles 184(1) and 187",
        Node::Group(_, OfGroup::Loss) => "Article 192",
        Node::Whole(Whole::InterestScenario(direction, Measure::Gross)) => direction_article(
            *direction,
        ),
        Node::Currency(_, OfCurrency::Scenario(_, Measure::Net))
        | Node::Whole(Whole::InterestScenario(_, Measure::Net))
        | Node::Whole(Whole::BioScenario(_, _, Measure::Net))
        | Node::Whole(Whole::NetPart(_))
        | Node::Whole(Whole::Choice(_))
        | Node::Whole(Whole::Picked(_, _)) => "Article 206(2)",
        Node::Whole(Whole::Currency(Measure::Gross)) => "Article 188(1)",
        Node::Whole(Whole::Currency(Measure::Net)) => "Articles 188(1) and 206(2)",
        Node::Whole(Whole::ClassSum(_)) => "Article 168",
        Node::Whole(Whole::EquityPart(_)) => "Articles 169 and 171",
        Node::Whole(Whole::EquityRoot) => "Article 168(4)",
        Node::Whole(Whole::Property) => "Article 174",
        Node::Whole(Whole::Spread) => "Article 175",
        Node::Whole(Whole::Assets) => "Article 184(2)",
        Node::Whole(Whole::Concentration) => "Article 183",
        Node::Whole(Whole::Market(Measure::Gross)) => "Article 164",
        Node::Whole(Whole::Market(Measure::Net)) => "Articles 164 and 206(2)",
        Node::Whole(Whole::ClassLoss(_))
        | Node::Whole(Whole::ClassSquare(_))
        | Node::Whole(Whole::Variance) => "Article 201",
        Node::Whole(Whole::DefaultBand) | Node::Whole(Whole::DefaultType1) => "Article 200",
        Node::Whole(Whole::DefaultType2) => "Article 202",
        Node::Whole(Whole::Default) => "Article 189(1)",
        Node::Whole(Whole::Life(Measure::Gross)) => "Article 136",
        Node::Whole(Whole::Life(Measure::Net)) => "Articles 136 and 206(2)",
        Node::Whole(Whole::Slt(Measure::Gross)) => "Article 151",
        Node::Whole(Whole::Slt(Measure::Net)) => "Articles 151 and 206(2)",
        Node::Whole(Whole::Segment(segment)) => segment_article(segment.set()),
        Node::Whole(Whole::PremiumReserve(set)) => premium_article(*set),
        Node::Whole(Whole::CatCharge(key)) => catastrophe_article(*key),
        Node::Whole(Whole::Lapse(set)) => lapse_article(*set),
        Node::Whole(Whole::Natural) => "Article 120",
        Node::Whole(Whole::ManMade) => "Article 128",
        Node::Whole(Whole::NonlifeCatastrophe) => "Article 119",
        Node::Whole(Whole::HealthCatastrophe) => "Article 160",
        Node::Whole(Whole::Nslt(Measure::Gross)) => "Article 145",
        Node::Whole(Whole::Nslt(Measure::Net)) => "Articles 145 and 206(2)",
        Node::Whole(Whole::Health(Measure::Gross)) => "Article 144",
        Node::Whole(Whole::Health(Measure::Net)) => "Articles 144 and 206(2)",
        Node::Whole(Whole::Nonlife(Measure::Gross)) => "Article 114",
        Node::Whole(Whole::Nonlife(Measure::Net)) => "Articles 114 and 206(2)",
        Node::Whole(Whole::Intangible) => "Article 203",
        Node::Whole(Whole::Bscr(Measure::Gross)) | Node::Whole(Whole::Diversification) =>
            "Article 87",
        Node::Whole(Whole::Bscr(Measure::Net)) => "Articles 87 and 206(2)",
        Node::Whole(Whole::OpPart(_)) => "Article 204",
        Node::Whole(Whole::Adjust(adjustment)) => adjustment_article(*adjustment),
        Node::Whole(Whole::Scr) => "Article 103 of Directive 2009/138/EC",
    }
}

/// How a figure comes from its sources.
pub fn step_of(node: &Node) -> Step
    ensures { result ≡ titles.step_of node.now }
{
    match node {
        Node::Fund(_, OfFund::Total) | Node::Security(_, OfSecurity::Total) => Step::LookThrough,
        Node::Security(_, OfSecurity::UnitLoss(_))
        | Node::Liability(_, OfLiability::Rate(_))
        | Node::Liability(_, OfLiability::Present)
        | Node::Liability(_, OfLiability::Loss(_)) => Step::Discounted,
        Node::Security(_, OfSecurity::Rate(_)) => Step::Product,
        Node::Security(_, OfSecurity::Spread) => Step::Factor,
        Node::Currency(_, OfCurrency::Loss(_)) => Step::LossSum,
        Node::Currency(_, OfCurrency::Scenario(_, Measure::Gross)) => Step::Exposure,
        Node::Currency(_, OfCurrency::Scenario(_, Measure::Net))
        | Node::Whole(Whole::InterestScenario(_, Measure::Net))
        | Node::Whole(Whole::NetPart(_))
        | Node::Whole(Whole::BioScenario(_, _, Measure::Net)) => Step::Absorbed,
        Node::Currency(_, OfCurrency::Choice) | Node::Whole(Whole::Choice(_)) => Step::Choice,
        Node::Currency(_, OfCurrency::Picked(_)) | Node::Whole(Whole::Picked(_, _)) => Step::Chosen,
        Node::Group(_, OfGroup::Total)
        | Node::Whole(Whole::InterestScenario(_, Measure::Gross))
        | Node::Whole(Whole::Currency(_))
        | Node::Whole(Whole::ClassSum(_))
        | Node::Whole(Whole::Spread)
        | Node::Whole(Whole::Assets)
        | Node::Whole(Whole::ClassLoss(_))
        | Node::Whole(Whole::BioScenario(_, _, Measure::Gross))
        | Node::Whole(Whole::Scr) => Step::Sum,
        Node::Group(_, OfGroup::ConcentrationSquare) => Step::Excess,
        Node::Group(_, OfGroup::Loss)
        | Node::Whole(Whole::DefaultType2)
        | Node::Whole(Whole::Segment(_))
        | Node::Whole(Whole::CatCharge(_))
        | Node::Whole(Whole::Lapse(_))
        | Node::Whole(Whole::Intangible)
        | Node::Whole(Whole::OpPart(Operational::Premiums))
        | Node::Whole(Whole::OpPart(Operational::Provisions)) => Step::Records,
        Node::Whole(Whole::EquityPart(_))
        | Node::Whole(Whole::Property)
        | Node::Whole(Whole::OpPart(Operational::Cap)) => Step::Share,
        Node::Whole(Whole::EquityRoot)
        | Node::Whole(Whole::Market(_))
        | Node::Whole(Whole::Default)
        | Node::Whole(Whole::Life(_))
        | Node::Whole(Whole::Slt(_))
        | Node::Whole(Whole::Natural)
        | Node::Whole(Whole::ManMade)
        | Node::Whole(Whole::NonlifeCatastrophe)
        | Node::Whole(Whole::HealthCatastrophe)
        | Node::Whole(Whole::Health(_)) => Step::Root,
        Node::Whole(Whole::Concentration) => Step::RootOfSum,
        Node::Whole(Whole::ClassSquare(_)) => Step::Squares,
        Node::Whole(Whole::Variance) => Step::Variance,
        Node::Whole(Whole::DefaultBand) => Step::Band,
        Node::Whole(Whole::DefaultType1) => Step::Deviation,
        Node::Whole(Whole::PremiumReserve(_)) => Step::ThreeRoots,
        Node::Whole(Whole::Nslt(_)) | Node::Whole(Whole::Nonlife(_)) => Step::RootWithLapse,
        Node::Whole(Whole::Bscr(_)) => Step::Modules,
        Node::Whole(Whole::OpPart(Operational::Charge)) => Step::Charge,
        Node::Whole(Whole::Adjust(Adjustment::TechnicalProvisions)) => Step::Benefits,
        Node::Whole(Whole::Adjust(Adjustment::DeferredTaxes)) => Step::Taxes,
        Node::Whole(Whole::Diversification) => Step::Diversification,
    }
}

/// The unit of a figure.
pub fn unit_of(node: &Node) -> Unit
    ensures { result ≡ titles.unit_of node.now }
{
    match node {
        Node::Fund(_, OfFund::Total)
        | Node::Security(_, OfSecurity::Total)
        | Node::Group(_, OfGroup::Total)
        | Node::Whole(Whole::ClassSum(_))
        | Node::Whole(Whole::Assets) => Unit::Cents,
        Node::Security(_, OfSecurity::UnitLoss(_)) => Unit::Millionth,
        Node::Security(_, OfSecurity::Rate(_))
        | Node::Liability(_, OfLiability::Rate(_))
        | Node::Liability(_, OfLiability::Present)
        | Node::Liability(_, OfLiability::Loss(_))
        | Node::Currency(_, OfCurrency::Loss(_)) => Unit::Attocents,
        Node::Security(_, OfSecurity::Spread) => Unit::Nanocents,
        Node::Currency(_, OfCurrency::Choice)
        | Node::Whole(Whole::Choice(Alternatives::Interest)) => Unit::Movements,
        Node::Group(_, OfGroup::ConcentrationSquare) => Unit::FineSquares,
        Node::Whole(Whole::Choice(Alternatives::LifeLapse))
        | Node::Whole(Whole::Choice(Alternatives::HealthLapse)) => Unit::Lapses,
        Node::Whole(Whole::ClassSquare(_)) | Node::Whole(Whole::Variance) => Unit::GrainSquares,
        Node::Whole(Whole::DefaultBand) => Unit::Bands,
        _ => Unit::Grains,
    }
}
