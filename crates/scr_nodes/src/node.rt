//! The figures of a balance sheet, each a node of a graph.

use scr_profile::{DefaultClass, Segment, Set};
use scr_sheet::{CatKey, Class, Name, Projection};

/// The way in which rates, or a currency, change.
#[derive(Clone, Copy, PartialEq, Eq)]
pub enum Direction {
    Up,
    Down,
}

/// Gross, before losses are absorbed, or net, after the loss-absorbing capacity of technical
/// provisions alone (Article 206(2) of Delegated Regulation (EU) 2015/35).
#[derive(Clone, Copy, PartialEq, Eq)]
pub enum Measure {
    Gross,
    Net,
}

/// The alternative scenarios among which one decides, those of a currency aside.
#[derive(Clone, Copy, PartialEq, Eq)]
pub enum Alternatives {
    /// The rise and the fall of interest rates (Article 165(1)).
    Interest,
    /// More, fewer and mass lapses of life insurance (Article 142(1)).
    LifeLapse,
    /// The same of health insurance similar to life (Article 159(1)).
    HealthLapse,
}

/// The kinds of equities that fall by shares of their own (Article 168(1)).
#[derive(Clone, Copy, PartialEq, Eq)]
pub enum Equities {
    Type1,
    Type2,
    Infrastructure,
    InfrastructureCorporate,
}

/// A risk whose requirement is absorbed as a whole.
#[derive(Clone, Copy, PartialEq, Eq)]
pub enum Risk {
    Equity,
    Property,
    Spread,
    Concentration,
    Default,
    HealthCatastrophe,
}

/// The obligations that biometric stresses fall on: of life insurance (Article 136), and of health
/// insurance similar to life (Article 151).
#[derive(Clone, Copy, PartialEq, Eq)]
pub enum Biometric {
    Life,
    Health,
}

/// What the requirement for operational risk is reckoned from, and the requirement (Article 204).
#[derive(Clone, Copy, PartialEq, Eq)]
pub enum Operational {
    Premiums,
    Provisions,
    Cap,
    Charge,
}

/// What absorbs losses: technical provisions (Article 206) and deferred taxes (Article 207).
#[derive(Clone, Copy, PartialEq, Eq)]
pub enum Adjustment {
    TechnicalProvisions,
    DeferredTaxes,
}

/// A figure of a balance sheet: of a fund, a security, a liability, a currency or a group of
/// counterparties, by its name and what is reckoned of it, or of the whole sheet. Where nothing else
/// is told, it is a requirement in grains, thousandths of a cent.
#[derive(Clone, Copy, PartialEq, Eq)]
pub enum Node {
    Fund(Name, OfFund),
    Security(Name, OfSecurity),
    Liability(Name, OfLiability),
    Currency(Name, OfCurrency),
    Group(Name, OfGroup),
    Whole(Whole),
}

/// What is reckoned of a fund.
#[derive(Clone, Copy, PartialEq, Eq)]
pub enum OfFund {
    /// What is held of a fund, directly and through funds, in cents (Article 84).
    Total,
}

/// What is reckoned of a security.
#[derive(Clone, Copy, PartialEq, Eq)]
pub enum OfSecurity {
    /// What is held of a security, directly and through funds, in cents (Article 84).
    Total,
    /// What a security's payments lose, per 1,000,000 of its value in 10^-18 (Article 165).
    UnitLoss(Direction),
    /// What is held of a security loses, in 10^-18 cents.
    Rate(Direction),
    /// What a bond loses by spread risk, in 10^-9 cents (Article 176).
    Spread,
}

/// What is reckoned of a liability.
#[derive(Clone, Copy, PartialEq, Eq)]
pub enum OfLiability {
    /// What a liability costs more, in 10^-18 cents.
    Rate(Direction),
    /// The present value of a liability by the best estimate, in 10^-18 cents.
    Present,
    /// What a liability is worth more under a biometric stress, in 10^-18 cents, a gain counting as
    /// nil (Articles 137 to 143 and 152 to 159).
    Loss(Projection),
}

/// What is reckoned of a currency.
#[derive(Clone, Copy, PartialEq, Eq)]
pub enum OfCurrency {
    /// What a currency's securities and liabilities lose together, a gain counting as nil, in
    /// 10^-18 cents.
    Loss(Direction),
    /// The requirement for a rise or a fall of a foreign currency (Article 188(3) and (4)).
    Scenario(Direction, Measure),
    /// Which of the two may be the one that decides, one bit for each (Article 188(2)).
    Choice,
    /// The requirement for a foreign currency, by the one that decides.
    Picked(Measure),
}

/// What is reckoned of a group of counterparties.
#[derive(Clone, Copy, PartialEq, Eq)]
pub enum OfGroup {
    /// The exposure to a group of counterparties, in cents (Article 182).
    Total,
    /// The square of the requirement for a group, in squares of 10^-5 cents (Articles 184(1) and
    /// 187).
    ConcentrationSquare,
    /// What is lost where a group defaults (Article 192).
    Loss,
}

/// A figure of the whole sheet.
#[derive(Clone, Copy, PartialEq, Eq)]
pub enum Whole {
    /// The requirement for a change of interest rates (Articles 166 and 167).
    InterestScenario(Direction, Measure),
    /// Which of the alternatives may be the one that decides, one bit for each (Article 206(2)).
    Choice(Alternatives),
    /// The requirement by the alternative that decides.
    Picked(Alternatives, Measure),
    /// The requirement for currency risk, the sum over foreign currencies (Article 188(1)).
    Currency(Measure),
    /// What is held of a class of securities, in cents; closed funds count in type 2 equities
    /// (Article 168).
    ClassSum(Class),
    /// The requirement for one kind of equities (Articles 169 and 171).
    EquityPart(Equities),
    /// The requirement for equity risk before absorption (Article 168(4)).
    EquityRoot,
    /// The requirement for property risk before absorption (Article 174).
    Property,
    /// The requirement for spread risk before absorption (Article 175).
    Spread,
    /// The assets of which concentrations are measured, in cents (Article 184(2)).
    Assets,
    /// The requirement for market risk concentrations before absorption (Article 183).
    Concentration,
    /// What absorption leaves of a risk's requirement.
    NetPart(Risk),
    /// The requirement for market risk (Article 164).
    Market(Measure),
    /// The sum of the losses of all groups of a class of probabilities of default (Article 201).
    ClassLoss(DefaultClass),
    /// The sum of the squares of these losses, in squares of a grain.
    ClassSquare(DefaultClass),
    /// The variance of the losses of all groups, in squares of a grain (Article 201).
    Variance,
    /// Which band of the standard deviation may be the one that decides, one bit for each (Article
    /// 200).
    DefaultBand,
    /// The requirement for type 1 exposures (Article 200).
    DefaultType1,
    /// The requirement for type 2 exposures (Article 202).
    DefaultType2,
    /// The requirement for counterparty default risk before absorption (Article 189(1)).
    Default,
    /// The requirement for a biometric stress (Articles 137 to 143 and 152 to 159).
    BioScenario(Biometric, Projection, Measure),
    /// The requirement for life underwriting risk (Article 136).
    Life(Measure),
    /// The requirement for health underwriting risk similar to life (Article 151).
    Slt(Measure),
    /// The standard deviation of a segment times its volume (Articles 116, 117, 147 and 148).
    Segment(Segment),
    /// The requirement for premium and reserve risk (Articles 115 and 146).
    PremiumReserve(Set),
    /// The handed-in requirement for a catastrophe (Articles 120 to 135 and 160 to 163).
    CatCharge(CatKey),
    /// The handed-in requirement for lapse risk (Articles 118 and 150).
    Lapse(Set),
    /// The requirement for natural catastrophes (Article 120).
    Natural,
    /// The requirement for man-made catastrophes (Article 128).
    ManMade,
    /// The requirement for catastrophes of non-life insurance (Article 119).
    NonlifeCatastrophe,
    /// The requirement for catastrophes of health insurance before absorption (Article 160).
    HealthCatastrophe,
    /// The requirement for health underwriting risk not similar to life (Article 145).
    Nslt(Measure),
    /// The requirement for health underwriting risk (Article 144).
    Health(Measure),
    /// The requirement for non-life underwriting risk (Article 114).
    Nonlife(Measure),
    /// The requirement for intangible assets (Article 203).
    Intangible,
    /// The Basic Solvency Capital Requirement (Article 87).
    Bscr(Measure),
    /// A part of the requirement for operational risk, or all of it.
    OpPart(Operational),
    /// The adjustment for what absorbs losses.
    Adjust(Adjustment),
    /// The Solvency Capital Requirement (Article 103 of Directive 2009/138/EC).
    Scr,
    /// By how much the modules together exceed their root.
    Diversification,
}
