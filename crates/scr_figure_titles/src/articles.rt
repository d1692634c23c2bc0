//! The articles of figures of one family, by what they are told apart by.
ghost use Rattle.std.specs.Prelude.{◌≡◌};
ghost use Rattle.scr_figure_titles.specs.Articles as articles;

use scr_nodes::{Adjustment, Biometric, Direction};
use scr_profile::Set;
use scr_sheet::{CatKey, Projection};

/// A rise or a fall of interest rates.
pub fn direction_article(direction: Direction) -> &'static str
    ensures { result.now ≡ articles.direction_article direction }
{
    match direction {
        Direction::Up => "Article 166",
        Direction::Down => "Article 167",
    }
}

/// A stress of life insurance, or of health insurance similar to life.
pub fn stress_article(obligations: Biometric, projection: Projection) -> &'static str
    ensures { result.now ≡ articles.stress_article obligations projection }
{
    match obligations {
        Biometric::Life => life_article(projection),
        Biometric::Health => health_article(projection),
    }
}

fn life_article(projection: Projection) -> &'static str
    ensures { result.now ≡ articles.life_article projection }
{
    match projection {
        Projection::Base => "Article 136",
        Projection::Mortality => "Article 137",
        Projection::Longevity => "Article 138",
        Projection::Disability => "Article 139",
        Projection::Expense => "Article 140",
        Projection::Revision => "Article 141",
        Projection::LapseUp => "Article 142",
        Projection::LapseDown => "Article 142",
        Projection::LapseMass => "Article 142",
        Projection::Catastrophe => "Article 143",
    }
}

fn health_article(projection: Projection) -> &'static str
    ensures { result.now ≡ articles.health_article projection }
{
    match projection {
        Projection::Base => "Article 151",
        Projection::Mortality => "Article 152",
        Projection::Longevity => "Article 153",
        Projection::Disability => "Article 154",
        Projection::Expense => "Article 157",
        Projection::Revision => "Article 158",
        Projection::LapseUp => "Article 159",
        Projection::LapseDown => "Article 159",
        Projection::LapseMass => "Article 159",
        Projection::Catastrophe => "Article 160",
    }
}

/// A stress of a line, which is of life insurance or of health insurance similar to life.
pub fn line_article(projection: Projection) -> &'static str
    ensures { result.now ≡ articles.line_article projection }
{
    match projection {
        Projection::Base => "Articles 136 and 151",
        Projection::Mortality => "Articles 137 and 152",
        Projection::Longevity => "Articles 138 and 153",
        Projection::Disability => "Articles 139 and 154",
        Projection::Expense => "Articles 140 and 157",
        Projection::Revision => "Articles 141 and 158",
        Projection::LapseUp => "Articles 142 and 159",
        Projection::LapseDown => "Articles 142 and 159",
        Projection::LapseMass => "Articles 142 and 159",
        Projection::Catastrophe => "Article 143",
    }
}

/// The volume measure and the standard deviation of a segment.
pub fn segment_article(set: Set) -> &'static str
    ensures { result.now ≡ articles.segment_article set }
{
    match set {
        Set::Nl => "Articles 116 and 117",
        Set::Nslt => "Articles 147 and 148",
    }
}

/// Premium and reserve risk.
pub fn premium_article(set: Set) -> &'static str
    ensures { result.now ≡ articles.premium_article set }
{
    match set {
        Set::Nl => "Article 115",
        Set::Nslt => "Article 146",
    }
}

/// Lapse risk of obligations that are not similar to life.
pub fn lapse_article(set: Set) -> &'static str
    ensures { result.now ≡ articles.lapse_article set }
{
    match set {
        Set::Nl => "Article 118",
        Set::Nslt => "Article 150",
    }
}

/// A peril.
pub fn catastrophe_article(key: CatKey) -> &'static str
    ensures { result.now ≡ articles.catastrophe_article key }
{
    match key {
        CatKey::Windstorm => "Article 121",
        CatKey::Earthquake => "Article 122",
        CatKey::Flood => "Article 123",
        CatKey::Hail => "Article 124",
        CatKey::Subsidence => "Article 125",
        CatKey::NonProportionalProperty => "Article 127",
        CatKey::Motor => "Article 129",
        CatKey::Marine => "Article 130",
        CatKey::Aviation => "Article 131",
        CatKey::Fire => "Article 132",
        CatKey::Liability => "Article 133",
        CatKey::Credit => "Article 134",
        CatKey::Other => "Article 135",
        CatKey::MassAccident => "Article 161",
        CatKey::AccidentConcentration => "Article 162",
        CatKey::Pandemic => "Article 163",
    }
}

/// An adjustment for what absorbs losses.
pub fn adjustment_article(adjustment: Adjustment) -> &'static str
    ensures { result.now ≡ articles.adjustment_article adjustment }
{
    match adjustment {
        Adjustment::TechnicalProvisions => "Article 206",
        Adjustment::DeferredTaxes => "Article 207",
    }
}
