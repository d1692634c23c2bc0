//! How figures come from their sources.
ghost use Rattle.std.specs.Prelude.{◌≡◌, option_map};
ghost use Rattle.scr_figure_titles.specs.Steps as steps;

/// How a figure comes from its sources.
#[derive(Clone, Copy, PartialEq, Eq)]
pub enum Step {
    Records,
    LookThrough,
    Discounted,
    Product,
    Factor,
    LossSum,
    Exposure,
    Sum,
    Share,
    Excess,
    Squares,
    Variance,
    Band,
    Deviation,
    Root,
    RootOfSum,
    RootWithLapse,
    ThreeRoots,
    Modules,
    Absorbed,
    Choice,
    Chosen,
    Charge,
    Benefits,
    Taxes,
    Diversification,
}

impl Step {
    /// The step in words.
    pub fn words(self) -> &'static str
        ensures { result.now ≡ steps.step_words self }
    {
        match self {
            Step::Records => "reckoned from the records of the book",
            Step::LookThrough => "what is held itself, and its parts of the funds that hold it",
            Step::Discounted => "its payments, discounted",
            Step::Product => "what is held of it, times the loss of a unit",
            Step::Factor => "what is held of it, times the factor of its step and duration",
            Step::LossSum => "the sum of its sources, a gain counting as nil",
            Step::Exposure =>
                "a quarter of the difference between what is held and what is owed, a gain counting as nil",
            Step::Sum => "the sum of its sources",
            Step::Share => "a fixed share of its sources",
            Step::Excess => "the excess over the threshold times its charge, squared",
            Step::Squares => "the sum of the squares of its sources",
            Step::Variance => "sums and squares, weighted by the probabilities of default",
            Step::Band => "by the deviation as a share of all losses",
            Step::Deviation => "the deviation times the factor of its band",
            Step::Root => "the root over its sources by their correlations",
            Step::RootOfSum => "the root of the sum of its sources",
            Step::RootWithLapse => "the root over its sources and lapse risk by their correlations",
            Step::ThreeRoots => "three times the root over its sources by their correlations",
            Step::Modules =>
                "the root over its sources by their correlations, and intangible asset risk",
            Step::Absorbed => "its source less what technical provisions absorb, at least nil",
            Step::Choice => "the greatest net amount decides",
            Step::Chosen => "the amount of the scenario that decides",
            Step::Charge =>
                "the greater of premiums and provisions, at most the cap, and a quarter of the expenses",
            Step::Benefits =>
                "how far net is below gross, at most the future discretionary benefits",
            Step::Taxes => "the rate of tax on what is lost, at most the cap",
            Step::Diversification => "the sum of the modules less their root",
        }
    }

    /// What takes the amount by which the sources of a figure together exceed it, where a step has such.
    pub fn taking(self) -> Option<&'static str>
        ensures { option_map (λ words. words.now) result ≡ steps.taking self }
    {
        match self {
            Step::Root => Some("correlation takes"),
            Step::Modules => Some("correlation less intangible asset risk takes"),
            Step::Absorbed => Some("absorption takes"),
            _ => None,
        }
    }
}
