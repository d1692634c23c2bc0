//! The units in which figures are reckoned, and how they are told.
ghost use Rattle.std.specs.Prelude.{◌≡◌};
ghost use Rattle.scr_figure_titles.specs.Units as units;

/// The unit of a figure. Those of the last three are no amounts: they say which of several
/// alternatives may decide, one bit for each.
#[derive(Clone, Copy, PartialEq, Eq)]
pub enum Unit {
    /// Cents.
    Cents,
    /// Thousandths of a cent.
    Grains,
    /// 10^-9 cents.
    Nanocents,
    /// 10^-18 cents.
    Attocents,
    /// 10^-18, of 1,000,000.
    Millionth,
    /// Squares of 10^-5 cents.
    FineSquares,
    /// Squares of a thousandth of a cent.
    GrainSquares,
    /// A rise and a fall.
    Movements,
    /// More, fewer and mass lapses.
    Lapses,
    /// The bands of a standard deviation.
    Bands,
}

impl Unit {
    /// How many units make a hundredth of what is told: a cent, or a hundredth of a square of the
    /// currency's unit, or of a part in 1,000,000.
    pub fn scale(self) -> u64
        ensures { result ≡ units.scale self }
    {
        match self {
            Unit::Cents | Unit::Movements | Unit::Lapses | Unit::Bands => 1,
            Unit::Grains => 1_000,
            Unit::Nanocents => 1_000_000_000,
            Unit::Attocents => 1_000_000_000_000_000_000,
            Unit::Millionth => 10_000_000_000_000_000,
            Unit::FineSquares => 1_000_000_000_000,
            Unit::GrainSquares => 100_000_000,
        }
    }

    /// What is told behind an amount.
    pub fn mark(self) -> &'static str
        ensures { result.now ≡ units.mark self }
    {
        match self {
            Unit::Cents
            | Unit::Grains
            | Unit::Nanocents
            | Unit::Attocents
            | Unit::Movements
            | Unit::Lapses
            | Unit::Bands => "",
            Unit::Millionth => " in 1,000,000",
            Unit::FineSquares | Unit::GrainSquares => " squared",
        }
    }

    /// The unit is that of an amount.
    pub fn is_amount(self) -> bool
        ensures { result ≡ units.is_amount self }
    {
        !matches!(self, Unit::Movements | Unit::Lapses | Unit::Bands)
    }

    /// The first alternative, of which the lowest bit of a figure says whether it may decide.
    pub fn first(self) -> &'static str
        ensures { result.now ≡ units.first self }
    {
        match self {
            Unit::Lapses => "more lapses",
            Unit::Bands => "three times the deviation",
            _ => "rise",
        }
    }

    /// The second alternative.
    pub fn second(self) -> &'static str
        ensures { result.now ≡ units.second self }
    {
        match self {
            Unit::Lapses => "fewer lapses",
            Unit::Bands => "five times the deviation",
            _ => "fall",
        }
    }

    /// The third alternative, where there is one.
    pub fn third(self) -> &'static str
        ensures { result.now ≡ units.third self }
    {
        match self {
            Unit::Lapses => "mass lapse",
            Unit::Bands => "all losses",
            _ => "",
        }
    }
}
