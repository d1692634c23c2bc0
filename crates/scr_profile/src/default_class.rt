//! The classes of counterparties that share a probability of default.
ghost use Rattle.std.specs.Prelude.{◌≡◌, ◌<◌};
ghost use Rattle.scr_profile.specs.DefaultClasses.{class_of_step, first_step};

/// A class of counterparties that share a probability of default, told by their credit quality
/// steps (Delegated Regulation (EU) 2015/35, Article 199(2)).
#[derive(Clone, Copy, PartialEq, Eq)]
pub enum DefaultClass {
    Step0,
    Step1,
    Step2,
    Step3,
    Step4,
    /// Both steps have one probability. Counterparties without a step are of this class too (this
    /// project's own).
    Steps5And6,
}

impl DefaultClass {
    /// The class of a credit quality step, 0 to 6, or of counterparties without one.
    pub fn of_step(step: Option<u8>) -> DefaultClass
        ensures { result ≡ class_of_step step }
    {
        match step {
            Some(0) => DefaultClass::Step0,
            Some(1) => DefaultClass::Step1,
            Some(2) => DefaultClass::Step2,
            Some(3) => DefaultClass::Step3,
            Some(4) => DefaultClass::Step4,
            _ => DefaultClass::Steps5And6,
        }
    }

    /// The first credit quality step of the class, which is its place among all classes.
    pub fn first_step(self) -> u8
        ensures value { result ≡ first_step self }
        ensures few { first_step self < 6 }
    {
        match self {
            DefaultClass::Step0 => 0,
            DefaultClass::Step1 => 1,
            DefaultClass::Step2 => 2,
            DefaultClass::Step3 => 3,
            DefaultClass::Step4 => 4,
            DefaultClass::Steps5And6 => 5,
        }
    }
}
