//! The keys of a factor file.

ghost use Rattle.std.specs.Prelude.{◌≡◌, option_copied};
ghost use Rattle.scr_factors.specs.Keys.{key_name, key_table};

/// A key of the factor file, in the order in which they are read.
#[derive(Clone, Copy, Debug, PartialEq, Eq)]
pub enum Key {
    Form,
    SpreadS0,
    SpreadS1,
    SpreadS2,
    SpreadS3,
    SpreadS4,
    SpreadS5,
    SpreadS6,
    SpreadNone,
    NlPremium,
    NlReserve,
    NlCorr,
    NsltPremium,
    NsltReserve,
}

impl Key {
    /// The table that the key stands in, and `None` for a key of the file itself.
    pub fn table(self) -> Option<&'static str>
        ensures { option_copied result ≡ key_table self }
    {
        match self {
            Key::Form => None,
            Key::NlPremium | Key::NlReserve | Key::NlCorr => Some("nl"),
            Key::NsltPremium | Key::NsltReserve => Some("nslt"),
            _ => Some("spread"),
        }
    }

    /// The key's name in its table.
    pub fn name(self) -> &'static str
        ensures { result.now ≡ key_name self }
    {
        match self {
            Key::Form => "form",
            Key::SpreadS0 => "s0",
            Key::SpreadS1 => "s1",
            Key::SpreadS2 => "s2",
            Key::SpreadS3 => "s3",
            Key::SpreadS4 => "s4",
            Key::SpreadS5 => "s5",
            Key::SpreadS6 => "s6",
            Key::SpreadNone => "none",
            Key::NlPremium | Key::NsltPremium => "premium",
            Key::NlReserve | Key::NsltReserve => "reserve",
            Key::NlCorr => "corr",
        }
    }
}
