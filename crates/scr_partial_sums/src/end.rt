//! An end of a span as a table stores it.
ghost use Rattle.std.specs.Prelude.{◌≡◌};

use std::marker::Model;

/// The number of values of a word.
const WORD: u128 = 1 << 32;

/// A signed 128-bit number in four words of 32 bits, the lowest first. So it can be aligned to four bytes. Contracts see the
/// number.
#[derive(Drop)]
pub(crate) struct End {
    first: u32,
    second: u32,
    third: u32,
    fourth: u32,
}

impl Model for End {
    ghost use Rattle.std.specs.Prelude.{ℤ};

    ghost Value = { ℤ };

    ghost use Rattle.scr_partial_sums.specs.KeptEnds.{number_in};

    ghost view = { number_in };
}

impl End {
    /// The number in its stored form.
    pub(crate) fn new(number: i128) -> End
        ensures { result ≡ number }
    {
        let bits = number.cast_unsigned();
        let upper = bits / WORD;
        let high = upper / WORD;
        End {
            first: (bits % WORD) as u32,
            second: (upper % WORD) as u32,
            third: (high % WORD) as u32,
            fourth: (high / WORD) as u32,
        }
    }

    /// The number that is stored.
    pub(crate) fn number(&self) -> i128
        ensures { result ≡ self.now }
    {
        let high = self.third as u128 + self.fourth as u128 * WORD;
        let upper = self.second as u128 + high * WORD;
        (self.first as u128 + upper * WORD).cast_signed()
    }
}
