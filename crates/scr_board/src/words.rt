//! The four words in which the board keeps a figure.
ghost use Rattle.std.specs.Prelude.{◌≡◌, ℤ};
ghost use Rattle.scr_board.specs.Words.{IsWithin, lower, upper};

const WORD: u128 = 1 << 64;

const HALF: u128 = 1 << 127;

/// The two words of an end, the upper one first.
pub(crate) fn halves(end: &i128) -> (u64, u64)
    ensures upper { result.0 ≡ upper end.now }
    ensures lower { result.1 ≡ lower end.now }
    ensures within { IsWithin end.now }
{
    let end = *end;
    let raised = if end < 0 {
        (end + i128::MAX + 1) as u128
    } else {
        end as u128 + HALF
    };
    ((raised / WORD) as u64, (raised % WORD) as u64)
}

/// The end that has these two words.
pub(crate) fn whole(first: u64, second: u64) -> i128
    ensures { (end : ℤ) → IsWithin end → first ≡ upper end → second ≡ lower end → result ≡ end }
{
    let raised = first as u128 * WORD + second as u128;
    if raised < HALF {
        raised as i128 - i128::MAX - 1
    } else {
        (raised - HALF) as i128
    }
}
