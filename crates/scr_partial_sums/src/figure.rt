//! Figures: a span, and whether it is open.
ghost use Rattle.std.specs.Prelude.{◌≡◌, ◌≤ℤ◌, pos, true, false};
ghost use Rattle.scr_partial_sums.specs.Tables.{IsOneAmount, nothing};

use scr_num::Span;

/// A figure: its span, and `close` if it rests on an open choice.
#[derive(Clone, Copy)]
pub struct Figure {
    pub span: Span,
    pub close: bool,
}

/// Whether the figure is 0 exactly and rests on no open choice.
pub fn is_nothing(figure: &Figure) -> bool
    ensures yes { result ≡ true → figure.now ≡ nothing }
    ensures not { result ≡ false → figure.now ≡ nothing → ⊥ }
{
    !figure.close && is_nil(figure.span)
}

/// Whether the figure is one exact amount from 0 to `most` and rests on no open choice.
pub(crate) fn is_amount(figure: &Figure, most: u64) -> bool
    ensures yes { result ≡ true → IsOneAmount most figure.now }
    ensures not { result ≡ false → IsOneAmount most figure.now → ⊥ }
{
    !figure.close && is_one(figure.span) && is_within(figure.span.low, most)
}

/// Whether both ends are equal.
fn is_one(span: Span) -> bool
    ensures yes { result ≡ true → span.low ≡ span.high }
    ensures not { result ≡ false → span.low ≡ span.high → ⊥ }
{
    span.low == span.high
}

/// Whether the number lies from 0 to `most`.
fn is_within(number: i128, most: u64) -> bool
    ensures yes { result ≡ true → (pos 0 ≤ℤ number) × (number ≤ℤ pos most) }
    ensures not { result ≡ false → pos 0 ≤ℤ number → number ≤ℤ pos most → ⊥ }
{
    number >= 0 && number <= i128::from(most)
}

/// Whether both ends are 0.
fn is_nil(span: Span) -> bool
    ensures yes { result ≡ true → (span.low ≡ pos 0) × (span.high ≡ pos 0) }
    ensures not { result ≡ false → span.low ≡ pos 0 → span.high ≡ pos 0 → ⊥ }
{
    span.low == 0 && span.high == 0
}
