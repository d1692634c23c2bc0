//! What the members of a Block of the first level come to, from what they came to and from those that became others since.
ghost use Rattle.std.specs.Prelude.{◌≡◌, ◌+◌, ◌<◌, ◌≤◌, ◌+ℤ◌, true, false, All, Contains, IfSome, Some, drop, length, nat_eq, slice_get};
ghost use Rattle.std.specs.List.{IsDistinct};
ghost use Rattle.scr_num.specs.Rounding.{ends};
ghost use Rattle.scr_tree.specs.Order.{undone};
ghost use Rattle.scr_tree.specs.Renewed.{IsSumAt, IsSumOf, family_numbers, sum_at};
ghost use Rattle.scr_tree.specs.Together.{any_close};

use crate::figures::{Figure, Figures};
use crate::journal::Former;
use scr_num::Span;

/// So many former figures are gone through for one Block sooner than its members are added up.
const FEW: usize = 64;

/// The figures as they stand, and the former ones of those that became others.
#[derive(Clone, Copy)]
pub(crate) struct Rewritten<'a> {
    pub(crate) figures: &'a Figures,
    pub(crate) former: &'a [Former],
}

impl<'a> Rewritten<'a> {
    /// What the figures of one family of the rows with these first numbers come to together, where they came to the figure at a number. None
    /// where that rested on an open choice, or one does that a figure of theirs became, or many became others.
    pub(crate) fn renewed(&self, number: u32, firsts: &[u32], family: u32) -> Option<Figure>
        requires members { All (λ number. number < length self.now.figures.now) (family_numbers family firsts.now) }
        requires once { IsDistinct nat_eq (family_numbers family firsts.now) }
        requires was { IsSumAt (undone self.now.former.now self.now.figures.now) (family_numbers family firsts.now) number }
        ensures { IfSome result (IsSumOf self.now.figures.now (family_numbers family firsts.now)) }
    {
        if self.former.len() > FEW {
            return None;
        }
        let was = self.figure_before(0, number);
        if was.close {
            return None;
        }
        let span = self.renewed_sum(was.span, firsts, family)?;
        Some(Figure { span, close: false })
    }

    /// What they come to, from what they came to: then none of them rested on an open choice, and none does now.
    fn renewed_sum(&self, sum: Span, firsts: &[u32], family: u32) -> Option<Span>
        requires members { All (λ number. number < length self.now.figures.now) (family_numbers family firsts.now) }
        requires once { IsDistinct nat_eq (family_numbers family firsts.now) }
        requires sum { ends sum ≡ sum_at (undone self.now.former.now self.now.figures.now) (family_numbers family firsts.now) }
        requires settled { any_close (undone self.now.former.now self.now.figures.now) (family_numbers family firsts.now) ≡ false }
        ensures sum { IfSome result (λ span. ends span ≡ sum_at self.now.figures.now (family_numbers family firsts.now)) }
        ensures settled { IfSome result (λ span. any_close self.now.figures.now (family_numbers family firsts.now) ≡ false) }
    {
        let Span { mut low, mut high } = sum;
        for place in 0..self.former.len() {
            let was = self.former[place];
            if is_among(firsts, family, was.number) {
                let now = self.figure_before(place + 1, was.number);
                if now.close {
                    return None;
                }
                low = exchanged(low, &was.figure.span.low, &now.span.low)?;
                high = exchanged(high, &was.figure.span.high, &now.span.high)?;
            }
        }
        Some(Span { low, high })
    }

    /// The figure that stood at a number before those from a place on became others.
    fn figure_before(&self, place: usize, number: u32) -> Figure
        requires place { place ≤ length self.now.former.now }
        requires within { number < length self.now.figures.now }
        ensures { slice_get (undone (drop place self.now.former.now) self.now.figures.now) number ≡ Some result }
    {
        for at in place..self.former.len() {
            let was = self.former[at];
            if was.number == number {
                return was.figure;
            }
        }
        self.figures.figure(number as usize)
    }
}

/// One of the figures of one family of the rows with these first numbers has this number.
fn is_among(firsts: &[u32], family: u32, number: u32) -> bool
    ensures yes { result ≡ true → Contains (family_numbers family firsts.now) number }
    ensures not { result ≡ false → Contains (family_numbers family firsts.now) number → ⊥ }
{
    if number < family {
        return false;
    }
    let own = number - family;
    let mut found = false;
    for first in firsts {
        found |= *first == own;
    }
    found
}

/// A sum of which one part was so much and is so much now, where it is in range.
fn exchanged(sum: i128, was: &i128, now: &i128) -> Option<i128>
    ensures { IfSome result (λ new. new +ℤ was.now ≡ sum +ℤ now.now) }
{
    sum.checked_sub(*was)?.checked_add(*now)
}
