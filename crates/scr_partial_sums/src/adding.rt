//! Sums over the figures of members.
ghost use Rattle.std.specs.Prelude.{◌≡◌, ◌+◌, ◌<◌, ◌^◌, All, length};
ghost use Rattle.scr_num.specs.Rounding.{ends};
ghost use Rattle.scr_num.specs.Sizes.{AreTogether};
ghost use Rattle.scr_num.specs.Sums.{sum_ends};
ghost use Rattle.scr_partial_sums.specs.Figures.{members_ends};
ghost use Rattle.scr_partial_sums.specs.Written.{any_open};

use crate::{Figure, Figures};
use scr_num::{Span, add, exact};

/// The sum of figure `family` over the rows whose ids begin at `firsts`.
pub fn add_members(figures: &Figures, firsts: &[u32], family: u32) -> Span
    requires within { All (λ first. first + family < length figures.now) firsts.now }
    requires together { AreTogether (2 ^ 124) (members_ends figures.now family firsts.now) }
    ensures { ends result ≡ sum_ends (members_ends figures.now family firsts.now) }
{
    add_figures(figures, firsts, family).span
}

/// The sum of figure `family` over the rows whose ids begin at `firsts`, as a figure; open if any summand is.
pub fn add_figures(figures: &Figures, firsts: &[u32], family: u32) -> Figure
    requires within { All (λ first. first + family < length figures.now) firsts.now }
    requires together { AreTogether (2 ^ 124) (members_ends figures.now family firsts.now) }
    ensures span { ends result.span ≡ sum_ends (members_ends figures.now family firsts.now) }
    ensures close { result.close ≡ any_open figures.now family firsts.now }
{
    let mut span = exact(0);
    let mut close = false;
    for first in firsts {
        let number = *first as usize + family as usize;
        let figure = figures.figure(number);
        span = add(span, figure.span);
        close |= figure.close;
    }
    Figure { span, close }
}
