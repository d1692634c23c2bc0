//! How figures are found.
ghost use Rattle.std.specs.Prelude.{◌≡◌, ℕ, ◌+◌, map};
ghost use Rattle.scr_num.specs.Rounding.{Ends, ends};
ghost use Rattle.scr_reachability.specs.declared.ranks.Due.{Due};

use scr_io::Steps;
use scr_num::Span;
use scr_reachability::Due;
use std::sync::ledger::Ledger;

/// Figures by their numbers, each reckoned from those at the numbers of its sources.
pub trait Plan {
    /// The figure at a number.
    ghost worked: { Self → ℕ → Ends };

    /// The figure at a number is known.
    ghost is_known: { Self → ℕ → Type 0 };

    /// What is due can be reckoned from the figures of its sources.
    ghost is_due: { Self → Due → Type 0 };

    /// The figure at a number at which it is known.
    fn known(&self, number: u32) -> Span
        requires { is_known self.now number }
        ensures { ends result ≡ worked self.now number };

    /// The figure of what is due from those of its sources, in their order. It is one step.
    fn rule<L: Ledger>(&self, due: &Due, below: &[Span], steps: &mut Steps<L>) -> Span
        requires due { is_due self.now due.now }
        requires below { map ends below.now ≡ map (worked self.now) due.now.sources.items }
        ensures worked { ends result ≡ worked self.now due.now.number }
        ensures step { steps.new ≡ steps.old + 1 };
}
