//! What the round of what is due comes to, whatever a program does. Each law is a function that does
//! nothing, whose contract is the law.
ghost use Rattle.std.specs.Prelude.{◌≡◌, ℕ, List, length, nat_eq};
ghost use Rattle.std.specs.List.{AllByRecursion, IsDistinct};
ghost use Rattle.scr_board.specs.Rounds.{IsRound};
ghost use Rattle.scr_reachability.specs.declared.ranks.Due.{Due};
ghost use Rattle.scr_reachability.specs.Dues.{IsSchedule};
ghost use Rattle.scr_reachability.specs.Ranks.{rank_at};
ghost use Rattle.scr_subgraph.specs.Slots.{IsRoundOf, Lists, sources_at};

/// Dues of which none is reckoned from itself, and none from a figure twice, make a round: each is
/// among the dependants of just its sources, once, and those without a source are the starts.
pub fn rounds()
    ensures { (dues : List Due) (levels : ℕ) (round : Lists) → IsSchedule dues levels
        → AllByRecursion (λ (due : Due). IsDistinct nat_eq due.sources.items) dues
        → IsRoundOf dues round
        → IsRound (length dues) (sources_at round) (rank_at round.dependants) round.starts }
{}
