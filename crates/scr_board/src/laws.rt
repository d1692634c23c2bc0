//! What the definitions of a round come to, whatever a program does. Each law is a function that
//! does nothing, whose contract is the law; a proof above cites it from here.
ghost use Rattle.std.specs.Prelude.{◌≡◌, ℕ, ◌<◌, ◌≤◌, length};
ghost use mathlib.Core.Option.{some};
ghost use lib.ListN.{get_elem?};
ghost use Rattle.scr_board.specs.declared.lists.Progress.{Progress};
ghost use Rattle.scr_board.specs.declared.lists.Round.{Round};
ghost use Rattle.scr_board.specs.Counts.{times, total};
ghost use Rattle.scr_board.specs.Rounds.{IsFormed, count_of, sources_of, word_of};
ghost use Rattle.scr_board.specs.States.{State, named};
ghost use Rattle.scr_board.specs.Events.{IsStep, joins};
ghost use Rattle.scr_board.specs.Sound.{IsAtEnd, IsOpening, IsRun, IsSound};

/// An opening state is sound, each event leads from a sound state to a sound state, and so every
/// state of every run is sound.
pub fn soundness()
    ensures opening { (round : Round) (workers : ℕ) (s : State) → 0 < workers
        → IsOpening round workers s → IsSound round workers s }
    ensures step { (round : Round) (workers : ℕ) → IsFormed round → (s t : State)
        → IsStep round s t → IsSound round workers s → IsSound round workers t }
    ensures run { (round : Round) (workers : ℕ) → IsFormed round → 0 < workers → (s : State)
        → IsRun round workers s → IsSound round workers s }
{}

/// In a sound state no node is named twice, and where a node is named, each of its sources was put
/// and the words of that source are its listed ones.
pub fn order()
    ensures once { (round : Round) (workers : ℕ) → IsFormed round → (s : State)
        → IsSound round workers s → (n : ℕ) → total (named n) s.passes ≤ 1 }
    ensures sources { (round : Round) (workers : ℕ) → IsFormed round → (s : State)
        → IsSound round workers s → (n m : ℕ) → 0 < times m (sources_of round n)
        → 0 < total (named n) s.passes → 0 < total (λ p. times m p.put) s.passes }
    ensures words { (round : Round) (workers : ℕ) → IsFormed round → (s : State)
        → IsSound round workers s → (n m j : ℕ) → 0 < times m (sources_of round n)
        → 0 < total (named n) s.passes → j < 4 → s.word m j ≡ word_of round m j }
{}

/// In a sound state in which one pass is at its end and has the whole share, that pass has put
/// every node, each once. A pass at its end that takes over another at its end is at its end.
pub fn end()
    ensures each { (round : Round) (workers : ℕ) → IsFormed round → (s : State)
        → IsSound round workers s → (id : ℕ) (p : Progress) → get_elem? s.passes id ≡ some p
        → IsAtEnd round p → p.share ≡ workers → (n : ℕ) → n < count_of round
        → times n p.put ≡ 1 }
    ensures count { (round : Round) (workers : ℕ) → IsFormed round → (s : State)
        → IsSound round workers s → (id : ℕ) (p : Progress) → get_elem? s.passes id ≡ some p
        → IsAtEnd round p → p.share ≡ workers → length p.put ≡ count_of round }
    ensures join { (round : Round) (p o : Progress) → IsAtEnd round p → IsAtEnd round o
        → IsAtEnd round (joins p o) }
{}
