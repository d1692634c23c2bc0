//! What every run owes, whatever its plan.
ghost use Rattle.std.specs.Prelude.{◌≡◌, ◌<◌, ◌≤◌, ◌⊎◌, ℕ, List, Result, Err, length};
ghost use Rattle.scr_io.specs.Front.{AppendsFront};
ghost use Rattle.scr_obligations.specs.Answers.{GaveUpUnwritten, HasItsCause, IsDueUnwritten, IsWhole};
ghost use Rattle.scr_obligations.specs.Moment.{Answer, Shelved, Sunk};
ghost use Rattle.scr_obligations.specs.Moment.Answer.{Due};
ghost use Rattle.scr_obligations.specs.Outcome.{Calls, NoneLacks, outcome};
ghost use Rattle.scr_obligations.specs.Outcome.Outcome.{Ends, Lacking, Tells};
ghost use Rattle.scr_obligations.specs.Owes.{Owes};
ghost use Rattle.scr_obligations.specs.Plan.{Plan, and_then, limited};

/// What a run that owes this plan has done: from what the shelf and the sink told before, to what
/// they tell now, and how it answered. Each answer has its cause, and a status that is due is one
/// that bytes which the files may have call for. Where all files are told and their text is due,
/// what was written is a front of it, and the whole of it unless a fault rose or memory was
/// refused; where they end the run, nothing was written, and no later name was opened. Where a file
/// is absent, nothing was written. Absent names are opened only where the plan asks for one.
pub fn of_plans<S>()
    ensures cause { (plan : Plan S) (before now : Shelved) (old new : Sunk) (answer : Answer S)
        → Owes plan before now old new answer → HasItsCause before now old new answer }
    ensures called_for { (plan : Plan S) (before now : Shelved) (old new : Sunk) (status : S)
        → Owes plan before now old new (Due status) → Calls plan before.content status }
    ensures whole { (plan : Plan S) (before now : Shelved) (old new : Sunk) (answer : Answer S)
        (due : S) (text : List ℕ)
        → outcome plan before.content ≡ Tells due text → Owes plan before now old new answer
        → IsWhole due text before now old new answer }
    ensures front { (plan : Plan S) (before now : Shelved) (old new : Sunk) (answer : Answer S)
        (due : S) (text : List ℕ)
        → outcome plan before.content ≡ Tells due text → Owes plan before now old new answer
        → AppendsFront old.written new.written text }
    ensures ended { (plan : Plan S) (before now : Shelved) (old new : Sunk) (answer : Answer S)
        (due : S)
        → outcome plan before.content ≡ Ends due → Owes plan before now old new answer
        → IsDueUnwritten due before now answer × (now.strays ≡ before.strays) × (new ≡ old) }
    ensures lacking { (plan : Plan S) (before now : Shelved) (old new : Sunk) (answer : Answer S)
        → outcome plan before.content ≡ Lacking → Owes plan before now old new answer
        → GaveUpUnwritten before now answer × (new ≡ old) }
    ensures strays { (plan : Plan S) (before now : Shelved) (old new : Sunk) (answer : Answer S)
        → Owes plan before now old new answer → before.strays ≤ now.strays }
    ensures no_stray { (plan : Plan S) (before now : Shelved) (old new : Sunk) (answer : Answer S)
        → NoneLacks plan before.content → Owes plan before now old new answer
        → now.strays ≡ before.strays }
{}

/// A file within a limit calls for a status only where it is too long, or where what its bytes
/// stand for calls for it.
pub fn of_limits<S, V>()
    ensures refused { (most : ℕ) (too_long due : S) (next : List ℕ → Result V S) (bytes : List ℕ)
        → and_then next (limited most too_long bytes) ≡ Err due
        → ((due ≡ too_long) × (most < length bytes)) ⊎ (next bytes ≡ Err due) }
{}
