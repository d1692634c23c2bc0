//! Laws of reachability and of chains of dues, for proofs above to cite.
ghost use Rattle.std.specs.Prelude.{ℕ, ◌≤◌, Bool, Contains, IsTrue, List};
ghost use Rattle.scr_links.specs.Edges.{Edge};
ghost use Rattle.scr_reachability.specs.declared.ranks.Due.{Due};
ghost use Rattle.scr_reachability.specs.Dues.{EndsIn};
ghost use Rattle.scr_reachability.specs.Reached.{AreReached};

/// The reached numbers are the least set with all starts, and with the dependant of each edge whose source it has.
pub fn reached()
    ensures begun { (edges : List Edge) (starts list : List ℕ) → AreReached edges starts list
        → (n : ℕ) → Contains starts n → Contains list n }
    ensures closed { (edges : List Edge) (starts list : List ℕ) → AreReached edges starts list
        → (edge : Edge) → Contains edges edge → Contains list edge.source
        → Contains list edge.dependant }
    ensures least { (edges : List Edge) (starts list : List ℕ) → AreReached edges starts list
        → (test : ℕ → Bool) → ((n : ℕ) → Contains starts n → IsTrue (test n))
        → ((edge : Edge) → Contains edges edge → IsTrue (test edge.source)
        → IsTrue (test edge.dependant)) → (n : ℕ) → Contains list n → IsTrue (test n) }
{}

/// A chain that ends within `k` levels ends within any larger number of them.
pub fn ends()
    ensures { (dues : List Due) (k m n : ℕ) → k ≤ m → EndsIn dues k n → EndsIn dues m n }
{}
