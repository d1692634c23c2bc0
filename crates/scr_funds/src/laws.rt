//! What the definitions of parts, chains and edges come to, whatever a program does. Each law is a
//! function that does nothing, whose contract is the law; a proof above cites it from here.
ghost use Rattle.std.specs.Prelude.{◌≡◌, ◌⊎◌, ◌↔◌, ℕ, ◌+◌, ◌<◌, ◌≤◌, max, All, Bool, List, []};
ghost use Rattle.std.specs.Prelude.{Contains, Some, None, filter, length, map, nat_eq, sum, sum_by};
ghost use Rattle.std.specs.Bool.{Decides};
ghost use Rattle.std.specs.Cmp.Lexicographic.{pointwise};
ghost use Rattle.std.specs.List.{IsDistinct};
ghost use Rattle.scr_funds.specs.Parts.{first_parts, part_of};
ghost use Rattle.scr_funds.specs.Chains.{IsAcyclic, IsFirstShortest, LeadsTo};
ghost use Rattle.scr_funds.specs.Paths.{path_within};
ghost use Rattle.scr_funds.specs.LookThrough.{Shared, is_last, names_in, part_in, total};
ghost use Rattle.scr_funds.specs.Components.{Components, IsOrder, components_of, components_with};
ghost use Rattle.scr_funds.specs.Components.{number_above, size_of, with_components, with_edges};

/// The parts add up: none have nothing together, each adds its part, and all have the value.
pub fn parts()
    ensures none { (value : ℕ) (weights : List ℕ) → first_parts value weights 0 ≡ 0 }
    ensures step { (value : ℕ) (weights : List ℕ) (k : ℕ)
        → first_parts value weights k + part_of value weights k
        ≡ first_parts value weights (k + 1) }
    ensures all { (value : ℕ) (weights : List ℕ) → 0 < sum weights
        → first_parts value weights (length weights) ≡ value }
{}

/// A fund that gets components would hold itself exactly where one of them is the fund or leads
/// back to it. There is one first shortest chain at most.
pub fn chains()
    ensures cycle { (from : ℕ) (members : List ℕ) (all : Components) → components_of all from ≡ []
        → (LeadsTo (components_of (with_edges from members all)) from from)
        ↔ ((member : ℕ) × Contains members member
        × ((member ≡ from) ⊎ LeadsTo (components_of all) member from)) }
    ensures single { (components : ℕ → List ℕ) (from to : ℕ) (path other : List ℕ)
        → IsFirstShortest components from to path → IsFirstShortest components from to other
        → path ≡ other }
{}

/// The path that is computed between two names, each a list of bytes, is the first shortest chain.
/// There is none exactly where there is no chain, if `most` is no less than the number of names
/// that have components.
pub fn paths()
    ensures told { (same : List ℕ → List ℕ → Bool) → ((x y : List ℕ) → Decides (same x y) (x ≡ y))
        → (components : List ℕ → List (List ℕ))
        → (most : ℕ) (a b : List ℕ) (path : List (List ℕ))
        → path_within same components most a b ≡ Some path → IsFirstShortest components a b path }
    ensures none { (same : List ℕ → List ℕ → Bool) → ((x y : List ℕ) → Decides (same x y) (x ≡ y))
        → (components : List ℕ → List (List ℕ))
        → (most : ℕ) (holders : List (List ℕ))
        → ((x : List ℕ) → ¬ (components x ≡ []) → Contains holders x) → length holders ≤ most
        → (a b : List ℕ) → path_within same components most a b ≡ None → ¬ LeadsTo components a b }
    ensures is { (same : List ℕ → List ℕ → Bool) → ((x y : List ℕ) → Decides (same x y) (x ≡ y))
        → (components : List ℕ → List (List ℕ))
        → (most : ℕ) (holders : List (List ℕ))
        → ((x : List ℕ) → ¬ (components x ≡ []) → Contains holders x) → length holders ≤ most
        → (a b : List ℕ) (path : List (List ℕ)) → IsFirstShortest components a b path
        → path_within same components most a b ≡ Some path }
{}

/// What each fund has once edges are added, taken off or put back, and the size then.
pub fn edges()
    ensures none { IsOrder [] }
    ensures added { (from : ℕ) (members : List ℕ) (all : Components) (fund : ℕ)
        → components_of (with_edges from members all) fund ≡ components_with from members all fund }
    ensures replaced { (from : ℕ) (members : List ℕ) (all : Components) → from < size_of all
        → (fund : ℕ)
        → components_of (with_components from members all) fund
        ≡ components_with from members all fund }
    ensures raised { (from : ℕ) (members : List ℕ) (all : Components)
        → size_of (with_edges from members all) ≡ max (number_above from members) (size_of all) }
    ensures as_large { (from : ℕ) (members : List ℕ) (all : Components)
        → size_of (with_components from members all) ≡ size_of all }
    ensures back { (from : ℕ) (all : Components)
        → with_components from (components_of all from) (with_components from [] all) ≡ all }
    ensures taken_off { (from : ℕ) (all : Components) → IsOrder all
        → IsOrder (with_components from [] all) }
{}

/// Where each fund has a name of its own and none leads to itself, the total of a name is what is
/// held of it directly and its parts in the totals of all funds, and nothing else satisfies this.
/// No total is above all that is held directly, whatever the weights. Where moreover each fund with
/// components has weights to share by, the totals of the securities and the closed funds sum to all
/// that is held directly: looking through loses no cent and makes none.
pub fn look_through()
    ensures equation { (held : List ℕ → ℕ) (funds : List (Shared (List ℕ)))
        → IsDistinct (pointwise nat_eq) (map (λ fund. fund.0) funds)
        → IsAcyclic (names_in (pointwise nat_eq) funds) → (name : List ℕ)
        → total (pointwise nat_eq) held funds name
        ≡ held name + sum_by (λ fund. part_in (pointwise nat_eq)
        (total (pointwise nat_eq) held funds fund.0) fund.1 name) funds }
    ensures only { (held : List ℕ → ℕ) (funds : List (Shared (List ℕ)))
        → IsDistinct (pointwise nat_eq) (map (λ fund. fund.0) funds)
        → IsAcyclic (names_in (pointwise nat_eq) funds) → (found : List ℕ → ℕ)
        → ((name : List ℕ) → found name
        ≡ held name + sum_by (λ fund. part_in (pointwise nat_eq) (found fund.0) fund.1 name) funds)
        → (name : List ℕ) → found name ≡ total (pointwise nat_eq) held funds name }
    ensures whole { (held : List ℕ → ℕ) (funds : List (Shared (List ℕ)))
        → IsDistinct (pointwise nat_eq) (map (λ fund. fund.0) funds)
        → IsAcyclic (names_in (pointwise nat_eq) funds)
        → (names : List (List ℕ)) → IsDistinct (pointwise nat_eq) names
        → All (λ fund. Contains names fund.0) funds
        → All (λ fund. All (λ component. Contains names component.0) fund.1) funds
        → All (λ fund. 0 < length fund.1 → 0 < sum (map (λ component. component.1) fund.1)) funds
        → sum_by (total (pointwise nat_eq) held funds)
        (filter (is_last (pointwise nat_eq) funds) names) ≡ sum_by held names }
    ensures within { (held : List ℕ → ℕ) (funds : List (Shared (List ℕ)))
        → IsDistinct (pointwise nat_eq) (map (λ fund. fund.0) funds)
        → IsAcyclic (names_in (pointwise nat_eq) funds)
        → (names : List (List ℕ)) → IsDistinct (pointwise nat_eq) names
        → All (λ fund. Contains names fund.0) funds
        → All (λ fund. All (λ component. Contains names component.0) fund.1) funds
        → (name : List ℕ) → Contains names name
        → total (pointwise nat_eq) held funds name ≤ sum_by held names }
{}
