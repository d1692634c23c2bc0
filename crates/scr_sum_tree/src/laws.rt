//! Laws of Blocks and sums, for proofs above to cite.
ghost use Rattle.std.specs.Prelude.{◌≡◌, ◌↔◌, ◌⊎◌, ℕ, ◌+◌, ◌-◌, ◌/◌, ◌<◌, ◌≤◌, ◌==◌, ◌++◌, ◌∷◌, [], Bool, List, Contains, Some, false, filter, flat_map, length, map, nat_eq, nat_lt, slice_get, true};
ghost use Rattle.std.specs.Bool.{Decides};
ghost use Rattle.std.specs.List.{IsDistinct, list_any, range_with_len};
ghost use Rattle.std.specs.Option.{option_map_or};
ghost use Rattle.scr_tables.specs.Names.{same_name};
ghost use Rattle.scr_tables.specs.Tables.{row_of};
ghost use Rattle.scr_num.specs.Rounding.{Ends};
ghost use Rattle.scr_num.specs.Sizes.{AreTogether};
ghost use Rattle.scr_num.specs.Sums.{sum_ends};
ghost use Rattle.scr_sum_tree.specs.Blocks.{HasEachOnce, below, block_of, block_sources, blocks_at, end_of, is_block, start_of, top_count, tops};
ghost use Rattle.scr_sum_tree.specs.ChangedBlocks.{IsChangedBlock, Leaves, came, coming, leaving, went};
ghost use Rattle.scr_sum_tree.specs.Readers.{AreApart, IsReader, added_by, reader_of_block, reader_of_member};
ghost use Rattle.scr_sum_tree.specs.Sums.{AddsUp, AreSums, total};
ghost use Rattle.scr_sum_tree.specs.declared.blocks.Level.{Level};
ghost use Rattle.scr_sum_tree.specs.declared.blocks.Level.TheVariants as levels;
ghost use Rattle.scr_sum_tree.specs.declared.readers.Reader.{Reader};

use crate::{Level, Reader};

/// Numbers of Blocks. They are numbered from 0 on each level, and each adds up 1 to 32 nodes. A list of at most 32,768 members
/// leaves at most 32 at the top. No list has more Blocks than members.
pub fn sizes<N, D>()
    ensures numbered { (count : ℕ) (level : Level) (i : ℕ) → is_block count level i ≡ nat_lt i (blocks_at count level) }
    ensures sources { (member : N → D) (block : Level → ℕ → D) (list : List N) (level : Level) (i : ℕ)
        → is_block (length list) level i ≡ true
        → (1 ≤ length (block_sources member block list level i)) × (length (block_sources member block list level i) ≤ 32) }
    ensures tops { (member : N → D) (block : Level → ℕ → D) (list : List N)
        → length (tops member block list) ≡ top_count (length list) }
    ensures few { (count : ℕ) → count ≤ 32768 → top_count count ≤ 32 }
    ensures fewer { (count : ℕ) → blocks_at count levels.First + blocks_at count levels.Second ≤ count }
{}

/// The Blocks of a level partition the list: each position is spanned by exactly one. A Block of the second level spans what its
/// Blocks span. The sources of a level's Blocks in order are all nodes below, each once.
pub fn partition<N, D>()
    ensures own { (count : ℕ) (level : Level) (place : ℕ) → 0 < blocks_at count level → place < count
        → is_block count level (block_of level place) ≡ true }
    ensures spans { (count : ℕ) (level : Level) (place i : ℕ) → is_block count level i ≡ true → place < count
        → Decides (i == block_of level place) ((start_of count level i ≤ place) × (place < end_of count level i)) }
    ensures nested { (place : ℕ) → block_of levels.Second place ≡ block_of levels.First place / 32 }
    ensures all { (member : N → D) (block : Level → ℕ → D) (list : List N) (level : Level) → 0 < blocks_at (length list) level
        → flat_map (block_sources member block list level) (range_with_len 0 (blocks_at (length list) level))
        ≡ below member block list level }
{}

/// The reader of a node is the only reader that adds it up, if members and nodes are distinct. No reader adds up a node twice, or
/// any but members and Blocks of the list.
pub fn readers<N, D>()
    ensures there { (count : ℕ) (place : ℕ) → place < count → IsReader count (reader_of_member count place) }
    ensures above { (count : ℕ) (level : Level) (i : ℕ) → is_block count level i ≡ true → IsReader count (reader_of_block count level i) }
    ensures member { (member : N → D) (block : Level → ℕ → D) → AreApart member block → (list : List N) → HasEachOnce list
        → (place : ℕ) (name : N) → slice_get list place ≡ Some name → (reader : Reader) → IsReader (length list) reader
        → Contains (added_by member block list reader) (member name) ↔ (reader ≡ reader_of_member (length list) place) }
    ensures block { (member : N → D) (block : Level → ℕ → D) → AreApart member block → (list : List N) (level : Level) (i : ℕ)
        → is_block (length list) level i ≡ true → (reader : Reader) → IsReader (length list) reader
        → Contains (added_by member block list reader) (block level i) ↔ (reader ≡ reader_of_block (length list) level i) }
    ensures once { (member : N → D) (block : Level → ℕ → D) → AreApart member block → (list : List N) → HasEachOnce list
        → (reader : Reader) → HasEachOnce (added_by member block list reader) }
    ensures only { (member : N → D) (block : Level → ℕ → D) (list : List N) (reader : Reader) → IsReader (length list) reader
        → (node : D) → Contains (added_by member block list reader) node
        → ((name : N) × Contains list name × (member name ≡ node))
        ⊎ ((level : Level) × (i : ℕ) × (is_block (length list) level i ≡ true) × (block level i ≡ node)) }
{}

/// The nodes at the top have the members' sum, if each Block is the sum of its sources. It holds for any operator that may be
/// regrouped, for ends, and for whether one of several holds.
pub fn regrouped<N, D, S>()
    ensures total { (nothing : S) (add : S → S → S) → AddsUp nothing add
        → (worth : D → S) (member : N → D) (block : Level → ℕ → D) (list : List N)
        → AreSums (total nothing add) worth member block list
        → total nothing add (map worth (tops member block list)) ≡ total nothing add (map worth (map member list)) }
    ensures ends { (worth : D → Ends) (member : N → D) (block : Level → ℕ → D) (list : List N)
        → AreSums sum_ends worth member block list
        → sum_ends (map worth (tops member block list)) ≡ sum_ends (map worth (map member list)) }
    ensures any { (holds : D → Bool) (member : N → D) (block : Level → ℕ → D) (list : List N)
        → AreSums (list_any (λ b. b)) holds member block list
        → list_any (λ b. b) (map holds (tops member block list)) ≡ list_any (λ b. b) (map holds (map member list)) }
{}

/// A bound on the members' sum without signs also bounds the nodes at the top and each Block's sources. Each Block must be the sum
/// of its sources.
pub fn together<N, D>()
    ensures tops { (worth : D → Ends) (member : N → D) (block : Level → ℕ → D) (list : List N)
        → AreSums sum_ends worth member block list
        → (most : ℕ) → AreTogether most (map worth (map member list))
        → AreTogether most (map worth (tops member block list)) }
    ensures sources { (worth : D → Ends) (member : N → D) (block : Level → ℕ → D) (list : List N)
        → AreSums sum_ends worth member block list
        → (most : ℕ) → AreTogether most (map worth (map member list))
        → (level : Level) (i : ℕ) → is_block (length list) level i ≡ true
        → AreTogether most (map worth (block_sources member block list level i)) }
{}

/// Two lists of equal names, each once, have one sum in any order. So a member list has the sum of the rows that pass the list's
/// test.
pub fn orders<R, S>()
    ensures total { (nothing : S) (add : S → S → S) → AddsUp nothing add
        → (worth : List ℕ → S) (names others : List (List ℕ)) → IsDistinct same_name names → IsDistinct same_name others
        → ((name : List ℕ) → list_any (same_name name) names ≡ list_any (same_name name) others)
        → total nothing add (map worth names) ≡ total nothing add (map worth others) }
    ensures rows { (nothing : S) (add : S → S → S) → AddsUp nothing add
        → (name_of : R → List ℕ) (test : R → Bool) (worth : List ℕ → S) (rows : List R) (list : List (List ℕ))
        → IsDistinct same_name (map name_of rows) → IsDistinct same_name list
        → ((name : List ℕ) → list_any (same_name name) list ≡ option_map_or test (row_of name_of name rows) false)
        → total nothing add (map worth (map name_of (filter test rows))) ≡ total nothing add (map worth list) }
    ensures ends { (name_of : R → List ℕ) (test : R → Bool) (worth : List ℕ → Ends) (rows : List R) (list : List (List ℕ))
        → IsDistinct same_name (map name_of rows) → IsDistinct same_name list
        → ((name : List ℕ) → list_any (same_name name) list ≡ option_map_or test (row_of name_of name rows) false)
        → sum_ends (map worth (map name_of (filter test rows))) ≡ sum_ends (map worth list) }
    ensures any { (name_of : R → List ℕ) (test : R → Bool) (holds : List ℕ → Bool) (rows : List R) (list : List (List ℕ))
        → IsDistinct same_name (map name_of rows) → IsDistinct same_name list
        → ((name : List ℕ) → list_any (same_name name) list ≡ option_map_or test (row_of name_of name rows) false)
        → list_any (λ b. b) (map holds (map name_of (filter test rows))) ≡ list_any (λ b. b) (map holds list) }
{}

/// The Blocks that change are exactly the ones that `came` and `went` name. The nodes at the top change only with their number.
/// For swap-removal no member's node may occur twice.
pub fn changes<N, D>()
    ensures came { (member : N → D) (block : Level → ℕ → D) (list : List N) (name : N) (level : Level) (i : ℕ)
        → Decides (came (length list) level i) (IsChangedBlock member block list (list ++ name ∷ []) level i) }
    ensures went { (member : N → D) (block : Level → ℕ → D) (list after : List N) (place : ℕ) → Leaves place list after
        → HasEachOnce (map member list) → (level : Level) (i : ℕ)
        → Decides (went (length list) place level i) (IsChangedBlock member block list after level i) }
    ensures tops { (member : N → D) (block : Level → ℕ → D) (few many : List N) → length many ≡ length few + 1
        → Decides (nat_eq (top_count (length few)) (top_count (length many)))
        (tops member block few ≡ tops member block many) }
    ensures once { (member : List ℕ → D) → ((a b : List ℕ) → member a ≡ member b → a ≡ b)
        → (list : List (List ℕ)) → IsDistinct same_name list → HasEachOnce (map member list) }
{}

/// The lists of changing Blocks are exact and name each once: at most three when a member is appended, at most four when one is
/// swap-removed.
pub fn listed()
    ensures came { (count : ℕ) (level : Level) (i : ℕ) → Decides (came count level i) (Contains (coming count level) i) }
    ensures came_once { (count : ℕ) (level : Level) → IsDistinct nat_eq (coming count level) }
    ensures came_few { (count : ℕ)
        → length (coming count levels.First) + length (coming count levels.Second) ≤ 3 }
    ensures went { (count place : ℕ) → place < count → (level : Level) (i : ℕ)
        → Decides (went count place level i) (Contains (leaving count place level) i) }
    ensures went_once { (count place : ℕ) (level : Level) → IsDistinct nat_eq (leaving count place level) }
    ensures went_few { (count place : ℕ)
        → length (leaving count place levels.First) + length (leaving count place levels.Second) ≤ 4 }
{}

/// Levels and readers may be shared between threads and sent to them.
pub fn sharing() {
    shared::<Level>();
    shared::<Reader>();
}

// Compiles only where threads may share a `T` and hand it on.
fn shared<T: Send + Sync>() {}
