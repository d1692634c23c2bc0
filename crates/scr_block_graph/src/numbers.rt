//! The ids of Blocks, and laws of them. Laws of figures and Blocks together (`PointAt`) follow for every relation that gives
//! figures their ids (proofs BlockNumbers).
ghost use Rattle.std.specs.Prelude.{◌≡◌, ◌<◌, ◌≤◌, ◌^◌, ◌==◌, ℕ, IfSome, IsNone, None, Option, Some, if◌then◌else◌, true};
ghost use Rattle.scr_ids.specs.Ranges.{IsApart, IsWithin, Numbered};
ghost use Rattle.scr_sum_slots.specs.Parts.{AreOwn, Parted};
ghost use Rattle.scr_sheet.specs.declared.roll.Roll.{Roll as TheRoll};
ghost use Rattle.scr_sheet.specs.declared.roll.Roll.TheVariants as rolls;
ghost use Rattle.scr_book.specs.Rolls.{AreNumbered, KeptRolls, number_of_roll};
ghost use Rattle.scr_block_graph.specs.BlockNumbers.{AreListsApart, BlockAt, HaveParts, KeepsBlocks, SumAt};
ghost use Rattle.scr_block_graph.specs.BlockNumbers as spec;
ghost use Rattle.scr_block_graph.specs.Graph.{Rolled, is_live_in};
ghost use Rattle.scr_block_graph.specs.Sums.{roll_of};
ghost use Rattle.scr_block_graph.specs.declared.point.Block.{Block as TheBlock};
ghost use Rattle.scr_block_graph.specs.declared.point.Point.TheVariants as points;
ghost use Rattle.scr_block_graph.specs.declared.sum.Sum.{Sum as TheSum};

use crate::{Block, Sum};
use scr_book::Book;
use scr_ids::Places;
use scr_nodes::{Biometric, Direction};
use scr_sheet::{Class, LiabilityKind, Name, Projection, Roll, Table};
use scr_sum_slots::{Part, Parts};

/// The id of a Block: in the row of its part's slot, at the index of its sum; `None` if no Block like it has an id.
pub fn block_number(book: &Book, parts: &Parts, places: &Places, block: &Block) -> Option<u32>
    ensures there { IfSome result (λ number. BlockAt (λ roll. number_of_roll roll book.now.rolls) parts.now places.now block.now number) }
    ensures absent { IsNone result → (number : ℕ)
        → BlockAt (λ roll. number_of_roll roll book.now.rolls) parts.now places.now block.now number → ⊥ }
{
    // Brings the invariant into sight: no list with a number of 2^31 or more has parts.
    let _slots = parts.len();
    let found = sum_place(book, &block.sum)?;
    let part = Part {
        list: found.0,
        level: block.level,
        index: block.index,
    };
    parts.number(places, &part, found.1)
}

/// The number of a sum's list among all tables, and the sum's index (0 to 2) over it. `None` if the list has no number, or 2^31 or
/// more.
pub fn sum_place(book: &Book, sum: &Sum) -> Option<(u32, u32)>
    ensures there { IfSome result (λ found. SumAt (λ roll. number_of_roll roll book.now.rolls) sum.now found.0 found.1) }
    ensures few { IfSome result (λ found. found.1 < 3) }
    ensures absent { IsNone result → (list place : ℕ)
        → SumAt (λ roll. number_of_roll roll book.now.rolls) sum.now list place → 2 ^ 31 ≤ list }
{
    let roll = sum.roll();
    let number = book.roll_number(roll)?;
    let list = list_number(&roll, number)?;
    Some((list, place_of(sum)))
}

/// The number of a list among all tables; `None` if it is 2^31 or more.
fn list_number(roll: &Roll, number: u32) -> Option<u32>
    ensures there { IfSome result (λ list. list ≡ spec.list_number roll.now number) }
    ensures absent { IsNone result → 2 ^ 31 ≤ spec.list_number roll.now number }
{
    if number >= 1 << 29 {
        return None;
    }
    Some(4 * number + table_place(roll.table()))
}

fn table_place(table: Table) -> u32
    ensures place { result ≡ spec.table_place table }
    ensures few { result < 4 }
{
    match table {
        Table::Security => 0,
        Table::Liability => 1,
        Table::Fund => 2,
        Table::Group | Table::Bank | Table::Rein | Table::Curve => 3,
    }
}

/// The index of a sum among the sums over its list, 0 to 2.
fn place_of(sum: &Sum) -> u32
    ensures place { result ≡ spec.place_of sum.now }
    ensures few { result < 3 }
{
    match sum {
        Sum::Rates(_, Direction::Down) | Sum::Costs(_, Direction::Down) | Sum::Spreads => 1,
        Sum::Presents(_) => 2,
        _ => 0,
    }
}

/// The sum with index `place` over a list; `None` if no sum has it.
pub fn sum_at(roll: &Roll, place: u32) -> Option<Sum>
    ensures { result ≡ spec.sum_at roll.now place }
{
    match roll {
        Roll::Class(class) => of_class(*class, place),
        Roll::Bonds => of_class(Class::Bond, place),
        Roll::Closed => sole(Sum::Closed, place),
        Roll::Grouped => sole(Sum::Grouped, place),
        Roll::Group(name) => sole(Sum::Group(*name), place),
        Roll::Assets(currency) => sole(Sum::Assets(*currency), place),
        Roll::Flows(currency) => of_flows(*currency, place),
        Roll::Lines(currency) => of_lines(*currency, place),
        Roll::Losses(kind, projection) => of_losses(*kind, *projection, place),
        Roll::Groups => sole(Sum::Squares, place),
    }
}

/// The only sum over a list, at index 0.
fn sole(sum: Sum, place: u32) -> Option<Sum>
    ensures { result ≡ (if place == 0 then Some sum else None) }
{
    if place == 0 { Some(sum) } else { None }
}

fn of_class(class: Class, place: u32) -> Option<Sum>
    ensures { result ≡ spec.sum_at (rolls.Class class) place }
{
    if place == 0 {
        Some(Sum::Class(class))
    } else if matches!(class, Class::Bond) && place == 1 {
        Some(Sum::Spreads)
    } else {
        None
    }
}

fn of_flows(currency: Name, place: u32) -> Option<Sum>
    ensures { result ≡ spec.sum_at (rolls.Flows currency) place }
{
    match place {
        0 => Some(Sum::Rates(currency, Direction::Up)),
        1 => Some(Sum::Rates(currency, Direction::Down)),
        _ => None,
    }
}

fn of_lines(currency: Name, place: u32) -> Option<Sum>
    ensures { result ≡ spec.sum_at (rolls.Lines currency) place }
{
    match place {
        0 => Some(Sum::Costs(currency, Direction::Up)),
        1 => Some(Sum::Costs(currency, Direction::Down)),
        2 => Some(Sum::Presents(currency)),
        _ => None,
    }
}

fn of_losses(kind: LiabilityKind, projection: Projection, place: u32) -> Option<Sum>
    ensures { result ≡ spec.sum_at (rolls.Losses kind projection) place }
{
    match kind {
        LiabilityKind::Life => sole(Sum::Losses(Biometric::Life, projection), place),
        LiabilityKind::Health => sole(Sum::Losses(Biometric::Health, projection), place),
        LiabilityKind::Other => None,
    }
}

/// Each sum is the one with its index over its list, and no other sum is.
pub fn sums()
    ensures there { (sum : TheSum) → spec.sum_at (roll_of sum) (spec.place_of sum) ≡ Some sum }
    ensures only { (roll : TheRoll) (place : ℕ) (sum : TheSum) → spec.sum_at roll place ≡ Some sum
        → (spec.sole (roll_of sum) ≡ spec.sole roll) × (spec.place_of sum ≡ place) }
{}

/// Each Block of a book has exactly one id, below the size of all ids, and no other Block has it.
pub fn blocks()
    ensures live { (book : Rolled) (numbers : TheRoll → Option ℕ) (parts : Parted) (places : Numbered) → HaveParts book numbers parts places → AreOwn parts
        → (block : TheBlock) → is_live_in book (points.Block block) ≡ true → (number : ℕ) × BlockAt numbers parts places block number }
    ensures only { (numbers : TheRoll → Option ℕ) (parts : Parted) (places : Numbered) (block : TheBlock) (n m : ℕ)
        → BlockAt numbers parts places block n → BlockAt numbers parts places block m → n ≡ m }
    ensures exact { (numbers : TheRoll → Option ℕ) (parts : Parted) (places : Numbered) → IsApart places → AreOwn parts → AreListsApart numbers
        → (number : ℕ) (a b : TheBlock) → BlockAt numbers parts places a number → BlockAt numbers parts places b number → a ≡ b }
    ensures within { (numbers : TheRoll → Option ℕ) (parts : Parted) (places : Numbered) → IsWithin places → (block : TheBlock) (number : ℕ)
        → BlockAt numbers parts places block number → number < places.size }
{}

/// Each Block keeps its id while lists, parts and rows of ids are added.
pub fn kept()
    ensures { (numbers_before numbers_now : TheRoll → Option ℕ) (before now : Parted) (old new : Numbered)
        → KeepsBlocks numbers_before numbers_now before now old new → (block : TheBlock) (number : ℕ)
        → BlockAt numbers_before before old block number → BlockAt numbers_now now new block number }
{}

/// The member lists of a book have distinct numbers within each table.
pub fn lists()
    ensures { (kept : KeptRolls) → AreNumbered kept → AreListsApart (λ roll. number_of_roll roll kept) }
{}
