//! The ids of all rows.
ghost use Rattle.std.specs.Prelude.{◌≡◌, ℕ, ◌+◌, ◌<◌, ◌≤◌, ◌^◌, ◌++◌, ◌∷◌, [], length, IfOk, OnOk, OnErr, IfSome, IsNone, slice_index, slice_set};
ghost use Rattle.std.specs.Vec.{vec_capacity, vec_len};
ghost use Rattle.scr_ids.specs.Ranges.{IsApart, IsAt, IsWithin, no_ranges, count, first, first_in, made, roll_at, stride};
ghost use Rattle.scr_ids.specs.Moves.{Came, IsNew, PutBack, Retired, Went, Sunk};
ghost use Rattle.scr_ids.specs.Kept.{AreInTurn, IsOwner, first_run, last_run, run_at};
ghost use Rattle.scr_ids.specs.Steps.{IsRollsBut, Made, Revived, Sinking};
ghost use Rattle.scr_ids.specs.declared.table.Table.{Table};

use crate::roll::Roll;
use crate::table::Table;
use std::alloc::{AllocError as NoMemory, Global};
use std::marker::Model;

/// The number of runs with room at first: rows of a table mostly come one behind another, and so do parts of lists.
const RUNS: usize = 16;

/// The number of tables.
const TABLES: usize = 7;

/// A run of ranges, from range `id` and its first id on. Ranges of one table lie one behind another until the next run begins.
#[derive(Clone, Copy)]
pub(crate) struct Run {
    table: Table,
    first: u32,
    id: u32,
}

/// The range of an id, by its index, its table, and the id's place in it.
#[derive(Clone, Copy)]
pub(crate) struct Owner {
    table: Table,
    id: usize,
    family: u32,
}

/// What an id stands for: the table, the row's index in it, and the place of the id in the row's range, both from 0.
#[derive(Clone, Copy, PartialEq, Eq)]
pub struct Place {
    pub table: Table,
    pub row: usize,
    pub family: u32,
}

/// The ids of all rows of all tables. Contracts see the bound of all ids (`size`). They see each table's number of rows (`count`)
/// and of ranges (`made`), and each range's first id (`first`). Ids are never given up: a new row takes the range that was freed
/// last.
#[derive(Drop)]
pub struct Places {
    rolls: Vec<Roll>,
    runs: Vec<Run>,
    /// For each range its position in its table.
    places: Vec<u32>,
    size: u32,
}

impl Model for Places {
    ghost use Rattle.scr_ids.specs.Ranges.{Numbered};

    ghost Value = { Numbered };

    ghost use Rattle.scr_ids.specs.Kept.{numbered_of, IsKept};

    ghost view = { numbered_of };

    ghost invariant = { IsKept };
}

impl Places {
    /// The ids of the whole sheet, and no row in any other table; `NoMemory` if they don't fit.
    pub fn new(alloc: Global) -> Result<Places, NoMemory>
        ensures { IfOk result IsNew }
    {
        Places::with_room(alloc, 0)
    }

    /// The ids of the whole sheet alone, with room for `ranges` ranges; `NoMemory` if they don't fit.
    pub fn with_room(alloc: Global, ranges: usize) -> Result<Places, NoMemory>
        ensures { IfOk result IsNew }
    {
        let rolls = no_rolls(alloc)?;
        let runs = first_runs(alloc)?;
        let places = Vec::with_capacity(alloc, ranges)?;
        let mut numbers = Places {
            rolls,
            runs,
            places,
            size: 0,
        };
        numbers.make(Table::Whole)?;
        numbers.revive(Table::Whole);
        Ok(numbers)
    }

    /// The bound of all ids: each is below it.
    pub fn len(&self) -> u32
        ensures size { result ≡ self.now.size }
        ensures within { IsWithin self.now }
        ensures apart { IsApart self.now }
    {
        self.size
    }

    /// The number of rows of a table.
    pub fn count(&self, table: Table) -> usize
        ensures count { result ≡ count self.now table }
        ensures within { count self.now table ≤ made self.now table }
    {
        roll_of(&self.rolls, table).live()
    }

    /// The first id of row `k` of a table.
    pub fn first(&self, table: Table, k: usize) -> u32
        requires { k < count self.now table }
        ensures first { result ≡ first self.now table k }
        ensures low { first self.now table k + stride table < 2 ^ 32 }
    {
        roll_of(&self.rolls, table).first(k)
    }

    /// The first ids of all rows of a table, in row order.
    pub fn firsts(&self, table: Table) -> &[u32]
        ensures count { length result.now ≡ count self.now table }
        ensures each { (k : ℕ) → k < count self.now table → slice_index result.now k ≡ first self.now table k }
        ensures low { (k : ℕ) → k < count self.now table → first self.now table k + stride table < 2 ^ 32 }
    {
        let roll = roll_of(&self.rolls, table);
        let live = roll.live();
        &roll.firsts()[..live]
    }

    /// The row and place that an id stands for; `None` if it is of no row.
    pub fn at(&self, number: u32) -> Option<Place>
        ensures there { IfSome result (λ p. IsAt self.now p.table p.row p.family number) }
        ensures absent { IsNone result → (table : Table) (k j : ℕ) → IsAt self.now table k j number → ⊥ }
    {
        if number >= self.size {
            return None;
        }
        let owner = owner_of(&self.runs, number);
        let row = self.places[owner.id] as usize;
        if row >= self.count(owner.table) {
            return None;
        }
        Some(Place {
            table: owner.table,
            row,
            family: owner.family,
        })
    }

    /// Appends a row to a table, with a free range or new ids. `NoMemory` if memory is refused or ids would exceed 32 bits; all
    /// stays as it was.
    pub fn come(&mut self, table: Table) -> Result<(), NoMemory>
        ensures ok { OnOk result (Came table self.old self.new) }
        ensures err { OnErr result (self.new ≡ self.old) }
    {
        if self.count(table) == self.made(table) {
            self.make(table)?;
        }
        self.revive(table);
        Ok(())
    }

    /// Removes row `k` of a table. The indexes of later rows fall by one. Every other row keeps its ids. It needs no memory.
    pub fn go(&mut self, table: Table, k: usize)
        requires { k < count self.old table }
        ensures { Went table k self.old self.new }
    {
        let last = self.count(table) - 1;
        for m in k..last {
            self.exchange(table, m);
        }
        self.retire(table);
    }

    /// Inserts a row as row `k` of a table, with the range that was freed last. The indexes of later rows rise by one. Every other
    /// row keeps its ids. It needs no memory.
    pub fn put_back(&mut self, table: Table, k: usize)
        requires place { k ≤ count self.old table }
        requires free { count self.old table < made self.old table }
        ensures { PutBack table k self.old self.new }
    {
        let end = self.count(table);
        self.revive(table);
        for m in (k..end).rev() {
            self.exchange(table, m);
        }
    }

    /// Removes the last row of a table. It needs no memory.
    pub fn retire(&mut self, table: Table)
        requires { 0 < count self.old table }
        ensures { Retired table self.old self.new }
    {
        let live = self.count(table) - 1;
        set_live(&mut self.rolls, table, live);
    }

    /// Appends a row to a table with the range that was freed last.
    fn revive(&mut self, table: Table)
        requires { count self.old table < made self.old table }
        ensures { Revived table self.old self.new }
    {
        let live = self.count(table) + 1;
        set_live(&mut self.rolls, table, live);
    }

    /// The number of ranges of a table, free ones included.
    fn made(&self, table: Table) -> usize
        ensures { result ≡ made self.now table }
    {
        roll_of(&self.rolls, table).len()
    }

    /// Swaps the ranges at positions `k` and `k` + 1 of a table.
    fn exchange(&mut self, table: Table, k: usize)
        requires { k + 1 < made self.old table }
        ensures { Sinking table k (k + 1) self.old self.new }
    {
        let roll = roll_of(&self.rolls, table);
        let low = owner_of(&self.runs, roll.first(k));
        let high = owner_of(&self.runs, roll.first(k + 1));
        exchange_rolls(&mut self.rolls, table, k);
        move_range(&mut self.places, low.id, (k + 1) as u32);
        move_range(&mut self.places, high.id, k as u32);
    }

    /// Adds a free range of new ids to a table.
    fn make(&mut self, table: Table) -> Result<(), NoMemory>
        ensures ok { OnOk result (Made table self.old self.new) }
        ensures err { OnErr result (self.new ≡ self.old) }
    {
        let start = self.len();
        if start > u32::MAX - table.stride() {
            return Err(NoMemory);
        }
        let place = self.made(table) as u32;
        let id = self.places.as_slice().len() as u32;
        self.runs.reserve(1)?;
        self.places.reserve(1)?;
        push_first(&mut self.rolls, table, start)?;
        let run = Run {
            table,
            first: start,
            id,
        };
        begin_run(&mut self.runs, run);
        self.places.push_reserved(place);
        self.size = start + table.stride();
        Ok(())
    }
}

/// The tables, none with a range.
fn no_rolls(alloc: Global) -> Result<Vec<Roll>, NoMemory>
    ensures tables { IfOk result (λ rolls. length rolls.items ≡ 7) }
    ensures empty { IfOk result (λ rolls. (table : Table) → roll_at rolls.items table ≡ no_ranges) }
{
    let mut rolls = Vec::with_capacity(alloc, TABLES)?;
    for _ in 0..TABLES {
        rolls.push(Roll::new(alloc))?;
    }
    Ok(rolls)
}

/// The ranges of a table.
fn roll_of(rolls: &[Roll], table: Table) -> &Roll
    requires { length rolls.now ≡ 7 }
    ensures { result.now ≡ roll_at rolls.now table }
{
    &rolls[table.number()]
}

/// Sets the number of rows of a table.
fn set_live(rolls: &mut Vec<Roll>, table: Table, live: usize)
    requires { length rolls.old.items ≡ 7 }
    ensures others { IsRollsBut table rolls.old.items rolls.new.items }
    ensures firsts { (roll_at rolls.new.items table).firsts ≡ (roll_at rolls.old.items table).firsts }
    ensures live { (roll_at rolls.new.items table).live ≡ live }
{
    rolls[table.number()].set_live(live);
}

/// Adds a free range to a table.
fn push_first(rolls: &mut Vec<Roll>, table: Table, first: u32) -> Result<(), NoMemory>
    requires { length rolls.old.items ≡ 7 }
    ensures others { IsRollsBut table rolls.old.items rolls.new.items }
    ensures ok { OnOk result ((roll_at rolls.new.items table).firsts ≡ (roll_at rolls.old.items table).firsts ++ first ∷ []) }
    ensures live { (roll_at rolls.new.items table).live ≡ (roll_at rolls.old.items table).live }
    ensures err { OnErr result (rolls.new.items ≡ rolls.old.items) }
{
    rolls[table.number()].push(first)
}

/// Swaps the ranges at positions `k` and `k` + 1 of a table.
fn exchange_rolls(rolls: &mut Vec<Roll>, table: Table, k: usize)
    requires tables { length rolls.old.items ≡ 7 }
    requires place { k + 1 < length (roll_at rolls.old.items table).firsts }
    ensures others { IsRollsBut table rolls.old.items rolls.new.items }
    ensures firsts { Sunk k (k + 1) (first_in (roll_at rolls.old.items table).firsts)
        (first_in (roll_at rolls.new.items table).firsts) }
    ensures len { length (roll_at rolls.new.items table).firsts ≡ length (roll_at rolls.old.items table).firsts }
    ensures live { (roll_at rolls.new.items table).live ≡ (roll_at rolls.old.items table).live }
{
    rolls[table.number()].exchange(k);
}

/// Sets the position of a range in its table.
fn move_range(places: &mut Vec<u32>, id: usize, place: u32)
    requires { id < length places.old.items }
    ensures { places.new.items ≡ slice_set places.old.items id place }
{
    places[id] = place;
}

/// The run of the whole sheet alone.
fn first_runs(alloc: Global) -> Result<Vec<Run>, NoMemory>
    ensures { IfOk result (λ runs. runs.items ≡ first_run ∷ []) }
{
    let mut runs = Vec::with_capacity(alloc, RUNS)?;
    runs.push(Run {
        table: Table::Whole,
        first: 0,
        id: 0,
    })?;
    Ok(runs)
}

/// Adds a run, unless the last one is of its table and goes on. Room is reserved.
fn begin_run(runs: &mut Vec<Run>, run: Run)
    requires some { 0 < length runs.old.items }
    requires room { vec_len runs.old < vec_capacity runs.old }
    ensures same { (last_run runs.old.items).table ≡ run.table → runs.new.items ≡ runs.old.items }
    ensures other { ((last_run runs.old.items).table ≡ run.table → ⊥) → runs.new.items ≡ runs.old.items ++ run ∷ [] }
{
    let last = runs[runs.len() - 1];
    if last.table != run.table {
        runs.push_reserved(run);
    }
}

/// The range of an id, and the id's place in it.
fn owner_of(runs: &[Run], number: u32) -> Owner
    requires { AreInTurn runs.now }
    ensures { IsOwner runs.now number result }
{
    let run = runs[run_of(runs, number)];
    let (row, family) = run.table.split(number - run.first);
    Owner {
        table: run.table,
        id: run.id as usize + row as usize,
        family,
    }
}

/// The last run that begins at the id or before it, by binary search.
fn run_of(runs: &[Run], number: u32) -> usize
    requires some { 0 < length runs.now }
    requires first { (run_at runs.now 0).first ≤ number }
    ensures known { result < length runs.now }
    ensures low { (run_at runs.now result).first ≤ number }
    ensures high { result + 1 < length runs.now → number < (run_at runs.now (result + 1)).first }
{
    let mut low = 0;
    let mut high = runs.len();
    'halves: while low + 1 < high {
        let middle = low + (high - low) / 2;
        if runs[middle].first <= number {
            low = middle;
        } else {
            high = middle;
        }
    }
    low
}
