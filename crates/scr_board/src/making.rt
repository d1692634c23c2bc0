//! How a board is made.
ghost use Rattle.std.specs.Prelude.{◌≡◌, ◌<◌, ◌≤◌, ◌*◌, ◌+◌, IfOk, OnOk, [], ◌∷◌, ◌++◌, length, slice_index_or};
ghost use Rattle.std.specs.List.{AllByRecursion};
ghost use Rattle.scr_board.specs.Making.{AreWithin, IsUnused, opening_words};
ghost use Rattle.scr_board.specs.Places.{spot_of};
ghost use Rattle.scr_board.specs.BoardRounds.{lists_of, nodes_in, places_at};
ghost use Rattle.scr_board.specs.Views.{blank};
ghost use Rattle.scr_board.specs.Working.{IsFresh};

use crate::board::{Board, BoardSeat, Pass};
use crate::graph::Graph;
use crate::places::Place;
use crate::rule::{First, Opening, Part};
use atomic_table::Table;
use scr_jagged::Rows;
use std::alloc::{AllocError as NoMemory, Global};
use std::marker::Brand;

impl Board {
    /// A board for a round, and one pass for each worker with all the room that working needs.
    pub fn new<G: Graph>(
        alloc: Global,
        graph: &G,
        workers: u32,
    ) -> Result<(Board, Vec<Pass>), NoMemory>
        requires graph { G.is_graph graph.now }
        requires some { 1 ≤ workers }
        requires most { workers ≤ 64 }
        ensures workers { IfOk result (λ made. made.0.workers ≡ workers) }
        ensures count { IfOk result (λ made. length made.1.items ≡ workers) }
        ensures fresh { IfOk result
            (λ made. AllByRecursion (IsFresh made.0 (G.round graph.now)) made.1.items) }
    {
        let starts = Vec::from_slice(alloc, graph.starts())?;
        let dependants = all_dependants(alloc, graph)?;
        let words = all_words(alloc, graph)?;
        let (table, seat) = Table::of_words(alloc, words.as_slice(), &words)?;
        let board = Board {
            table,
            starts,
            dependants,
            workers,
        };
        let seat = board.opened::<G, Brand>(graph, seat);
        let passes = board.passes(alloc, graph, seat)?;
        Ok((board, passes))
    }

    /// The seat of the one pass with which the round opens.
    fn opened<G: Graph, W: Opening>(&self, _graph: &G, mut seat: BoardSeat) -> BoardSeat
        requires opening { (W.round ≡ lists_of (G.round _graph.now)) × (W.workers ≡ self.now.workers) }
        requires graph { G.is_graph _graph.now }
        requires some { 1 ≤ self.now.workers }
        requires most { self.now.workers ≤ 64 }
        requires table { seat.table_id ≡ self.now.table.shared.table_id }
        requires slotless { self.now.table.shared.table_id.slots ≡ 0 }
        requires words { self.now.table.shared.table_id.words ≡ 5 * length (G.round _graph.now).places + 1 }
        requires seat { seat.me ≡ (blank (opening_words (G.round _graph.now)), []) }
        requires starts { self.now.starts.items ≡ (G.round _graph.now).starts }
        requires dependants { self.now.dependants ≡ (G.round _graph.now).dependants }
        ensures { IsUnused self.now (G.round _graph.now) self.now.workers result }
    {
        self.table.shared.load::<First<W>>(&mut seat, 0);
        seat
    }

    /// A pass for each worker, with a share of one.
    fn passes<G: Graph>(
        &self,
        alloc: Global,
        graph: &G,
        mut seat: BoardSeat,
    ) -> Result<Vec<Pass>, NoMemory>
        requires graph { G.is_graph graph.now }
        requires some { 1 ≤ self.now.workers }
        requires seat { IsUnused self.now (G.round graph.now) self.now.workers seat }
        ensures count { IfOk result (λ passes. length passes.items ≡ self.now.workers) }
        ensures fresh { IfOk result
            (λ passes. AllByRecursion (IsFresh self.now (G.round graph.now)) passes.items) }
    {
        let most = most_places(graph);
        let mut passes = Vec::with_capacity(alloc, self.workers as usize)?;
        while passes.len() + 1 < self.workers as usize {
            let part = self.table.shared.split_seat::<Part>(&mut seat);
            passes.push(self.pass(alloc, graph, most, part)?)?;
        }
        passes.push(self.pass(alloc, graph, most, seat)?)?;
        Ok(passes)
    }

    /// A pass that has done nothing, with room for all nodes in its hand and for the figures of all
    /// places of a node.
    fn pass<G: Graph>(
        &self,
        alloc: Global,
        graph: &G,
        most: usize,
        seat: BoardSeat,
    ) -> Result<Pass, NoMemory>
        requires graph { G.is_graph graph.now }
        requires most { AreWithin most (G.round graph.now).places }
        requires seat { IsUnused self.now (G.round graph.now) 1 seat }
        ensures { IfOk result (IsFresh self.now (G.round graph.now)) }
    {
        let hand = Vec::with_capacity(alloc, graph.nodes() as usize)?;
        let got = Vec::with_capacity(alloc, most)?;
        Ok(Pass {
            seat,
            hand,
            got,
            apart: [0; 16],
        })
    }
}

/// The dependants of each node.
fn all_dependants<G: Graph>(alloc: Global, graph: &G) -> Result<Rows<u32>, NoMemory>
    requires { G.is_graph graph.now }
    ensures { IfOk result (λ rows. rows ≡ (G.round graph.now).dependants) }
{
    let mut rows = Rows::with_capacity(alloc, graph.nodes() as usize)?;
    let mut row = Vec::new(alloc);
    for n in 0..graph.nodes() {
        fill_dependants(&mut row, graph, n)?;
        rows.push(row.as_slice())?;
    }
    Ok(rows)
}

/// The dependants of a node, in the place of what was in the row.
fn fill_dependants<G: Graph>(row: &mut Vec<u32>, graph: &G, n: u32) -> Result<(), NoMemory>
    requires graph { G.is_graph graph.now }
    requires node { n < length (G.round graph.now).places }
    ensures { OnOk result (row.new.items ≡ slice_index_or (G.round graph.now).dependants n []) }
{
    row.clear();
    for k in 0..u32::MAX {
        match graph.dependant(n, k) {
            None => break,
            Some(dependant) => row.push(dependant)?,
        }
    }
    Ok(())
}

/// The words with which the board opens.
fn all_words<G: Graph>(alloc: Global, graph: &G) -> Result<Vec<u64>, NoMemory>
    requires { G.is_graph graph.now }
    ensures { IfOk result (λ words. words.items ≡ opening_words (G.round graph.now)) }
{
    let mut words = Vec::with_capacity(alloc, 5 * graph.nodes() as usize + 1)?;
    words.push(0)?;
    for n in 0..graph.nodes() {
        push_node(&mut words, source_count(graph, n))?;
    }
    Ok(words)
}

/// The words of a node: how many sources it waits for, and room for its figure.
fn push_node(words: &mut Vec<u64>, sources: u64) -> Result<(), NoMemory>
    ensures { OnOk result (words.new.items
        ≡ words.old.items ++ sources ∷ 0 ∷ 0 ∷ 0 ∷ 0 ∷ []) }
{
    words.push(sources)?;
    words.push(0)?;
    words.push(0)?;
    words.push(0)?;
    words.push(0)?;
    Ok(())
}

/// How many sources a node has.
fn source_count<G: Graph>(graph: &G, n: u32) -> u64
    requires graph { G.is_graph graph.now }
    requires node { n < length (G.round graph.now).places }
    ensures { result ≡ length (nodes_in (places_at (G.round graph.now) n)) }
{
    let mut count: u64 = 0;
    for k in 0..u32::MAX {
        match graph.place(n, k) {
            None => break,
            Some(place) => count += source_in(&place),
        }
    }
    count
}

/// One for a place that names a node.
fn source_in(place: &Place) -> u64
    ensures count { result ≡ length (nodes_in (spot_of place.now ∷ [])) }
    ensures most { result ≤ 1 }
{
    match place {
        Place::Fixed(_) => 0,
        Place::Node(_) => 1,
    }
}

/// The most places that a node has.
fn most_places<G: Graph>(graph: &G) -> usize
    requires { G.is_graph graph.now }
    ensures { AreWithin result (G.round graph.now).places }
{
    let mut most = 0;
    for n in 0..graph.nodes() {
        most = most.max(place_count(graph, n));
    }
    most
}

fn place_count<G: Graph>(graph: &G, n: u32) -> usize
    requires graph { G.is_graph graph.now }
    requires node { n < length (G.round graph.now).places }
    ensures { result ≡ length (places_at (G.round graph.now) n) }
{
    let mut count: usize = 0;
    for k in 0..u32::MAX {
        if graph.place(n, k).is_none() {
            break;
        }
        count += 1;
    }
    count
}
