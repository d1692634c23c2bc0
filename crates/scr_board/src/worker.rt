//! The work on a board: a worker draws a node, reads the figures of its places, finds and puts its
//! own, and delivers it to its dependants. It goes on with those that a delivery gave to its hand,
//! and only then draws again. It waits for nobody.
ghost use Rattle.std.specs.Prelude.{◌≡◌, ℕ, ◌+◌, ◌<◌, All, MatchOption, Some, length, map, slice_get};
ghost use Rattle.std.specs.List.{AllByRecursion};
ghost use Rattle.scr_num.specs.Rounding.{ends};
ghost use Rattle.scr_board.specs.Passes.{IsPassOf, IsSameRoom, progress, view};
ghost use Rattle.scr_board.specs.Places.{spot_of};
ghost use Rattle.scr_board.specs.BoardRounds.{AreGiven, given, places_at};
ghost use Rattle.scr_board.specs.Working.{HasTaken, IsBetween, IsDelivering, IsDone, IsFresh};

use crate::board::{Board, Pass};
use crate::graph::Graph;
use crate::places::Place;
use scr_io::{Gate, Steps};
use scr_num::Span;
use std::marker::Brand;
use std::sync::ledger::{Blank, Ledger};
use std::thread;
use std::thread::Threads;

/// Works on a board with one pass on this thread, until no start is left to draw and no node is in
/// the pass's hand. The steps rise by the number of nodes that the pass put.
pub fn work_one<G: Graph, T: Gate, L: Ledger>(
    board: &Board,
    graph: &G,
    pass: &mut Pass,
    gate: &T,
    steps: &mut Steps<L>,
)
    requires graph { G.is_graph graph.now }
    requires fresh { IsFresh board.now (G.round graph.now) pass.old }
    ensures end { IsDone board.now (G.round graph.now) pass.new }
    ensures steps { steps.new ≡ steps.old + length (progress pass.new).put }
{
    let worker = Worker { board, graph };
    while let Some(n) = worker.next_node(pass) {
        worker.work_node(pass, n, gate, steps);
    }
}

/// Works on a board with all these passes at once, each on a thread of its own where one can be
/// made.
pub fn work<R: Threads + Sync, G: Graph + Sync, T: Gate + Sync>(
    rt: &R,
    board: &Board,
    graph: &G,
    passes: &mut [Pass],
    gate: &T,
)
    requires graph { G.is_graph graph.now }
    requires fresh { AllByRecursion (IsFresh board.now (G.round graph.now)) passes.old }
    ensures end { AllByRecursion (IsDone board.now (G.round graph.now)) passes.new }
    ensures count { length passes.new ≡ length passes.old }
{
    work_each(rt, board, graph, passes, gate);
}

/// The same, said of each place of the passes.
fn work_each<R: Threads + Sync, G: Graph + Sync, T: Gate + Sync>(
    rt: &R,
    board: &Board,
    graph: &G,
    passes: &mut [Pass],
    gate: &T,
)
    requires graph { G.is_graph graph.now }
    requires fresh { All (IsFresh board.now (G.round graph.now)) passes.old }
    ensures end { All (IsDone board.now (G.round graph.now)) passes.new }
    ensures count { length passes.new ≡ length passes.old }
{
    let threads = passes.len().max(1);
    thread::for_each_mut(
        rt,
        passes,
        threads,
        &|_, pass| { work_uncounted(board, graph, pass, gate) },
    );
}

/// Works with a counter of its own.
fn work_uncounted<G: Graph, T: Gate>(board: &Board, graph: &G, pass: &mut Pass, gate: &T)
    requires graph { G.is_graph graph.now }
    requires fresh { IsFresh board.now (G.round graph.now) pass.old }
    ensures { IsDone board.now (G.round graph.now) pass.new }
{
    work_counted::<G, T, Brand>(board, graph, pass, gate, Blank::new(1));
}

fn work_counted<G: Graph, T: Gate, L: Ledger>(
    board: &Board,
    graph: &G,
    pass: &mut Pass,
    gate: &T,
    blank: Blank,
)
    requires name { blank.name ≡ L.name }
    requires parts { blank.parts ≡ L.parts }
    requires some { 0 < blank.parts }
    requires graph { G.is_graph graph.now }
    requires fresh { IsFresh board.now (G.round graph.now) pass.old }
    ensures { IsDone board.now (G.round graph.now) pass.new }
{
    let mut steps: Steps<L> = Steps::new(blank);
    work_one(board, graph, pass, gate, &mut steps);
}

/// One worker: the board that it works on, and the graph of the round.
#[derive(Drop)]
struct Worker<'a, G> {
    board: &'a Board,
    graph: &'a G,
}

impl<'a, G: Graph> Worker<'a, G> {
    /// The node to work on next: one that a delivery gave to the hand, else the next start.
    fn next_node(&self, pass: &mut Pass) -> Option<u32>
        requires { IsBetween self.now.board.now (G.round self.now.graph.now) pass.old }
        ensures next { MatchOption result
            (IsDone self.now.board.now (G.round self.now.graph.now) pass.new)
            (HasTaken self.now.board.now (G.round self.now.graph.now) pass.new) }
        ensures put { (progress pass.new).put ≡ (progress pass.old).put }
    {
        match pass.hand.pop() {
            Some(n) => Some(n),
            None => self.board.draw(pass),
        }
    }

    /// Works on a node in the hand.
    fn work_node<T: Gate, L: Ledger>(&self, pass: &mut Pass, n: u32, gate: &T, steps: &mut Steps<L>)
        requires graph { G.is_graph self.now.graph.now }
        requires taken { HasTaken self.now.board.now (G.round self.now.graph.now) pass.old n }
        ensures between { IsBetween self.now.board.now (G.round self.now.graph.now) pass.new }
        ensures put { length (progress pass.new).put ≡ length (progress pass.old).put + 1 }
        ensures steps { steps.new ≡ steps.old + 1 }
    {
        self.gather(pass, n);
        gate.pass(n);
        let span = self.graph.rule(n, pass.got.as_slice(), steps);
        self.board.put(pass, n, span);
        self.deliver_all(pass, n);
    }

    /// The figures of the node's places, into the room of the pass.
    fn gather(&self, pass: &mut Pass, n: u32)
        requires graph { G.is_graph self.now.graph.now }
        requires taken { HasTaken self.now.board.now (G.round self.now.graph.now) pass.old n }
        ensures taken { HasTaken self.now.board.now (G.round self.now.graph.now) pass.new n }
        ensures same { view pass.new ≡ view pass.old }
        ensures got { AreGiven (G.round self.now.graph.now) n (map ends pass.new.got.items) }
    {
        pass.got.clear();
        for k in 0..u32::MAX {
            match self.graph.place(n, k) {
                None => return,
                Some(place) => {
                    let span = self.figure_at(pass, &place);
                    pass.got.push_reserved(span);
                }
            }
        }
    }

    /// What a place of a node in the hand gives: the figure that is known, or the one that was put
    /// for a node.
    fn figure_at(&self, pass: &mut Pass, place: &Place) -> Span
        requires taken { (n k : ℕ)
            × HasTaken self.now.board.now (G.round self.now.graph.now) pass.old n
            × (slice_get (places_at (G.round self.now.graph.now) n) k
            ≡ Some (spot_of place.now)) }
        ensures pass { IsPassOf self.now.board.now pass.new }
        ensures same { view pass.new ≡ view pass.old }
        ensures room { IsSameRoom pass.old pass.new }
        ensures given { given (G.round self.now.graph.now).worked (spot_of place.now)
            ≡ Some (ends result) }
    {
        match place {
            Place::Fixed(span) => *span,
            Place::Node(m) => self.board.read(pass, *m),
        }
    }

    /// Delivers a node that was put to each of its dependants.
    fn deliver_all(&self, pass: &mut Pass, n: u32)
        requires { IsDelivering self.now.board.now (G.round self.now.graph.now) pass.old n 0 }
        ensures between { IsBetween self.now.board.now (G.round self.now.graph.now) pass.new }
        ensures put { (progress pass.new).put ≡ (progress pass.old).put }
    {
        let count = self.board.dependants.row(n as usize).len() as u32;
        for k in 0..count {
            match self.board.deliver(pass, n, k) {
                Some(dependant) => pass.hand.push_reserved(dependant),
                None => {}
            }
        }
    }
}
