//! The hands of workers, each with its pass and with what it reckoned.
ghost use Rattle.std.specs.Prelude.{◌≡◌, ◌+◌, List, All, IfOk, MatchOption, false, length};
ghost use Rattle.std.specs.List.{AllByRecursion};
ghost use Rattle.scr_board.specs.declared.board.Board.{Board};
ghost use Rattle.scr_board.specs.Passes.{progress};
ghost use Rattle.scr_board.specs.Working.{IsFresh};
ghost use Rattle.scr_parallel.specs.declared.rows.Piece.{Piece};
ghost use Rattle.scr_parallel.specs.Apart.{apart_round};
ghost use Rattle.scr_parallel.specs.Hands.{HasDrawn, HasEnded, IsAtWork, IsOpen};
ghost use Rattle.scr_parallel.specs.Pieces.{ArePieced};
ghost use Rattle.scr_parallel.specs.Rows.{AreAllRows, IsWithin, all_rows};

use crate::piece_graph::NOTHING;
use crate::pieces::reckon_piece;
use crate::rows::{Part, Piece, RowPlan};
use scr_board::{Board, Pass};
use scr_io::Gate;
use scr_num::Span;
use std::alloc::{AllocError as NoMemory, Global};
use std::thread;
use std::thread::Threads;

/// A worker's pass with what it reckoned, and whether it was refused memory. Then it has left, and its pass is not at its end.
#[derive(Drop)]
pub(crate) struct Hand {
    pub(crate) pass: Pass,
    pub(crate) part: Part,
    pub(crate) full: bool,
}

/// A hand for each pass, with nothing reckoned.
pub(crate) fn hands_of(alloc: Global, mut passes: Vec<Pass>) -> Result<Vec<Hand>, NoMemory>
    ensures count { IfOk result (λ hands. length hands.items ≡ length passes.items) }
    ensures open { (board : Board) (pieces : List Piece)
        → AllByRecursion (IsFresh board (apart_round (length pieces))) passes.items
        → IfOk result (λ hands. AllByRecursion (IsOpen board pieces) hands.items) }
{
    let mut hands = Vec::with_capacity(alloc, passes.len())?;
    while let Some(pass) = passes.pop() {
        let part = Part {
            pieces: Vec::new(alloc),
            spans: Vec::new(alloc),
        };
        hands.push(Hand {
            pass,
            part,
            full: false,
        })?;
    }
    Ok(hands)
}

/// What all workers share: the board that they draw from, and the pieces with the plan by which their rows are reckoned.
#[derive(Drop)]
pub(crate) struct Desk<'a, P> {
    pub(crate) board: &'a Board,
    pub(crate) plan: &'a P,
    pub(crate) pieces: &'a [Piece],
}

/// Reckons all pieces with these hands at once, each on a thread of its own where one can be made.
pub(crate) fn work_all<R: Threads + Sync, P: RowPlan + Sync, G: Gate + Sync>(
    rt: &R,
    desk: &Desk<'_, P>,
    hands: &mut [Hand],
    gate: &G,
)
    requires plan { P.is_plan desk.now.plan.now }
    requires within { AllByRecursion (IsWithin (P.count desk.now.plan.now)) desk.now.pieces.now }
    requires open { AllByRecursion (IsOpen desk.now.board.now desk.now.pieces.now) hands.old }
    ensures end { AllByRecursion (HasEnded desk.now.board.now (P.count desk.now.plan.now) (P.is_row desk.now.plan.now)
        desk.now.pieces.now) hands.new }
    ensures count { length hands.new ≡ length hands.old }
{
    work_each(rt, desk, hands, gate);
}

/// The same, said of each place of the hands.
fn work_each<R: Threads + Sync, P: RowPlan + Sync, G: Gate + Sync>(
    rt: &R,
    desk: &Desk<'_, P>,
    hands: &mut [Hand],
    gate: &G,
)
    requires plan { P.is_plan desk.now.plan.now }
    requires within { AllByRecursion (IsWithin (P.count desk.now.plan.now)) desk.now.pieces.now }
    requires open { All (IsOpen desk.now.board.now desk.now.pieces.now) hands.old }
    ensures end { All (HasEnded desk.now.board.now (P.count desk.now.plan.now) (P.is_row desk.now.plan.now)
        desk.now.pieces.now) hands.new }
    ensures count { length hands.new ≡ length hands.old }
{
    let threads = hands.len().max(1);
    thread::for_each_mut(
        rt,
        hands,
        threads,
        &|_, hand| { desk.work_hand(hand, gate) },
    );
}

impl<'a, P: RowPlan> Desk<'a, P> {
    /// Draws pieces and reckons their rows, until none is left or memory is refused.
    fn work_hand<G: Gate>(&self, hand: &mut Hand, gate: &G)
        requires plan { P.is_plan self.now.plan.now }
        requires within { AllByRecursion (IsWithin (P.count self.now.plan.now)) self.now.pieces.now }
        requires open { IsOpen self.now.board.now self.now.pieces.now hand.old }
        ensures { HasEnded self.now.board.now (P.count self.now.plan.now) (P.is_row self.now.plan.now) self.now.pieces.now hand.new }
    {
        while let Some(n) = self.next_piece(hand) {
            self.reckon_drawn(hand, n, gate);
            if hand.full {
                return;
            }
        }
    }

    /// The number of the next piece, which is then drawn.
    fn next_piece(&self, hand: &mut Hand) -> Option<u32>
        requires { IsAtWork self.now.board.now (P.count self.now.plan.now) (P.is_row self.now.plan.now) self.now.pieces.now hand.old }
        ensures next { MatchOption result
            (HasEnded self.now.board.now (P.count self.now.plan.now) (P.is_row self.now.plan.now) self.now.pieces.now hand.new)
            (HasDrawn self.now.board.now (P.count self.now.plan.now) (P.is_row self.now.plan.now) self.now.pieces.now hand.new) }
        ensures put { (progress hand.new.pass).put ≡ (progress hand.old.pass).put }
    {
        self.board.draw(&mut hand.pass)
    }

    /// Reckons the rows of a piece that was drawn, and puts it. Where memory is refused, the hand is marked.
    fn reckon_drawn<G: Gate>(&self, hand: &mut Hand, n: u32, gate: &G)
        requires plan { P.is_plan self.now.plan.now }
        requires within { AllByRecursion (IsWithin (P.count self.now.plan.now)) self.now.pieces.now }
        requires drawn { HasDrawn self.now.board.now (P.count self.now.plan.now) (P.is_row self.now.plan.now) self.now.pieces.now
            hand.old n }
        ensures work { hand.new.full ≡ false → IsAtWork self.now.board.now (P.count self.now.plan.now) (P.is_row self.now.plan.now)
            self.now.pieces.now hand.new }
        ensures put { hand.new.full ≡ false → length (progress hand.new.pass).put ≡ length (progress hand.old.pass).put + 1 }
    {
        let piece = self.pieces[n as usize];
        match reckon_piece(self.plan, piece, &mut hand.part, gate) {
            Ok(()) => self.board.put(&mut hand.pass, n, NOTHING),
            Err(_) => hand.full = true,
        }
    }
}

/// Closes the board, and gives what the hands have reckoned, if none was refused memory.
pub(crate) fn parts_of<P: RowPlan>(
    alloc: Global,
    board: Board,
    mut hands: Vec<Hand>,
    _plan: &P,
    pieces: &[Piece],
) -> Result<Vec<Part>, NoMemory>
    requires pieces { ArePieced (P.count _plan.now) (all_rows (P.count _plan.now)) pieces.now }
    requires count { length hands.items ≡ board.workers }
    requires end { AllByRecursion (HasEnded board (P.count _plan.now) (P.is_row _plan.now) pieces.now) hands.items }
    ensures { IfOk result (λ parts. AreAllRows (P.count _plan.now) (P.is_row _plan.now) parts.items) }
{
    let mut figures = Vec::new(alloc);
    figures.resize(pieces.len(), NOTHING)?;
    let mut passes = Vec::with_capacity(alloc, hands.len())?;
    let mut parts = Vec::with_capacity(alloc, hands.len())?;
    while let Some(hand) = hands.pop() {
        let Hand { pass, part, full } = hand;
        if full {
            return Err(NoMemory);
        }
        passes.push(pass)?;
        parts.push(part)?;
    }
    board.close(passes, figures.as_mut_slice());
    Ok(parts)
}
