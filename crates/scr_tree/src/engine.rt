//! The engine.
ghost use Rattle.std.specs.Prelude.{◌≡◌, ◌↔◌, ◌≤◌, true, false, Contains, None, IfOk, OnOk, OnErr};
ghost use Rattle.scr_sum_tree.specs.Blocks.{HasEachOnce};
ghost use Rattle.scr_factors.specs.Values.{FactorValues};
ghost use Rattle.scr_block_graph.specs.declared.point.Point.{Point as ThePoint};
ghost use Rattle.scr_num.specs.Rounding.{ends};
ghost use Rattle.scr_sheet.specs.Faults.{fault_of};
ghost use Rattle.scr_sheet.specs.Forms.{Formed};
ghost use Rattle.scr_sheet.specs.Validity.{Valid};
ghost use Rattle.scr_sheet.specs.declared.roll.Roll.{Roll};
ghost use Rattle.scr_book.specs.Rolls.{AreRollsOf, KeepsNumbers, roll_of};
ghost use Rattle.scr_book.specs.Undone.{back, returned_by, Fits};
ghost use Rattle.scr_figure_ids.specs.Families.{whole_family};
ghost use Rattle.scr_nodes.specs.Live.{is_live};
ghost use Rattle.scr_nodes.specs.declared.node.Node.TheVariants as nodes;
ghost use Rattle.scr_nodes.specs.declared.node.Whole.{Whole};
ghost use Rattle.scr_rules.specs.Close.{close_under};
ghost use Rattle.scr_rules.specs.Worked.{worked};
ghost use Rattle.scr_partial_sums.specs.Marks.{figure_of};
ghost use Rattle.scr_block_graph.specs.Books.{rolled_of};
ghost use Rattle.scr_block_graph.specs.Graph.{is_live_in, worth_in};
ghost use Rattle.scr_block_graph.specs.Touched.{IsTouchedIn};
ghost use Rattle.scr_num.specs.Sums.{sum_ends};
ghost use Rattle.scr_tree.specs.Figures.{worth_at, worth_of};
ghost use Rattle.scr_tree.specs.Standing.{IsAfter, IsAsBefore, Refuses, TakesSteps, book_of, standing_on};

use crate::basis::Crew;
use crate::edits::{Footing, State, Taken, numbers_gone, take_up};
use crate::figures::Figure;
use crate::graph::Numbers;
use crate::opening::opened;
use crate::refusal::{Refusal, refused_for};
use scr_block_graph::{Point as Node, touched_in};
use scr_book::{Book, Edit, Undo};
use scr_factors::Factors;
use scr_figure_ids::{find, step_of};
use scr_io::{Gate, Steps};
use scr_member_index::stood_of;
use scr_nodes::Node as SheetNode;
use scr_num::Span;
use scr_partial_sums::Mark;
use scr_touched::touched;
use std::alloc::{AllocError as NoMemory, Global};
use std::marker::Model;
use std::mem::drop;
use std::sync::ledger::Ledger;
use std::thread::Threads;

/// A book with the factors of the formula and all its figures, which are those of today's book at all times.
#[derive(Drop)]
pub struct Engine {
    factors: Factors,
    book: Book,
    state: State,
}

impl Model for Engine {
    ghost use Rattle.scr_tree.specs.Standing.{Standing};

    ghost Value = { Standing };

    ghost use Rattle.scr_tree.specs.Kept.{standing_of, IsKept};

    ghost view = { standing_of };

    ghost invariant = { IsKept };
}

impl Engine {
    /// The engine over a book. All figures are reckoned once: by one worker one after another on this thread, the gate passed before each;
    /// by several those of rows at once and those of the whole sheet each as soon as those of its sources are known, the gate passed before
    /// each, and all others on this thread, for which it is passed at the end. Want of memory lets factors and book go.
    pub fn new<R: Threads + Sync, G: Gate + Sync>(
        rt: &R,
        alloc: Global,
        factors: Factors,
        book: Book,
        workers: u32,
        gate: &G,
    ) -> Result<Engine, NoMemory>
        requires { (1 ≤ workers) × (workers ≤ 64) }
        ensures { IfOk result (λ engine. engine ≡ standing_on factors book) }
    {
        let crew = Crew {
            rt,
            alloc,
            workers,
            gate,
        };
        match opened(&crew, &factors, &book) {
            Ok(state) => Ok(Engine {
                factors,
                book,
                state,
            }),
            Err(NoMemory) => {
                book.close();
                Err(NoMemory)
            }
        }
    }

    /// Applies a record and reckons the figures anew that depend on it, or refuses it exactly as the book does; book and figures are then
    /// as before. The gate is passed before each evaluation. It takes a step for each figure and each Block that the record reaches. All
    /// are reckoned on this thread: what several workers must tell each other of them takes longer.
    pub fn edit<R: Threads + Sync, G: Gate + Sync, L: Ledger>(
        &mut self,
        rt: &R,
        alloc: Global,
        edit: &Edit,
        workers: u32,
        gate: &G,
        steps: &mut Steps<L>,
    ) -> Result<(), Refusal>
        requires formed { Formed edit.now }
        requires workers { (1 ≤ workers) × (workers ≤ 64) }
        ensures answer { Refuses (fault_of edit.now self.old.sheet) result }
        ensures ok { OnOk result (IsAfter edit.now self.old self.new) }
        ensures err { OnErr result (IsAsBefore self.old self.new) }
        ensures steps { TakesSteps self.old.factors (book_of self.old) edit.now steps.old steps.new result }
    {
        let touched = match touched_points(alloc, &self.book, edit) {
            Ok(touched) => touched,
            Err(NoMemory) => return Err(Refusal::NoMemory),
        };
        let sheet = self.book.sheet();
        let step = step_of(sheet, edit);
        let stood = stood_of(&self.book, &self.state.places, edit);
        let places = &self.state.places;
        let gone = match numbers_gone(alloc, sheet, places, edit, step, touched.as_slice()) {
            Ok(gone) => gone,
            Err(NoMemory) => return Err(Refusal::NoMemory),
        };
        let undo = match self.book.apply_kept(alloc, edit) {
            Ok(undo) => undo,
            Err(fault) => {
                // The member lists are those of the balance sheet still.
                self.book.group_seats();
                return Err(refused_for(fault));
            }
        };
        let crew = Crew {
            rt,
            alloc,
            workers,
            gate,
        };
        let footing = Footing {
            factors: &self.factors,
            book: &self.book,
        };
        let taken = Taken {
            edit,
            step,
            stood: &stood,
            touched: touched.as_slice(),
        };
        match take_up(&crew, footing, &mut self.state, taken, gone, steps) {
            Ok(()) => {
                drop(undo);
                Ok(())
            }
            Err(NoMemory) => Err(taken_back(&mut self.book, undo)),
        }
    }

    /// What a figure or a Block comes to that the book has.
    pub fn span(&self, node: Node) -> Span
        requires { is_live_in (book_of self.now) node ≡ true }
        ensures { ends result ≡ worth_in sum_ends (worked self.now.factors self.now.sheet) (book_of self.now) node }
    {
        let numbers = Numbers {
            book: &self.book,
            places: &self.state.places,
            lists: &self.state.lists,
        };
        match numbers.number_of(&node) {
            Some(number) => self.state.figures.span(number as usize),
            None => unreachable!(),
        }
    }

    /// A figure of the balance sheet rests on a choice that is open.
    pub fn is_close(&self, node: &SheetNode) -> bool
        requires { is_live self.now.sheet node.now ≡ true }
        ensures { result ≡ close_under self.now.factors self.now.sheet node.now }
    {
        self.figure(node).close
    }

    /// What a figure of the balance sheet comes to, and whether it rests on a choice that is open.
    #[inline(always)]
    pub fn told(&self, node: &SheetNode) -> (Span, bool)
        requires { is_live self.now.sheet node.now ≡ true }
        ensures span { ends result.0 ≡ worked self.now.factors self.now.sheet node.now }
        ensures close { result.1 ≡ close_under self.now.factors self.now.sheet node.now }
    {
        let Figure { span, close } = self.figure(node);
        (span, close)
    }

    /// What the figure of the whole sheet of this family comes to, and whether it rests on an open choice. Its number is the family itself:
    /// a read, without a search.
    #[inline(always)]
    pub fn told_whole(&self, family: u32) -> (Span, bool)
        requires { (whole : Whole) × (is_live self.now.sheet (nodes.Whole whole) ≡ true) × (whole_family whole ≡ family) }
        ensures span { (whole : Whole) → is_live self.now.sheet (nodes.Whole whole) ≡ true → whole_family whole ≡ family
            → ends result.0 ≡ worked self.now.factors self.now.sheet (nodes.Whole whole) }
        ensures close { (whole : Whole) → is_live self.now.sheet (nodes.Whole whole) ≡ true → whole_family whole ≡ family
            → result.1 ≡ close_under self.now.factors self.now.sheet (nodes.Whole whole) }
    {
        let Figure { span, close } = self.state.figures.figure(family as usize);
        (span, close)
    }

    /// The same are those of the mark.
    #[inline(always)]
    pub fn is_told(&self, family: u32, mark: &Mark) -> bool
        requires { (whole : Whole) × (is_live self.now.sheet (nodes.Whole whole) ≡ true) × (whole_family whole ≡ family) }
        ensures yes { result ≡ true → (whole : Whole) → is_live self.now.sheet (nodes.Whole whole) ≡ true → whole_family whole ≡ family
            → worth_of (figure_of mark.now) ≡ worth_at self.now.factors self.now.sheet (nodes.Whole whole) }
        ensures not { result ≡ false → (whole : Whole) → is_live self.now.sheet (nodes.Whole whole) ≡ true → whole_family whole ≡ family
            → worth_of (figure_of mark.now) ≡ worth_at self.now.factors self.now.sheet (nodes.Whole whole) → ⊥ }
    {
        self.state.figures.is_marked(family as usize, mark)
    }

    #[inline(always)]
    fn figure(&self, node: &SheetNode) -> Figure
        requires { is_live self.now.sheet node.now ≡ true }
        ensures span { ends result.span ≡ worked self.now.factors self.now.sheet node.now }
        ensures close { result.close ≡ close_under self.now.factors self.now.sheet node.now }
    {
        match find(&self.state.places, self.book.sheet(), node) {
            Some(number) => self.state.figures.figure(number as usize),
            None => unreachable!(),
        }
    }

    /// Today's book.
    pub fn book(&self) -> &Book
        ensures value { result.now.sheet ≡ self.now.sheet }
        ensures rolls { result.now.rolls ≡ self.now.rolls }
        ensures valid { Valid self.now.sheet }
    {
        &self.book
    }

    /// The factors of the formula.
    pub fn factors(&self) -> &Factors
        ensures { result.now ≡ self.now.factors }
    {
        &self.factors
    }

    /// Lets the engine go.
    pub fn close(self) {
        self.book.close();
    }
}

/// The points that a record touches.
fn touched_points(alloc: Global, book: &Book, edit: &Edit) -> Result<Vec<Node>, NoMemory>
    requires { Formed edit.now }
    ensures touched { IfOk result (λ list. (factors : FactorValues) (point : ThePoint) → fault_of edit.now book.now.sheet ≡ None
        → Contains list.items point ↔ IsTouchedIn factors (rolled_of book.now) edit.now point) }
    ensures once { IfOk result (λ list. HasEachOnce list.items) }
{
    let told = touched(alloc, book, edit)?;
    touched_in(alloc, book, edit, told)
}

/// Takes a record back for want of memory, which is the refusal.
fn taken_back(book: &mut Book, undo: Undo) -> Refusal
    requires { Fits undo book.old }
    ensures before { book.new.sheet ≡ back undo book.old.sheet }
    ensures rolls { (roll : Roll) → roll_of roll book.new.rolls ≡ returned_by undo roll book.old }
    ensures numbers { KeepsNumbers book.old.rolls book.new.rolls }
    ensures kept { AreRollsOf book.new.sheet book.new.rolls }
    ensures refusal { result ≡ Refusal.NoMemory }
{
    book.put_back(undo);
    book.group_seats();
    Refusal::NoMemory
}
