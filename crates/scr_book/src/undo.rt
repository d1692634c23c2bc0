//! A record that may be taken back without memory.
ghost use Rattle.std.specs.Prelude.{◌≡◌, None, IfOk, OnErr};
ghost use Rattle.scr_sheet.specs.Faults.{fault_of, Answers};
ghost use Rattle.scr_sheet.specs.Forms.{Formed};
ghost use Rattle.scr_sheet.specs.Records.{applied};
ghost use Rattle.scr_sheet.specs.declared.roll.Roll.{Roll};
ghost use Rattle.scr_book.specs.RolledSheets.{AreRolled, AreStill};
ghost use Rattle.scr_book.specs.Rolls.{KeepsNumbers, roll_of};
ghost use Rattle.scr_book.specs.Undone.{back, returned_by, Fits, sheet_before, FitsSheet};

use crate::checks::checked;
use crate::ledger::Ledger;
use crate::rolls::Standing;
use crate::sums::Sums;
use crate::{Book, Edit, Fault, days, due};
use scr_fund_graph::KeptComponents;
use scr_sheet::Earlier;
use std::alloc::{AllocError as NoMemory, Global};

/// What an applied record changed, as it was before: what the ledger had, and where the row stood in the member lists.
#[derive(Drop)]
pub struct Undo {
    before: Before,
    standing: Option<Standing>,
}

/// What a ledger had: what stood in a table or the single numbers, the sums, and what the graph had of a fund.
#[derive(Drop)]
pub(crate) struct Before {
    earlier: Earlier,
    sums: Sums,
    components: Option<KeptComponents>,
}

impl Book {
    /// Applies the record, or refuses it, as `apply` does, and hands out what it changed.
    pub fn apply_kept(&mut self, alloc: Global, edit: &Edit) -> Result<Undo, Fault>
        requires { Formed edit.now }
        ensures answer { Answers (fault_of edit.now self.old.sheet) result }
        ensures ok { IfOk result (λ undo. self.new.sheet ≡ applied edit.now self.old.sheet) }
        ensures err { OnErr result (self.new.sheet ≡ self.old.sheet) }
        ensures back { IfOk result (λ undo. back undo self.new.sheet ≡ self.old.sheet) }
        ensures rolls { IfOk result (λ undo. AreRolled edit.now self.old self.new) }
        ensures still { OnErr result (AreStill self.old self.new) }
        ensures numbers { KeepsNumbers self.old.rolls self.new.rolls }
        ensures rolls_back { IfOk result (λ undo. (roll : Roll)
            → returned_by undo roll self.new ≡ roll_of roll self.old.rolls) }
        ensures fits { IfOk result (λ undo. Fits undo self.new) }
    {
        let numbers = match checked(alloc, self, edit) {
            Ok(numbers) => numbers,
            Err(fault) => return Err(fault),
        };
        match self.put_kept(alloc, edit, &numbers) {
            Ok(undo) => Ok(undo),
            Err(NoMemory) => Err(Fault::NoMemory),
        }
    }

    // Applies a record that has no fault. Where memory is refused the book is as before.
    fn put_kept(&mut self, alloc: Global, edit: &Edit, numbers: &[u32]) -> Result<Undo, NoMemory>
        requires formed { Formed edit.now }
        requires no_fault { fault_of edit.now self.old.sheet ≡ None }
        ensures ok { IfOk result (λ undo. self.new.sheet ≡ applied edit.now self.old.sheet) }
        ensures err { OnErr result (self.new.sheet ≡ self.old.sheet) }
        ensures back { IfOk result (λ undo. back undo self.new.sheet ≡ self.old.sheet) }
        ensures rolls { IfOk result (λ undo. AreRolled edit.now self.old self.new) }
        ensures still { OnErr result (AreStill self.old self.new) }
        ensures numbers { KeepsNumbers self.old.rolls self.new.rolls }
        ensures rolls_back { IfOk result (λ undo. (roll : Roll)
            → returned_by undo roll self.new ≡ roll_of roll self.old.rolls) }
        ensures fits { IfOk result (λ undo. Fits undo self.new) }
    {
        let before = self.ledger.before(alloc, edit)?;
        let standing = self.rolls.standing(self.ledger.sheet(), edit);
        self.put(alloc, edit, numbers)?;
        Ok(Undo { before, standing })
    }

    /// The book as it was before the record, without memory: each count moves back by the rows that go out and come back.
    pub fn put_back(&mut self, undo: Undo)
        requires { Fits undo self.old }
        ensures sheet { self.new.sheet ≡ back undo self.old.sheet }
        ensures rolls { (roll : Roll) → roll_of roll self.new.rolls ≡ returned_by undo roll self.old }
        ensures numbers { KeepsNumbers self.old.rolls self.new.rolls }
    {
        let Undo { before, standing } = undo;
        self.users.put_back(self.ledger.sheet(), &before.earlier);
        self.rolls.leave(self.ledger.sheet(), &standing);
        self.ledger.put_back(before);
        self.rolls.restore(self.ledger.sheet(), &standing);
    }
}

impl Ledger {
    // What the record is about to change.
    fn before(&self, alloc: Global, edit: &Edit) -> Result<Before, NoMemory>
        ensures back { IfOk result (λ before. sheet_before before (applied edit.now self.now) ≡ self.now) }
        ensures fits { IfOk result (λ before. FitsSheet before (applied edit.now self.now)) }
    {
        let earlier = self.sheet.before(alloc, edit)?;
        let components = due::keep(&self.graph, alloc, &earlier)?;
        Ok(Before {
            earlier,
            sums: self.sums,
            components,
        })
    }

    fn put_back(&mut self, before: Before)
        requires { FitsSheet before self.old }
        ensures { self.new ≡ sheet_before before self.old }
    {
        let Before {
            earlier,
            sums,
            components,
        } = before;
        days::put_back(&mut self.days, &self.sheet, &earlier);
        self.is_graph_due = due::put_back(
            &mut self.graph,
            self.is_graph_due,
            &self.sheet,
            &earlier,
            components,
        );
        self.sheet.put_back(earlier);
        self.sums = sums;
    }
}
