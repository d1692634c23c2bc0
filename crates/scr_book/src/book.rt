//! The book as it is kept.
ghost use Rattle.std.specs.Prelude.{◌≡◌, ◌<◌, ◌↔◌, ℕ, List, [], None, is_some, length, map, position, slice_get, Some, IsNone, IfOk, OnOk, OnErr, IfSome, IsTrue, false};
ghost use Rattle.std.specs.List.{IsDistinct};
ghost use Rattle.std.specs.Option.{option_map};
ghost use Rattle.scr_tables.specs.Names.{same_name};
ghost use Rattle.scr_member_lists.specs.Members.{has};
ghost use Rattle.scr_sheet.specs.BalanceSheet.{opening, is_named, held_of};
ghost use Rattle.scr_sheet.specs.Records.{applied};
ghost use Rattle.scr_sheet.specs.Faults.{fault_of, Answers};
ghost use Rattle.scr_sheet.specs.Forms.{Formed};
ghost use Rattle.scr_sheet.specs.Members.{is_member};
ghost use Rattle.scr_sheet.specs.Validity.{Valid};
ghost use Rattle.scr_book.specs.Places.{names_in, shares_names};
ghost use Rattle.scr_book.specs.RolledSheets.{AreRolled, AreStill};
ghost use Rattle.scr_book.specs.Rolls.{AreRollsOf, CanGoBack, KeepsNumbers, number_of_roll, roll_back, roll_of, standing_of};
ghost use Rattle.scr_sheet.specs.declared.roll.Roll.{Roll as TheRoll};

use crate::checks::checked;
use crate::ledger::Ledger;
use crate::puts::hands_in_payments;
use crate::rolls::Rolls;
use crate::users::Users;
use crate::{
    BalanceSheet, Bank, Curve, Edit, Fault, Fund, Group, Liability, Name, Numbers, Rein, Roll,
    Security, Table,
};
use scr_member_lists::Seating;
use std::alloc::{AllocError as NoMemory, Global};
use std::marker::Model;
use std::mem::drop;

/// An insurer's balance sheet. Contracts see the lists of its rows and its numbers, which are valid at all times, and the member
/// lists of the large sums.
#[derive(Drop)]
pub struct Book {
    pub(crate) ledger: Ledger,
    /// How often each name is used.
    pub(crate) users: Users,
    /// The member lists.
    pub(crate) rolls: Rolls,
}

impl Model for Book {
    ghost use Rattle.scr_book.specs.RolledSheets.{RolledSheet};

    ghost Value = { RolledSheet };

    ghost use Rattle.scr_book.specs.KeptBook.{IsKeptBook};

    ghost view = { λ book. record { sheet = book.ledger; rolls = book.rolls } };

    ghost invariant = { IsKeptBook };
}

impl Book {
    /// The opening book: the euro's curve with the single rate 0, and nothing else.
    pub fn new(alloc: Global) -> Result<Book, NoMemory>
        ensures sheet { IfOk result (λ book. book.sheet ≡ opening) }
        ensures rolls { IfOk result (λ book. (roll : TheRoll) → roll_of roll book.rolls ≡ []) }
    {
        let ledger = Ledger::new(alloc)?;
        let rolls = Rolls::new(alloc)?;
        Ok(Book {
            ledger,
            users: Users::uncounted(alloc),
            rolls,
        })
    }

    /// Applies the record, or refuses it exactly as `check` does, and then the book is as before.
    pub fn apply(&mut self, alloc: Global, edit: &Edit) -> Result<(), Fault>
        requires { Formed edit.now }
        ensures answer { Answers (fault_of edit.now self.old.sheet) result }
        ensures ok { OnOk result (self.new.sheet ≡ applied edit.now self.old.sheet) }
        ensures err { OnErr result (self.new.sheet ≡ self.old.sheet) }
        ensures rolls { OnOk result (AreRolled edit.now self.old self.new) }
        ensures still { OnErr result (AreStill self.old self.new) }
        ensures numbers { KeepsNumbers self.old.rolls self.new.rolls }
    {
        let numbers = match checked(alloc, self, edit) {
            Ok(numbers) => numbers,
            Err(fault) => return Err(fault),
        };
        match self.put(alloc, edit, &numbers) {
            Ok(()) => Ok(()),
            Err(NoMemory) => Err(Fault::NoMemory),
        }
    }

    /// Applies the record, or refuses it exactly as `check` does, and then the book is as before. Payments that the record
    /// hands in are kept as they are, and not copied.
    pub fn take(&mut self, alloc: Global, edit: Edit) -> Result<(), Fault>
        requires { Formed edit }
        ensures answer { Answers (fault_of edit self.old.sheet) result }
        ensures ok { OnOk result (self.new.sheet ≡ applied edit self.old.sheet) }
        ensures err { OnErr result (self.new.sheet ≡ self.old.sheet) }
        ensures rolls { OnOk result (AreRolled edit self.old self.new) }
        ensures still { OnErr result (AreStill self.old self.new) }
        ensures numbers { KeepsNumbers self.old.rolls self.new.rolls }
    {
        let numbers = match checked(alloc, self, &edit) {
            Ok(numbers) => numbers,
            Err(first) => return Err(first),
        };
        match self.keep(alloc, edit, &numbers) {
            Ok(()) => Ok(()),
            Err(NoMemory) => Err(Fault::NoMemory),
        }
    }

    // Applies a record that has no fault, and keeps its payments. Where memory is refused the book is as before.
    fn keep(&mut self, alloc: Global, edit: Edit, numbers: &[u32]) -> Result<(), NoMemory>
        requires formed { Formed edit }
        requires no_fault { fault_of edit self.old.sheet ≡ None }
        ensures ok { OnOk result (self.new.sheet ≡ applied edit self.old.sheet) }
        ensures err { OnErr result (self.new.sheet ≡ self.old.sheet) }
        ensures rolls { OnOk result (AreRolled edit self.old self.new) }
        ensures still { OnErr result (AreStill self.old self.new) }
        ensures numbers { KeepsNumbers self.old.rolls self.new.rolls }
    {
        if !hands_in_payments(&edit) {
            return self.put(alloc, &edit, numbers);
        }
        let aim = self.rolls.prepare(alloc, self.ledger.sheet(), &edit)?;
        self.users.exchange(alloc, self.ledger.sheet(), &edit);
        self.ledger.keep_payments(edit);
        self.rolls.settle(self.ledger.sheet(), &aim);
        Ok(())
    }

    // Applies a record that has no fault, after which its row can go back to where it stood. Where memory is refused the book is as
    // before.
    pub(crate) fn put(
        &mut self,
        alloc: Global,
        edit: &Edit,
        numbers: &[u32],
    ) -> Result<(), NoMemory>
        requires formed { Formed edit.now }
        requires no_fault { fault_of edit.now self.old.sheet ≡ None }
        ensures ok { OnOk result (self.new.sheet ≡ applied edit.now self.old.sheet) }
        ensures err { OnErr result (self.new.sheet ≡ self.old.sheet) }
        ensures rolls { OnOk result (AreRolled edit.now self.old self.new) }
        ensures still { OnErr result (AreStill self.old self.new) }
        ensures numbers { KeepsNumbers self.old.rolls self.new.rolls }
        ensures goes_back { OnOk result (CanGoBack (standing_of edit.now self.old.sheet self.old.rolls)
            self.old.sheet self.new.sheet self.new.rolls) }
        ensures returns { OnOk result ((roll : TheRoll)
            → roll_back (standing_of edit.now self.old.sheet self.old.rolls) roll self.new.rolls
            ≡ roll_of roll self.old.rolls) }
    {
        let aim = self.rolls.prepare(alloc, self.ledger.sheet(), edit)?;
        self.users.exchange(alloc, self.ledger.sheet(), edit);
        match self.ledger.put(alloc, edit, numbers) {
            Ok(()) => {
                self.rolls.settle(self.ledger.sheet(), &aim);
                Ok(())
            }
            Err(NoMemory) => {
                self.users.exchange_back(self.ledger.sheet(), edit);
                Err(NoMemory)
            }
        }
    }

    /// The number of groups.
    pub fn groups(&self) -> u32
        ensures count { result ≡ length self.now.sheet.groups }
        ensures valid { Valid self.now.sheet }
    {
        self.sheet().groups.len() as u32
    }

    /// The group at place `k`, in the order in which the names first came.
    pub fn group(&self, k: u32) -> &Group
        requires { k < length self.now.sheet.groups }
        ensures { slice_get self.now.sheet.groups k ≡ Some result.now }
    {
        self.sheet().groups.at(k as usize)
    }

    /// The number of securities.
    pub fn securities(&self) -> u32
        ensures count { result ≡ length self.now.sheet.securities }
        ensures valid { Valid self.now.sheet }
    {
        self.sheet().securities.len() as u32
    }

    /// The security at place `k`, in the order in which the names first came.
    pub fn security(&self, k: u32) -> &Security
        requires { k < length self.now.sheet.securities }
        ensures { option_map (λ p. p.security) (slice_get self.now.sheet.securities k) ≡ Some result.now }
    {
        &self.sheet().securities.at(k as usize).security
    }

    /// The number of funds.
    pub fn funds(&self) -> u32
        ensures count { result ≡ length self.now.sheet.funds }
        ensures valid { Valid self.now.sheet }
    {
        self.sheet().funds.len() as u32
    }

    /// The fund at place `k`, in the order in which the names first came.
    pub fn fund(&self, k: u32) -> &Fund
        requires { k < length self.now.sheet.funds }
        ensures { option_map (λ s. s.fund) (slice_get self.now.sheet.funds k) ≡ Some result.now }
    {
        &self.sheet().funds.at(k as usize).fund
    }

    /// The number of liabilities.
    pub fn lines(&self) -> u32
        ensures count { result ≡ length self.now.sheet.liabilities }
        ensures valid { Valid self.now.sheet }
    {
        self.sheet().liabilities.len() as u32
    }

    /// The liability at place `k`, in the order in which the names first came.
    pub fn line(&self, k: u32) -> &Liability
        requires { k < length self.now.sheet.liabilities }
        ensures { slice_get self.now.sheet.liabilities k ≡ Some result.now }
    {
        self.sheet().liabilities.at(k as usize)
    }

    /// The number of banks.
    pub fn banks(&self) -> u32
        ensures count { result ≡ length self.now.sheet.banks }
        ensures valid { Valid self.now.sheet }
    {
        self.sheet().banks.len() as u32
    }

    /// The bank at place `k`, in the order in which the names first came.
    pub fn bank(&self, k: u32) -> &Bank
        requires { k < length self.now.sheet.banks }
        ensures { slice_get self.now.sheet.banks k ≡ Some result.now }
    {
        self.sheet().banks.at(k as usize)
    }

    /// The number of reinsurance arrangements.
    pub fn reinsurers(&self) -> u32
        ensures count { result ≡ length self.now.sheet.reinsurers }
        ensures valid { Valid self.now.sheet }
    {
        self.sheet().reinsurers.len() as u32
    }

    /// The reinsurance arrangement at place `k`, in the order in which the names first came.
    pub fn reinsurer(&self, k: u32) -> &Rein
        requires { k < length self.now.sheet.reinsurers }
        ensures { slice_get self.now.sheet.reinsurers k ≡ Some result.now }
    {
        self.sheet().reinsurers.at(k as usize)
    }

    /// The number of currencies.
    pub fn curves(&self) -> u32
        ensures count { result ≡ length self.now.sheet.curves }
        ensures valid { Valid self.now.sheet }
    {
        self.sheet().curves.len() as u32
    }

    /// The curve at place `k`, in the order in which the currencies first came.
    pub fn curve(&self, k: u32) -> &Curve
        requires { k < length self.now.sheet.curves }
        ensures { slice_get self.now.sheet.curves k ≡ Some result.now }
    {
        self.sheet().curves.at(k as usize)
    }

    /// The table and the place of the name, among the six tables that share one set of names; a currency is not
    /// looked for. None exactly where none of the six has the name.
    pub fn find(&self, name: &Name) -> Option<(Table, u32)>
        ensures found { IfSome result (λ at. slice_get (names_in at.0 self.now.sheet) at.1 ≡ Some name.now) }
        ensures shared { IfSome result (λ at. IsTrue (shares_names at.0)) }
        ensures absent { IsNone result ↔ (is_named name.now self.now.sheet ≡ false) }
    {
        let sheet = self.sheet();
        if let Some(k) = sheet.groups.place(name) {
            return Some((Table::Group, k as u32));
        }
        if let Some(k) = sheet.securities.place(name) {
            return Some((Table::Security, k as u32));
        }
        if let Some(k) = sheet.liabilities.place(name) {
            return Some((Table::Liability, k as u32));
        }
        if let Some(k) = sheet.banks.place(name) {
            return Some((Table::Bank, k as u32));
        }
        if let Some(k) = sheet.reinsurers.place(name) {
            return Some((Table::Rein, k as u32));
        }
        let k = sheet.funds.place(name)?;
        Some((Table::Fund, k as u32))
    }

    /// The cents held directly of the security or the fund of this name, 0 where nothing is held.
    pub fn held(&self, name: &Name) -> u64
        ensures { result ≡ held_of self.now.sheet name.now }
    {
        self.ledger.held(name)
    }

    /// The amounts that stand in no row, the reference date and the reporting currency.
    pub fn numbers(&self) -> &Numbers
        ensures numbers { result.now ≡ self.now.sheet.numbers }
        ensures valid { Valid self.now.sheet }
    {
        &self.sheet().numbers
    }

    /// The members of a list over which a large sum runs, in the order of their places: one that comes goes last, the last takes
    /// the place of one that leaves, and nothing else moves.
    pub fn roll(&self, roll: Roll) -> &[Name]
        ensures names { result.now ≡ roll_of roll self.now.rolls }
        ensures apart { IsDistinct same_name (roll_of roll self.now.rolls) }
        ensures members { (name : List ℕ) → has name (roll_of roll self.now.rolls) ≡ is_member roll name self.now.sheet }
    {
        self.rolls.roll(roll)
    }

    /// The number of a list among those of the table whose rows its members are. A list of a group or of a currency has one from its
    /// first member on; the bonds have that of their class.
    pub fn roll_number(&self, roll: Roll) -> Option<u32>
        ensures number { result ≡ number_of_roll roll self.now.rolls }
        ensures kept { AreRollsOf self.now.sheet self.now.rolls }
    {
        self.rolls.number(roll)
    }

    /// The place of a name in a list, if it is a member. The cost is that of a look-up of its row, however long the list is.
    pub fn place(&self, roll: Roll, name: &Name) -> Option<u32>
        ensures place { result ≡ position (same_name name.now) (roll_of roll self.now.rolls) }
        ensures member { is_some result ≡ is_member roll name.now self.now.sheet }
    {
        self.rolls.place(self.ledger.sheet(), roll, name)
    }

    /// Where the securities stand in their lists, by the numbers of these.
    pub fn security_seats(&self) -> &Seating<5>
        ensures seats { result.now ≡ self.now.rolls.securities }
        ensures kept { AreRollsOf self.now.sheet self.now.rolls }
    {
        &self.rolls.securities
    }

    /// Where the funds stand in their list.
    pub fn fund_seats(&self) -> &Seating<1>
        ensures seats { result.now ≡ self.now.rolls.funds }
        ensures kept { AreRollsOf self.now.sheet self.now.rolls }
    {
        &self.rolls.funds
    }

    /// Where the liabilities stand in their lists, by the numbers of these.
    pub fn liability_seats(&self) -> &Seating<11>
        ensures seats { result.now ≡ self.now.rolls.liabilities }
        ensures kept { AreRollsOf self.now.sheet self.now.rolls }
    {
        &self.rolls.liabilities
    }

    /// Where the groups stand in their list.
    pub fn group_seats(&self) -> &Seating<1>
        ensures seats { result.now ≡ self.now.rolls.groups }
        ensures kept { AreRollsOf self.now.sheet self.now.rolls }
    {
        &self.rolls.groups
    }

    /// The tables and the numbers, to look up and to walk.
    pub fn sheet(&self) -> &BalanceSheet
        ensures sheet { result.now ≡ self.now.sheet }
        ensures valid { Valid self.now.sheet }
    {
        self.ledger.sheet()
    }

    /// Lets the book go.
    pub fn close(self) {
        drop(self);
    }
}
