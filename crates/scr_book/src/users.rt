//! How often each name is used: a group by securities, banks and reinsurers, a security or a fund by funds, and a currency by
//! securities and liabilities. Nothing is counted before the first record that drops a row.
ghost use Rattle.std.specs.Prelude.{◌≡◌, List, [], Some, None, true};
ghost use Rattle.scr_counters.specs.Users.{nothing, Moves};
ghost use Rattle.scr_sheet.specs.Records.{applied};
ghost use Rattle.scr_sheet.specs.declared.sheet.BalanceSheet.{BalanceSheet as Sheet};
ghost use Rattle.scr_sheet.specs.Earlier.{with_earlier, FitsIn};
ghost use Rattle.scr_book.specs.Users.{Used, no_uses, AreUsersOf, HaveCounted, used_before, used_after, used_in, kept_uses, of_name, of_currency};
ghost use Rattle.scr_book.specs.UsersBack.{past_uses, used_now, used_then};

use crate::pasts::{name_in, row_in};
use crate::{BalanceSheet, Bank, Edit, Liability, Name, Position, Rein, Stake, Table};
use scr_counters::NameTally;
use scr_sheet::{Earlier, Past, Row, Rows};
use std::alloc::Global;
use std::marker::Model;

/// What a row uses. Contracts see the list of the components.
#[derive(Drop)]
pub(crate) struct Uses<'a> {
    components: &'a [(Name, i64)],
    group: Option<Name>,
    currency: Option<Name>,
}

impl<'a> Model for Uses<'a> {
    ghost use Rattle.scr_book.specs.Users.{Used};

    ghost Value = { Used };

    ghost view = { λ uses. record {
      components = uses.components.now;
      group = uses.group;
      currency = uses.currency;
    } };
}

/// A row that uses others.
trait Using: Row {
    ghost use Rattle.scr_book.specs.Users.{Used};

    ghost uses_of: { Self → Used };

    /// What the row uses.
    fn uses(&self) -> Uses<'_>
        ensures { result ≡ uses_of self.now };
}

impl Using for Position {
    ghost use Rattle.scr_book.specs.Users.{position_uses};

    ghost uses_of = { position_uses };

    fn uses(&self) -> Uses<'_> {
        Uses {
            components: &[],
            group: self.security.group,
            currency: Some(self.security.currency),
        }
    }
}

impl Using for Stake {
    ghost use Rattle.scr_book.specs.Users.{stake_uses};

    ghost uses_of = { stake_uses };

    fn uses(&self) -> Uses<'_> {
        Uses {
            components: self.fund.components.as_slice(),
            group: None,
            currency: None,
        }
    }
}

impl Using for Liability {
    ghost use Rattle.scr_book.specs.Users.{liability_uses};

    ghost uses_of = { liability_uses };

    fn uses(&self) -> Uses<'_> {
        Uses {
            components: &[],
            group: None,
            currency: Some(self.currency),
        }
    }
}

impl Using for Bank {
    ghost use Rattle.scr_book.specs.Users.{bank_uses};

    ghost uses_of = { bank_uses };

    fn uses(&self) -> Uses<'_> {
        Uses {
            components: &[],
            group: Some(self.group),
            currency: None,
        }
    }
}

impl Using for Rein {
    ghost use Rattle.scr_book.specs.Users.{rein_uses};

    ghost uses_of = { rein_uses };

    fn uses(&self) -> Uses<'_> {
        Uses {
            components: &[],
            group: Some(self.group),
            currency: None,
        }
    }
}

/// How many rows use each name, and each currency.
#[derive(Drop)]
pub(crate) struct Users {
    pub(crate) names: NameTally,
    pub(crate) currencies: NameTally,
}

impl Users {
    /// Nothing is counted.
    pub(crate) fn uncounted(alloc: Global) -> Users
        ensures { (sheet : Sheet) → AreUsersOf sheet result }
    {
        let mut users = Users {
            names: NameTally::new(alloc),
            currencies: NameTally::new(alloc),
        };
        users.lose();
        users
    }

    /// From now on nothing is counted.
    pub(crate) fn lose(&mut self)
        ensures { (sheet : Sheet) → AreUsersOf sheet self.new }
    {
        self.names.lose();
        self.currencies.lose();
    }

    /// What the row uses that the record replaces or drops goes out, and what the one uses that it makes comes in.
    pub(crate) fn exchange(&mut self, alloc: Global, sheet: &BalanceSheet, edit: &Edit)
        requires { AreUsersOf sheet.now self.old }
        ensures { AreUsersOf (applied edit.now sheet.now) self.new }
    {
        self.renew(alloc, sheet, edit);
        if self.is_lost() {
            return;
        }
        self.take(used_before(sheet, edit));
        self.add(alloc, used_after(edit));
    }

    // Nothing is counted.
    fn is_lost(&self) -> bool
        ensures { result ≡ true → (sheet : Sheet) → AreUsersOf sheet self.now }
    {
        self.names.is_lost() && self.currencies.is_lost()
    }

    /// Back from `exchange`, without memory: the sheet is as it was before the record.
    pub(crate) fn exchange_back(&mut self, sheet: &BalanceSheet, edit: &Edit)
        requires { AreUsersOf (applied edit.now sheet.now) self.old }
        ensures { AreUsersOf sheet.now self.new }
    {
        self.take(used_after(edit));
        self.count_again(used_before(sheet, edit));
    }

    /// What the row uses that goes out where what stood before comes back goes out, and what the one uses that comes back is
    /// counted again, without memory.
    pub(crate) fn put_back(&mut self, sheet: &BalanceSheet, earlier: &Earlier)
        requires users { AreUsersOf sheet.now self.old }
        requires place { FitsIn earlier.now sheet.now }
        ensures { AreUsersOf (with_earlier earlier.now sheet.now) self.new }
    {
        self.take(used_now(sheet, earlier));
        self.count_again(used_then(earlier));
    }

    // A record that drops a row had all rows looked at where they are not counted: they are from now on.
    fn renew(&mut self, alloc: Global, sheet: &BalanceSheet, edit: &Edit)
        requires { AreUsersOf sheet.now self.old }
        ensures { AreUsersOf sheet.now self.new }
    {
        match edit {
            Edit::Remove { .. } if self.names.is_lost() || self.currencies.is_lost() => {
                *self = Users::counted(alloc, sheet);
            }
            _ => (),
        }
    }

    // The rows of the sheet, counted.
    fn counted(alloc: Global, sheet: &BalanceSheet) -> Users
        ensures { AreUsersOf sheet.now result }
    {
        let mut users = Users {
            names: NameTally::new(alloc),
            currencies: NameTally::new(alloc),
        };
        users.add_all(alloc, &sheet.securities);
        users.add_all(alloc, &sheet.funds);
        users.add_all(alloc, &sheet.liabilities);
        users.add_all(alloc, &sheet.banks);
        users.add_all(alloc, &sheet.reinsurers);
        users
    }

    // Counts what each row uses.
    fn add_all<R: Using>(&mut self, alloc: Global, rows: &Rows<R>)
        ensures { HaveCounted R.uses_of [] rows.now self.old self.new }
    {
        for row in rows.iter() {
            self.add(alloc, row.uses());
        }
    }

    // Counts what a row uses.
    fn add(&mut self, alloc: Global, uses: Uses<'_>)
        ensures names { Moves nothing (λ name. of_name name uses.entry) self.old.names self.new.names }
        ensures currencies { Moves nothing (λ name. of_currency name uses.entry) self.old.currencies self.new.currencies }
    {
        self.names.add_each(alloc, uses.components);
        self.names.add(alloc, uses.group);
        self.currencies.add(alloc, uses.currency);
    }

    // Takes away what a row uses, without memory.
    fn take(&mut self, uses: Uses<'_>)
        ensures names { Moves (λ name. of_name name uses.entry) nothing self.old.names self.new.names }
        ensures currencies { Moves (λ name. of_currency name uses.entry) nothing self.old.currencies self.new.currencies }
    {
        self.names.take_each(uses.components);
        self.names.take(uses.group);
        self.currencies.take(uses.currency);
    }

    // Counts again what a row uses that was counted before, without memory.
    fn count_again(&mut self, uses: Uses<'_>)
        ensures names { Moves nothing (λ name. of_name name uses.entry) self.old.names self.new.names }
        ensures currencies { Moves nothing (λ name. of_currency name uses.entry) self.old.currencies self.new.currencies }
    {
        self.names.put_back_each(uses.components);
        self.names.put_back(uses.group);
        self.currencies.put_back(uses.currency);
    }
}

// What the row uses that the record replaces or drops.
fn used_before<'a>(sheet: &'a BalanceSheet, edit: &Edit) -> Uses<'a>
    ensures { result ≡ used_before edit.now sheet.now }
{
    match edit {
        Edit::Security { name, .. } => used_by(&sheet.securities, name),
        Edit::Fund { name, .. } => used_by(&sheet.funds, name),
        Edit::Liability { name, .. } => used_by(&sheet.liabilities, name),
        Edit::Bank { name, .. } => used_by(&sheet.banks, name),
        Edit::Rein { name, .. } => used_by(&sheet.reinsurers, name),
        Edit::Remove { table, name } => used_in(sheet, *table, name),
        _ => none(),
    }
}

// What the row of this name in this table uses.
fn used_in<'a>(sheet: &'a BalanceSheet, table: Table, name: &Name) -> Uses<'a>
    ensures { result ≡ used_in table name.now sheet.now }
{
    match table {
        Table::Security => used_by(&sheet.securities, name),
        Table::Fund => used_by(&sheet.funds, name),
        Table::Liability => used_by(&sheet.liabilities, name),
        Table::Bank => used_by(&sheet.banks, name),
        Table::Rein => used_by(&sheet.reinsurers, name),
        Table::Group | Table::Curve => none(),
    }
}

// What the row of this name uses, nothing where there is none.
fn used_by<'a, R: Using>(rows: &'a Rows<R>, name: &Name) -> Uses<'a>
    ensures { result ≡ kept_uses R.name_of R.uses_of name.now rows.now }
{
    match rows.get(name) {
        Some(row) => row.uses(),
        None => none(),
    }
}

// What the row uses that goes out where what stood before comes back.
fn used_now<'a>(sheet: &'a BalanceSheet, earlier: &Earlier) -> Uses<'a>
    ensures { result ≡ used_now earlier.now sheet.now }
{
    match earlier {
        Earlier::Securities(past) => used_by(&sheet.securities, &name_in(past)),
        Earlier::Funds(past) => used_by(&sheet.funds, &name_in(past)),
        Earlier::Liabilities(past) => used_by(&sheet.liabilities, &name_in(past)),
        Earlier::Banks(past) => used_by(&sheet.banks, &name_in(past)),
        Earlier::Reinsurers(past) => used_by(&sheet.reinsurers, &name_in(past)),
        Earlier::Groups(_) | Earlier::Curves(_) | Earlier::Numbers(_) => none(),
    }
}

// What the row uses that comes back.
fn used_then(earlier: &Earlier) -> Uses<'_>
    ensures { result ≡ used_then earlier.now }
{
    match earlier {
        Earlier::Securities(past) => used_in_past(past),
        Earlier::Funds(past) => used_in_past(past),
        Earlier::Liabilities(past) => used_in_past(past),
        Earlier::Banks(past) => used_in_past(past),
        Earlier::Reinsurers(past) => used_in_past(past),
        Earlier::Groups(_) | Earlier::Curves(_) | Earlier::Numbers(_) => none(),
    }
}

// What the row uses that comes back, nothing where there was none.
fn used_in_past<R: Using>(past: &Past<R>) -> Uses<'_>
    ensures { result ≡ past_uses R.uses_of past.now }
{
    match row_in(past) {
        Some(row) => row.uses(),
        None => none(),
    }
}

// What the row uses that the record makes.
fn used_after(edit: &Edit) -> Uses<'_>
    ensures { result ≡ used_after edit.now }
{
    match edit {
        Edit::Security {
            group,
            currency,
            ..
        } => Uses {
            components: &[],
            group: *group,
            currency: Some(*currency),
        },
        Edit::Fund { components, .. } => Uses {
            components: components.as_slice(),
            group: None,
            currency: None,
        },
        Edit::Liability { currency, .. } => Uses {
            components: &[],
            group: None,
            currency: Some(*currency),
        },
        Edit::Bank { group, .. } | Edit::Rein { group, .. } => Uses {
            components: &[],
            group: Some(*group),
            currency: None,
        },
        _ => none(),
    }
}

// Nothing is used.
fn none<'a>() -> Uses<'a>
    ensures { result ≡ no_uses }
{
    Uses {
        components: &[],
        group: None,
        currency: None,
    }
}
