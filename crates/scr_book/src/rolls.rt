//! The member lists of the large sums, as the book keeps them beside its rows.
ghost use Rattle.std.specs.Prelude.{◌≡◌, ◌≢◌, ℕ, ℤ, ◌+◌, ◌<◌, ◌≤◌, ◌==◌, ◌++◌, true, false, [], ◌∷◌, Option, Some, None, IfOk, IfSome, OnErr, if◌then◌else◌, is_some, length, map, position, slice_index_or};
ghost use Rattle.std.specs.Option.{option_map, option_map_or};
ghost use Rattle.scr_tables.specs.Names.{same_name};
ghost use Rattle.scr_tables.specs.Tables.{has_row, row_of};
ghost use Rattle.scr_profile.specs.declared.group_kind.GroupKind.{GroupKind};
ghost use Rattle.scr_member_lists.specs.Members.{has, moved};
ghost use Rattle.scr_member_lists.specs.Owned.{number_of};
ghost use Rattle.scr_member_lists.specs.Seatings.{NOWHERE, AreSeated, AwaitsSeats, IsFor, KeepsRoom, KeepsSeats, names_of, roll_in, room_of, seat_of, seats_of, stood, target};
ghost use Rattle.scr_sheet.specs.BalanceSheet.{liability_name, opening, position_of};
ghost use Rattle.scr_sheet.specs.CashFlows.{all_projections};
ghost use Rattle.scr_sheet.specs.Members.{edit_name, has_flows, table_of};
ghost use Rattle.scr_sheet.specs.Validity.{Valid};
ghost use Rattle.scr_sheet.specs.declared.sheet.BalanceSheet.{BalanceSheet as Sheet};
ghost use Rattle.scr_sheet.specs.declared.roll.Roll.{Roll as List_of};
ghost use Rattle.scr_book.specs.Sums.{place_of};
ghost use Rattle.scr_book.specs.Verbs.{takes_no_memory};
ghost use Rattle.scr_book.specs.Rolls.{AreKept, AreRollsOf, Await, CanGoBack, CanRegain, GivesNumber, GroupNumber, HaveReturned, IsPrepared, IsRegained, IsReturning, IsSettled, IsTaken, KeepsNumbers, KeptRolls, class_number, kind_number, liability_rolls, moves_in, number_of_roll, roll_of, same_table, seat_of_roll, security_rolls, standing_of, stands_in};

use crate::recent::recent_place;
use crate::sums::place_of;
use crate::{
    BalanceSheet, Class, Components, Edit, Flows, Liability, LiabilityKind, Name, Projection, Table,
};
use scr_member_lists::{NOWHERE, Owners, Seating, Seats};
use scr_sheet::{Roll, has_flows, is_paying};
use scr_tables::{Row, Rows};
use std::alloc::{AllocError as NoMemory, Global};

// The numbers of the rolls that have no owner: those of the ten classes come first among those of securities, and those of the
// three kinds of liabilities, each with ten projections, among those of liabilities.
const GROUPED: u32 = 10;

const CLOSED: u32 = 0;

const GROUPS: u32 = 0;

// The seats of a security: in the roll of its class, of all that have a group, of its group, of its currency, and of those of it
// with payments; of a fund and of a group: the first; of a liability: in the roll of each projection under which it has payments,
// and of its currency.
const OF_GROUP: usize = 2;

const OF_ASSETS: usize = 3;

const OF_FLOWS: usize = 4;

const OF_LINES: usize = 10;

// The seats of the rolls that have no owner, in the order of their numbers.
const SECURITIES: [usize; 11] = [0, 0, 0, 0, 0, 0, 0, 0, 0, 0, 1];

const LIABILITIES: [usize; 30] = [
    0, 1, 2, 3, 4, 5, 6, 7, 8, 9, 0, 1, 2, 3, 4, 5, 6, 7, 8, 9, 0, 1, 2, 3, 4, 5, 6, 7, 8, 9,
];

const FIRST: [usize; 1] = [0];

/// The rolls of a book, by the table of their members, with the seats of its rows.
#[derive(Drop)]
pub(crate) struct Rolls {
    pub(crate) securities: Seating<5>,
    pub(crate) funds: Seating<1>,
    pub(crate) liabilities: Seating<11>,
    pub(crate) groups: Seating<1>,
    /// The numbers of the rolls of a group's securities.
    of_groups: Owners,
    /// The first numbers of the two rolls of a currency's securities: of all, and of those with payments.
    of_assets: Owners,
    /// The numbers of the rolls of a currency's liabilities.
    of_lines: Owners,
}

/// Which row is to stand where, once the sheet has the record.
#[derive(Clone, Copy)]
pub(crate) enum Aim {
    /// None moves.
    Still,
    /// The security of this name in the rolls of its class, of all with a group, of its group and of its currency, and in the last
    /// if it has payments.
    Security(Name, [u32; 5]),
    /// The security at a place in a roll of those with payments, or in none.
    Payments(usize, u32),
    /// The fund of this name in the roll of the closed ones, or in none.
    Fund(Name, u32),
    /// The group of this name in that of all.
    Group(Name),
    /// The liability of this name in the roll of its currency, and in those of its kind under which it has payments; the first of
    /// those is told.
    Liability(Name, u32, u32),
    /// The liability at a place in a roll in a seat, or in none.
    Projected(usize, usize, u32),
}

/// Where the row of a record stood, if it was there.
#[derive(Clone, Copy)]
pub(crate) struct Standing {
    table: Table,
    name: Name,
    seats: Option<Seats>,
}

impl Rolls {
    /// No roll has a member.
    pub(crate) fn new(alloc: Global) -> Result<Rolls, NoMemory>
        ensures rolls { IfOk result (λ rolls. AreRollsOf opening rolls) }
        ensures none { IfOk result (λ rolls. (roll : List_of) → roll_of roll rolls ≡ []) }
    {
        let securities = seating(alloc, &SECURITIES)?;
        let funds = seating(alloc, &FIRST)?;
        let liabilities = seating(alloc, &LIABILITIES)?;
        let groups = seating(alloc, &FIRST)?;
        let of_groups = Owners::new(alloc);
        let of_assets = Owners::new(alloc);
        let of_lines = Owners::new(alloc);
        Ok(Rolls {
            securities,
            funds,
            liabilities,
            groups,
            of_groups,
            of_assets,
            of_lines,
        })
    }

    /// The members of a roll in the order of their places.
    pub(crate) fn roll(&self, roll: Roll) -> &[Name]
        requires { (sheet : Sheet) × AreRollsOf sheet self.now }
        ensures { result.now ≡ roll_of roll self.now }
    {
        match roll {
            Roll::Class(class) => self.securities.roll(class_number(class)),
            Roll::Bonds => self.securities.roll(class_number(Class::Bond)),
            Roll::Grouped => self.securities.roll(GROUPED),
            Roll::Group(group) => owned(&self.securities, self.of_groups.number(&group), 0),
            Roll::Assets(currency) => owned(&self.securities, self.of_assets.number(&currency), 0),
            Roll::Flows(currency) => owned(&self.securities, self.of_assets.number(&currency), 1),
            Roll::Lines(currency) => owned(&self.liabilities, self.of_lines.number(&currency), 0),
            Roll::Losses(kind, projection) => self
                .liabilities
                .roll(first_loss(kind) + place_of(projection) as u32),
            Roll::Closed => self.funds.roll(CLOSED),
            Roll::Groups => self.groups.roll(GROUPS),
        }
    }

    /// The number of a roll among those of its table; none where its owner never had one.
    pub(crate) fn number(&self, roll: Roll) -> Option<u32>
        requires { (sheet : Sheet) × AreRollsOf sheet self.now }
        ensures { result ≡ number_of_roll roll self.now }
    {
        match roll {
            Roll::Class(class) => Some(class_number(class)),
            Roll::Bonds => Some(class_number(Class::Bond)),
            Roll::Grouped => Some(GROUPED),
            Roll::Group(group) => self.of_groups.number(&group),
            Roll::Assets(currency) => self.of_assets.number(&currency),
            Roll::Flows(currency) => match self.of_assets.number(&currency) {
                Some(number) => Some(number + 1),
                None => None,
            },
            Roll::Lines(currency) => self.of_lines.number(&currency),
            Roll::Losses(kind, projection) => Some(first_loss(kind) + place_of(projection) as u32),
            Roll::Closed => Some(CLOSED),
            Roll::Groups => Some(GROUPS),
        }
    }

    /// The place of a name in a roll, if it is a member: the seats of its row say it.
    pub(crate) fn place(&self, sheet: &BalanceSheet, roll: Roll, name: &Name) -> Option<u32>
        requires valid { Valid sheet.now }
        requires rolls { AreRollsOf sheet.now self.now }
        ensures { result ≡ position (same_name name.now) (roll_of roll self.now) }
    {
        let number = self.number(roll)?;
        let seats = self.row_seats(sheet, &roll, name)?;
        stood(&seats, seat_of_roll(&roll), number)
    }

    // The seats of the row of a name in the table of a roll's members, if the row is there.
    fn row_seats(&self, sheet: &BalanceSheet, roll: &Roll, name: &Name) -> Option<Seats>
        requires { AreRollsOf sheet.now self.now }
        ensures { result ≡ (stands_in (table_of roll.now) name.now sheet.now self.now).seats }
    {
        match roll.table() {
            Table::Security => seats_at(&self.securities, &sheet.securities, name),
            Table::Fund => seats_at(&self.funds, &sheet.funds, name),
            Table::Liability => seats_at(&self.liabilities, &sheet.liabilities, name),
            Table::Group => seats_at(&self.groups, &sheet.groups, name),
            Table::Bank | Table::Rein | Table::Curve => None,
        }
    }

    /// Where the row of the record is to stand, with room there. No roll moves, but that a row
    /// which the record drops leaves all of its.
    pub(crate) fn prepare(
        &mut self,
        alloc: Global,
        sheet: &BalanceSheet,
        edit: &Edit,
    ) -> Result<Aim, NoMemory>
        requires valid { Valid sheet.now }
        requires rolls { AreRollsOf sheet.now self.old }
        ensures err { OnErr result (AreKept sheet.now self.old self.new) }
        ensures kept { takes_no_memory edit.now ≡ false → AreKept sheet.now self.old self.new }
        ensures prepared { IfOk result (λ aim. IsPrepared edit.now sheet.now aim self.old self.new) }
    {
        match edit {
            Edit::Security {
                name,
                class,
                group,
                currency,
                ..
            } => self.of_security(alloc, name, *class, *group, currency),
            Edit::Flows { security, flows } => self.of_payments(alloc, sheet, security, flows),
            Edit::Fund { name, components } => self.of_fund(alloc, name, components),
            Edit::Group { name, .. } => self.of_group(alloc, name),
            Edit::Liability {
                name,
                kind,
                currency,
            } => self.of_liability(alloc, name, *kind, currency),
            Edit::LiabilityFlows {
                liability,
                projection,
                flows,
            } => self.of_projection(alloc, sheet, liability, *projection, flows),
            Edit::Remove { table, name } => {
                self.release(sheet, *table, name);
                Ok(Aim::Still)
            }
            _ => Ok(Aim::Still),
        }
    }

    /// The row of the record, which the sheet has taken, stands where it is to stand, without memory.
    pub(crate) fn settle(&mut self, sheet: &BalanceSheet, aim: &Aim)
        requires { Await aim.now sheet.now self.old }
        ensures { IsTaken sheet.now aim.now self.old self.new }
    {
        match aim {
            Aim::Still => {}
            Aim::Security(name, numbers) => {
                self.settle_security(sheet, name, *numbers);
            }
            Aim::Payments(place, number) => {
                let rows = &sheet.securities;
                let _count = rows.len();
                self.securities.seat(rows, *place, OF_FLOWS, *number);
            }
            Aim::Fund(name, number) => stand(&mut self.funds, &sheet.funds, name, *number),
            Aim::Group(name) => stand(&mut self.groups, &sheet.groups, name, GROUPS),
            Aim::Liability(name, lines, losses) => {
                self.settle_liability(sheet, name, *lines, *losses);
            }
            Aim::Projected(place, seat, number) => {
                let rows = &sheet.liabilities;
                let _count = rows.len();
                self.liabilities.seat(rows, *place, *seat, *number);
            }
        }
    }

    /// Where the row of the record stands.
    pub(crate) fn standing(&self, sheet: &BalanceSheet, edit: &Edit) -> Option<Standing>
        requires { AreRollsOf sheet.now self.now }
        ensures { result ≡ standing_of edit.now sheet.now self.now }
    {
        let (table, name) = moving_row(edit)?;
        let seats = match table {
            Table::Security => seats_at(&self.securities, &sheet.securities, &name),
            Table::Fund => seats_at(&self.funds, &sheet.funds, &name),
            Table::Liability => seats_at(&self.liabilities, &sheet.liabilities, &name),
            Table::Group => seats_at(&self.groups, &sheet.groups, &name),
            Table::Bank | Table::Rein | Table::Curve => return None,
        };
        Some(Standing { table, name, seats })
    }

    /// A row that the record made, and that is about to go again, leaves all its rolls, without memory.
    pub(crate) fn leave(&mut self, sheet: &BalanceSheet, standing: &Option<Standing>)
        requires valid { Valid sheet.now }
        requires rolls { AreRollsOf sheet.now self.old }
        ensures leaves { (goal : Sheet) → CanGoBack standing.now goal sheet.now self.old → IsReturning standing.now goal self.old self.new }
        ensures numbers { KeepsNumbers self.old self.new }
    {
        if let Some(standing) = standing {
            if standing.seats.is_none() {
                self.release(sheet, standing.table, &standing.name);
            }
        }
    }

    /// A row that the sheet has as it was stands where it stood, without memory.
    pub(crate) fn restore(&mut self, sheet: &BalanceSheet, standing: &Option<Standing>)
        requires { (first : KeptRolls) × IsReturning standing.now sheet.now first self.old }
        ensures returns { (first : KeptRolls) → IsReturning standing.now sheet.now first self.old
            → HaveReturned standing.now sheet.now first self.new }
        ensures numbers { KeepsNumbers self.old self.new }
    {
        if let Some(standing) = standing {
            if let Some(seats) = &standing.seats {
                self.regain(sheet, standing.table, &standing.name, seats);
            }
        }
    }

    fn of_security(
        &mut self,
        alloc: Global,
        name: &Name,
        class: Class,
        group: Option<Name>,
        currency: &Name,
    ) -> Result<Aim, NoMemory>
        requires { (sheet : Sheet) × AreRollsOf sheet self.old }
        ensures kept { (sheet : Sheet) → AreRollsOf sheet self.old → AreKept sheet self.old self.new }
        ensures prepared { IfOk result (λ aim. (sheet : Sheet) (duration : ℤ) → AreRollsOf sheet self.old
            → IsPrepared (Edit.Security name.now class group currency.now duration) sheet aim self.old self.new) }
    {
        let assets = owned_number(
            alloc,
            &mut self.securities,
            &mut self.of_assets,
            currency,
            &[OF_ASSETS, OF_FLOWS],
        )?;
        let (grouped, group) = self.group_numbers(alloc, group)?;
        let numbers = [class_number(class), grouped, group, assets, assets + 1];
        self.securities.make_room(alloc, &numbers)?;
        Ok(Aim::Security(*name, numbers))
    }

    // The numbers of the roll of all securities with a group, and of that of this group.
    fn group_numbers(&mut self, alloc: Global, group: Option<Name>) -> Result<(u32, u32), NoMemory>
        requires { (sheet : Sheet) × AreRollsOf sheet self.old }
        ensures kept { (sheet : Sheet) → AreRollsOf sheet self.old → AreKept sheet self.old self.new }
        ensures grouped { IfOk result (λ numbers. numbers.0 ≡ (if is_some group then 10 else NOWHERE)) }
        ensures group { IfOk result (λ numbers. GroupNumber group numbers.1 self.new) }
        ensures assets { self.new.of_assets ≡ self.old.of_assets }
    {
        let Some(group) = group else {
            return Ok((NOWHERE, NOWHERE));
        };
        let number = owned_number(
            alloc,
            &mut self.securities,
            &mut self.of_groups,
            &group,
            &[OF_GROUP],
        )?;
        Ok((GROUPED, number))
    }

    fn of_payments(
        &mut self,
        alloc: Global,
        sheet: &BalanceSheet,
        name: &Name,
        flows: &Flows,
    ) -> Result<Aim, NoMemory>
        requires valid { Valid sheet.now }
        requires rolls { AreRollsOf sheet.now self.old }
        ensures kept { AreKept sheet.now self.old self.new }
        ensures prepared { IfOk result (λ aim. IsPrepared (Edit.Flows name.now flows.now) sheet.now aim self.old self.new) }
    {
        let Some(place) = recent_place(&sheet.securities, name) else {
            return Ok(Aim::Still);
        };
        if flows.as_slice().is_empty() {
            return Ok(Aim::Payments(place, NOWHERE));
        }
        let number = self.securities.seats(place).roll(OF_ASSETS) + 1;
        self.securities.reserve(alloc, number)?;
        Ok(Aim::Payments(place, number))
    }

    fn of_fund(
        &mut self,
        alloc: Global,
        name: &Name,
        components: &Components,
    ) -> Result<Aim, NoMemory>
        requires { (sheet : Sheet) × AreRollsOf sheet self.old }
        ensures kept { (sheet : Sheet) → AreRollsOf sheet self.old → AreKept sheet self.old self.new }
        ensures prepared { IfOk result (λ aim. (sheet : Sheet) → AreRollsOf sheet self.old
            → IsPrepared (Edit.Fund name.now components.now) sheet aim self.old self.new) }
    {
        let is_closed = components.as_slice().is_empty();
        let number = if is_closed { CLOSED } else { NOWHERE };
        self.funds.make_room(alloc, &[number])?;
        Ok(Aim::Fund(*name, number))
    }

    fn of_group(&mut self, alloc: Global, name: &Name) -> Result<Aim, NoMemory>
        requires { (sheet : Sheet) × AreRollsOf sheet self.old }
        ensures kept { (sheet : Sheet) → AreRollsOf sheet self.old → AreKept sheet self.old self.new }
        ensures prepared { IfOk result (λ aim. (sheet : Sheet) (kind : GroupKind) (step : Option ℕ) → AreRollsOf sheet self.old
            → IsPrepared (Edit.Group name.now kind step) sheet aim self.old self.new) }
    {
        self.groups.make_room(alloc, &[GROUPS])?;
        Ok(Aim::Group(*name))
    }

    fn of_liability(
        &mut self,
        alloc: Global,
        name: &Name,
        kind: LiabilityKind,
        currency: &Name,
    ) -> Result<Aim, NoMemory>
        requires { (sheet : Sheet) × AreRollsOf sheet self.old }
        ensures kept { (sheet : Sheet) → AreRollsOf sheet self.old → AreKept sheet self.old self.new }
        ensures prepared { IfOk result (λ aim. (sheet : Sheet) → AreRollsOf sheet self.old
            → IsPrepared (Edit.Liability name.now kind currency.now) sheet aim self.old self.new) }
    {
        let lines = owned_number(
            alloc,
            &mut self.liabilities,
            &mut self.of_lines,
            currency,
            &[OF_LINES],
        )?;
        let losses = first_loss(kind);
        self.liabilities
            .make_room(alloc, &all_losses(lines, losses))?;
        Ok(Aim::Liability(*name, lines, losses))
    }

    fn of_projection(
        &mut self,
        alloc: Global,
        sheet: &BalanceSheet,
        name: &Name,
        projection: Projection,
        flows: &Flows,
    ) -> Result<Aim, NoMemory>
        requires valid { Valid sheet.now }
        requires rolls { AreRollsOf sheet.now self.old }
        ensures kept { AreKept sheet.now self.old self.new }
        ensures prepared { IfOk result (λ aim.
            IsPrepared (Edit.LiabilityFlows name.now projection flows.now) sheet.now aim self.old self.new) }
    {
        let Some(place) = recent_place(&sheet.liabilities, name) else {
            return Ok(Aim::Still);
        };
        let seat = place_of(projection);
        if flows.as_slice().is_empty() {
            return Ok(Aim::Projected(place, seat, NOWHERE));
        }
        let number = first_loss(sheet.liabilities.at(place).kind) + seat as u32;
        self.liabilities.reserve(alloc, number)?;
        Ok(Aim::Projected(place, seat, number))
    }

    fn settle_security(&mut self, sheet: &BalanceSheet, name: &Name, numbers: [u32; 5])
        requires { Await (Aim.Security name.now numbers) sheet.now self.old }
        ensures { IsSettled Table.Security name.now
            (λ seat. target seat (security_rolls numbers (position_of name.now sheet.now.securities))) sheet.now self.old self.new }
    {
        let rows = &sheet.securities;
        let _count = rows.len();
        let place = self.securities.placed(rows, name);
        let mut numbers = numbers;
        if !is_paying(rows.at(place)) {
            numbers[OF_FLOWS] = NOWHERE;
        }
        self.securities.arrange(rows, place, &numbers);
    }

    fn settle_liability(&mut self, sheet: &BalanceSheet, name: &Name, lines: u32, losses: u32)
        requires { Await (Aim.Liability name.now lines losses) sheet.now self.old }
        ensures { IsSettled Table.Liability name.now
            (λ seat. target seat (liability_rolls lines losses (row_of liability_name name.now sheet.now.liabilities))) sheet.now self.old self.new }
    {
        let rows = &sheet.liabilities;
        let _count = rows.len();
        let place = self.liabilities.placed(rows, name);
        let rolls = losses_of(rows.at(place), lines, losses);
        self.liabilities.arrange(rows, place, &rolls);
    }

    // The row of a table leaves all its rolls.
    fn release(&mut self, sheet: &BalanceSheet, table: Table, name: &Name)
        requires valid { Valid sheet.now }
        requires rolls { AreRollsOf sheet.now self.old }
        ensures { IsPrepared (Edit.Remove table name.now) sheet.now Aim.Still self.old self.new }
    {
        match table {
            Table::Security => self.securities.release(&sheet.securities, name),
            Table::Fund => self.funds.release(&sheet.funds, name),
            Table::Liability => self.liabilities.release(&sheet.liabilities, name),
            Table::Group => self.groups.release(&sheet.groups, name),
            Table::Bank | Table::Rein | Table::Curve => {}
        }
    }

    // The row of a table stands where it stood.
    fn regain(&mut self, sheet: &BalanceSheet, table: Table, name: &Name, before: &Seats)
        requires { CanRegain table name.now before.now sheet.now self.old }
        ensures { IsRegained table name.now before.now sheet.now self.old self.new }
    {
        match table {
            Table::Security => self.securities.regain(&sheet.securities, name, before),
            Table::Fund => self.funds.regain(&sheet.funds, name, before),
            Table::Liability => self.liabilities.regain(&sheet.liabilities, name, before),
            Table::Group => self.groups.regain(&sheet.groups, name, before),
            Table::Bank | Table::Rein | Table::Curve => {}
        }
    }
}

// Rolls without members, each for a seat.
fn seating<const N: usize>(alloc: Global, seats: &[usize]) -> Result<Seating<N>, NoMemory>
    requires few { N ≤ 11 }
    requires eleven { (k : ℕ) → slice_index_or seats.now k 0 < 11 }
    requires width { (k : ℕ) → slice_index_or seats.now k 0 < N }
    ensures count { IfOk result (λ seating. length seating.rolls ≡ length seats.now) }
    ensures own { IfOk result (λ seating. (number : ℕ) → number < length seats.now
        → seat_of number seating.rolls ≡ slice_index_or seats.now number 0) }
    ensures names { IfOk result (λ seating. (number : ℕ) → names_of number seating.rolls ≡ []) }
    ensures seated { IfOk result (λ seating. AreSeated [] seating) }
{
    let mut seating = Seating::new(alloc);
    seating.add_all(alloc, seats)?;
    Ok(seating)
}

// The members of an owner's roll, or of the one after it; nobody where it has none.
fn owned<const N: usize>(seating: &Seating<N>, number: Option<u32>, next: u32) -> &[Name]
    requires number { IfSome number (λ n. n + next < length seating.now.rolls) }
    requires few { length seating.now.rolls ≤ NOWHERE }
    ensures { result.now ≡ option_map_or (λ n. names_of (n + next) seating.now.rolls) number [] }
{
    match number {
        Some(number) => seating.roll(number + next),
        None => &[],
    }
}

// The first number of an owner's rolls, which are made where it has none. Where it has one no roll comes.
fn owned_number<const N: usize>(
    alloc: Global,
    seating: &mut Seating<N>,
    owners: &mut Owners,
    owner: &Name,
    seats: &[usize],
) -> Result<u32, NoMemory>
    requires eleven { (k : ℕ) → slice_index_or seats.now k 0 < 11 }
    requires width { (k : ℕ) → slice_index_or seats.now k 0 < N }
    ensures gives { GivesNumber owner.now seats.now seating.old seating.new owners.old owners.new }
    ensures own { IfOk result (λ number. number_of owner.now owners.new ≡ Some number) }
    ensures had { (number : ℕ) → number_of owner.now owners.old ≡ Some number → seating.new ≡ seating.old }
{
    if let Some(number) = owners.number(owner) {
        return Ok(number);
    }
    let number = seating.add_all(alloc, seats)?;
    owners.put(alloc, *owner, number)?;
    Ok(number)
}

// The row of a name stands in this roll in its first seat.
fn stand<R: Row, const N: usize>(seating: &mut Seating<N>, rows: &Rows<R>, name: &Name, number: u32)
    requires seated { AwaitsSeats R.name_of name.now rows.now seating.old }
    requires there { has_row R.name_of name.now rows.now ≡ true }
    requires roll { IsFor seating.old.rolls 0 number }
    requires room { number ≢ NOWHERE → number ≢ roll_in 0 (seats_of (map R.name_of rows.now) seating.old.seats name.now)
        → 0 < room_of number seating.old.rolls }
    ensures seated { AreSeated (map R.name_of rows.now) seating.new }
    ensures keeps { KeepsSeats seating.old.rolls seating.new.rolls }
    ensures room { KeepsRoom seating.old.rolls seating.new.rolls }
    ensures own { roll_in 0 (seats_of (map R.name_of rows.now) seating.new.seats name.now) ≡ number }
    ensures stood { (seat : ℕ) → 0 < seat → roll_in seat (seats_of (map R.name_of rows.now) seating.new.seats name.now) ≢ NOWHERE
        → has name.now (names_of (roll_in seat (seats_of (map R.name_of rows.now) seating.new.seats name.now)) seating.old.rolls) ≡ true }
    ensures names { (n : ℕ) → n < length seating.old.rolls → names_of n seating.new.rolls
        ≡ moved name.now (has name.now (names_of n seating.old.rolls))
        (roll_in (seat_of n seating.old.rolls) (seats_of (map R.name_of rows.now) seating.new.seats name.now) == n)
        (names_of n seating.old.rolls) }
{
    let _count = rows.len();
    let place = seating.placed(rows, name);
    seating.arrange(rows, place, &[number]);
}

// The seats of the row of a name, if it is there.
fn seats_at<R: Row, const N: usize>(
    seating: &Seating<N>,
    rows: &Rows<R>,
    name: &Name,
) -> Option<Seats>
    requires { AreSeated (map R.name_of rows.now) seating.now }
    ensures { result ≡ (if has_row R.name_of name.now rows.now
        then Some (seats_of (map R.name_of rows.now) seating.now.seats name.now) else None) }
{
    let _count = rows.len();
    let place = rows.place(name)?;
    Some(seating.seats(place))
}

// The place of one with these seats in a roll of a seat, if it stands there.
fn stood(seats: &Seats, seat: usize, number: u32) -> Option<u32>
    requires { seat < 11 }
    ensures { result ≡ stood seat number seats.now }
{
    if seats.roll(seat) == number {
        Some(seats.place(seat))
    } else {
        None
    }
}

// The seat in which its members have a roll.
fn seat_of_roll(roll: &Roll) -> usize
    ensures seat { result ≡ seat_of_roll roll.now }
    ensures few { result < 11 }
{
    match roll {
        Roll::Class(_) | Roll::Bonds | Roll::Closed | Roll::Groups => 0,
        Roll::Grouped => 1,
        Roll::Group(_) => OF_GROUP,
        Roll::Assets(_) => OF_ASSETS,
        Roll::Flows(_) => OF_FLOWS,
        Roll::Lines(_) => OF_LINES,
        Roll::Losses(_, projection) => place_of(*projection),
    }
}

fn class_number(class: Class) -> u32
    ensures { result ≡ class_number class }
{
    match class {
        Class::Type1Equity => 0,
        Class::Type1Strategic => 1,
        Class::Type2Equity => 2,
        Class::Type2Strategic => 3,
        Class::Infrastructure => 4,
        Class::InfrastructureCorporate => 5,
        Class::Property => 6,
        Class::Bond => 7,
        Class::Government => 8,
        Class::Other => 9,
    }
}

// The number of the first of the ten rolls of a kind.
fn first_loss(kind: LiabilityKind) -> u32
    ensures number { result ≡ kind_number kind }
    ensures few { result ≤ 20 }
{
    match kind {
        LiabilityKind::Life => 0,
        LiabilityKind::Health => 10,
        LiabilityKind::Other => 20,
    }
}

// The ten rolls of a kind and that of a currency, by seat.
fn all_losses(lines: u32, losses: u32) -> [u32; 11]
    requires { losses ≤ 20 }
    ensures { result ≡ map (λ projection. losses + place_of projection) all_projections ++ lines ∷ [] }
{
    [
        losses,
        losses + 1,
        losses + 2,
        losses + 3,
        losses + 4,
        losses + 5,
        losses + 6,
        losses + 7,
        losses + 8,
        losses + 9,
        lines,
    ]
}

// Those of them in which a liability is to stand.
fn losses_of(liability: &Liability, lines: u32, losses: u32) -> [u32; 11]
    requires { losses ≤ 20 }
    ensures { result ≡ liability_rolls lines losses (Some liability.now) }
{
    [
        loss_of(liability, Projection::Base, losses),
        loss_of(liability, Projection::Mortality, losses),
        loss_of(liability, Projection::Longevity, losses),
        loss_of(liability, Projection::Disability, losses),
        loss_of(liability, Projection::Expense, losses),
        loss_of(liability, Projection::Revision, losses),
        loss_of(liability, Projection::LapseUp, losses),
        loss_of(liability, Projection::LapseDown, losses),
        loss_of(liability, Projection::LapseMass, losses),
        loss_of(liability, Projection::Catastrophe, losses),
        lines,
    ]
}

fn loss_of(liability: &Liability, projection: Projection, losses: u32) -> u32
    requires { losses ≤ 20 }
    ensures { result ≡ (if has_flows projection liability.now then losses + place_of projection else NOWHERE) }
{
    if has_flows(projection, liability) {
        losses + place_of(projection) as u32
    } else {
        NOWHERE
    }
}

// The table and the name of the row that the record makes, replaces, changes or drops, where rolls can have it.
fn moving_row(edit: &Edit) -> Option<(Table, Name)>
    ensures { result ≡ option_map (λ table. (table, edit_name edit.now)) (moves_in edit.now) }
{
    match edit {
        Edit::Group { name, .. } => Some((Table::Group, *name)),
        Edit::Security { name, .. } => Some((Table::Security, *name)),
        Edit::Fund { name, .. } => Some((Table::Fund, *name)),
        Edit::Liability { name, .. } => Some((Table::Liability, *name)),
        Edit::Flows { security, .. } => Some((Table::Security, *security)),
        Edit::LiabilityFlows { liability, .. } => Some((Table::Liability, *liability)),
        Edit::Remove { table, name } if has_rolls(*table) => Some((*table, *name)),
        _ => None,
    }
}

// Rows of the table may be members of rolls.
fn has_rolls(table: Table) -> bool
    ensures { result ≡ same_table table table }
{
    match table {
        Table::Security | Table::Fund | Table::Liability | Table::Group => true,
        Table::Bank | Table::Rein | Table::Curve => false,
    }
}
