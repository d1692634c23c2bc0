//! The graph of a book by numbers: which point has a number, from which others it is reckoned, and which are reckoned from it. All but
//! the links of funds, currencies and the whole sheet is read off rows and member lists.
ghost use Rattle.std.specs.Prelude.{◌≡◌, ◌≢◌, ◌++◌, ◌+◌, ◌-◌, ◌<◌, ◌≤◌, ◌^◌, ℕ, List, [], true, All, IfSome, IsNone, OnOk, Some, length, map, false};
ghost use Rattle.std.specs.List.{range_with_len};
ghost use Rattle.scr_sum_tree.specs.Blocks.{blocks_at, is_block};
ghost use Rattle.scr_figure_ids.specs.Families.{family_of, table_of as table_of_figure};
ghost use Rattle.scr_nodes.specs.declared.node.Node.{Node as TheNode};
ghost use Rattle.scr_ids.specs.Ranges.{IsAt};
ghost use Rattle.scr_member_lists.specs.Seatings.{roll_in as roll_at};
ghost use Rattle.scr_sheet.specs.Members.{table_of};
ghost use Rattle.scr_sheet.specs.Validity.{Valid};
ghost use Rattle.scr_sheet.specs.declared.keys.Projection.{Projection as TheProjection};
ghost use Rattle.scr_sheet.specs.declared.keys.Table.TheVariants as tables;
ghost use Rattle.scr_sheet.specs.declared.roll.Roll.{Roll as TheRoll};
ghost use Rattle.scr_book.specs.Places.{names_in};
ghost use Rattle.scr_book.specs.Rolls.{KeptRolls, number_of_roll, roll_of, same_table, seat_of_roll};
ghost use Rattle.scr_book.specs.Sums.{place_of as projection_place};
ghost use Rattle.scr_reachability.specs.Linked.{AreAt, sources_in as linked_in};
ghost use Rattle.scr_block_graph.specs.BlockNumbers.{sole};
ghost use Rattle.scr_block_graph.specs.Books.{rolled_of};
ghost use Rattle.scr_block_graph.specs.Graph.{block_point, is_live_in, reads, roll_in, sources_in, tops_of};
ghost use Rattle.scr_block_graph.specs.Levels.{level_in};
ghost use Rattle.scr_block_graph.specs.Sums.{member_of, reader_of, roll_of as sum_roll};
ghost use Rattle.scr_sum_tree.specs.Readers.{IsReader};
ghost use Rattle.scr_sum_tree.specs.declared.readers.Reader.TheVariants as readers;
ghost use Rattle.scr_ids.specs.declared.table.Table.{Table as TheTable};
ghost use Rattle.scr_ids.specs.declared.table.Table.TheVariants as ranged;
ghost use Rattle.scr_reachability.specs.LinkedDues.{IsLiveAt};
ghost use Rattle.scr_block_graph.specs.declared.point.Block.{Block as TheBlock};
ghost use Rattle.scr_block_graph.specs.declared.point.Point.{Point as ThePoint};
ghost use Rattle.scr_block_graph.specs.declared.point.Point.TheVariants as points;
ghost use Rattle.scr_tree.specs.First.{BeginsAt};
ghost use Rattle.scr_tree.specs.Marking as marking;
ghost use Rattle.scr_tree.specs.Marking.{AreMarkedFrom, AreMarkedMore, AreRowMarked, IsAboveSquares, IsDependantAt, IsLeftToAssets, IsLinkedDependantAt, IsMemberAt, IsPlainDependantAt, IsReaderAt};
ghost use Rattle.scr_tree.specs.Points.{AreNumbersOf, IsGraphOf, StandsIn, book_graph};
ghost use Rattle.scr_tree.specs.Points as spec;
ghost use Rattle.scr_tree.specs.Reading as reading;
ghost use Rattle.scr_tree.specs.Reading.{IsRollAt, IsRollOf};

use crate::first_links::ASSETS;
use crate::sums::blocks_of;
use scr_block_graph::{Block, Point, Sum, block_level, block_number, sum_at, sums_of};
use scr_book::{Book, Table as RowTable};
use scr_figure_ids::{find, group_family, level, liability_family, node_at, security_family};
use scr_ids::{Place, Places, Table};
use scr_links::Links;
use scr_member_index::{Lists, list_of};
use scr_member_lists::{NOWHERE, SEATS, Seats};
use scr_nodes::rows::{has_class, is_closed, is_paying};
use scr_nodes::{
    Biometric, Direction, Measure, Node, OfCurrency, OfFund, OfGroup, OfLiability, OfSecurity,
    is_live,
};
use scr_reachability::Marked;
use scr_sheet::{Class, LiabilityKind, Projection, Roll};
use scr_sum_tree::{Level, Reader, blocks_at, part, places, reader_of_block, reader_of_member};
use std::alloc::AllocError as NoMemory;
use std::ops::Range;

/// What numbers are read off: the book, and the numbers of its rows, of its lists and of their parts.
#[derive(Clone, Copy)]
pub(crate) struct Numbers<'a> {
    pub(crate) book: &'a Book,
    pub(crate) places: &'a Places,
    pub(crate) lists: &'a Lists,
}

/// The numbers, and the links of the figures that neither rows nor lists give.
#[derive(Clone, Copy)]
pub(crate) struct Graph<'a> {
    pub(crate) numbers: Numbers<'a>,
    pub(crate) links: &'a Links,
}

// ---- numbers

/// The family of the figure of a member that the sum adds up.
pub(crate) fn member_family(sum: &Sum) -> u32
    ensures { (name : List ℕ) → result ≡ family_of (member_of sum.now name) }
{
    match sum {
        Sum::Spreads => security_family(OfSecurity::Spread),
        Sum::Rates(_, direction) => security_family(OfSecurity::Rate(*direction)),
        Sum::Costs(_, direction) => liability_family(OfLiability::Rate(*direction)),
        Sum::Presents(_) => liability_family(OfLiability::Present),
        Sum::Losses(_, projection) => liability_family(OfLiability::Loss(*projection)),
        Sum::Squares => group_family(OfGroup::ConcentrationSquare),
        _ => 0,
    }
}

fn projection_in(seat: usize) -> Projection
    ensures { (projection : TheProjection) → projection_place projection ≡ seat → result ≡ projection }
{
    match seat {
        0 => Projection::Base,
        1 => Projection::Mortality,
        2 => Projection::Longevity,
        3 => Projection::Disability,
        4 => Projection::Expense,
        5 => Projection::Revision,
        6 => Projection::LapseUp,
        7 => Projection::LapseDown,
        8 => Projection::LapseMass,
        _ => Projection::Catastrophe,
    }
}

impl<'a> Numbers<'a> {
    /// The number of a figure or a Block, if it has one.
    pub(crate) fn number_of(&self, point: &Point) -> Option<u32>
        requires { AreNumbersOf self.now.book.now self.now.places.now self.now.lists.now }
        ensures there { IfSome result (λ number. StandsIn self.now.book.now self.now.places.now self.now.lists.now point.now number) }
        ensures absent { IsNone result → (number : ℕ) → StandsIn self.now.book.now self.now.places.now self.now.lists.now point.now number → ⊥ }
    {
        match point {
            Point::Figure(node) => find(self.places, self.book.sheet(), node),
            Point::Block(block) => block_number(self.book, self.lists.parts(), self.places, block),
        }
    }

    /// What a number stands for. The first ones are those of the whole sheet, and are told without a search.
    #[inline(always)]
    pub(crate) fn place_at(&self, number: u32) -> Option<Place>
        requires { AreNumbersOf self.now.book.now self.now.places.now self.now.lists.now }
        ensures there { IfSome result (λ p. IsAt self.now.places.now p.table p.row p.family number) }
        ensures absent { IsNone result → (table : TheTable) (k j : ℕ) → IsAt self.now.places.now table k j number → ⊥ }
    {
        if number < Table::Whole.stride() {
            return Some(Place {
                table: Table::Whole,
                row: 0,
                family: number,
            });
        }
        self.places.at(number)
    }

    /// The figure or the Block that has a number.
    pub(crate) fn point_at(&self, number: u32) -> Option<Point>
        requires { AreNumbersOf self.now.book.now self.now.places.now self.now.lists.now }
        ensures there { IfSome result (λ point. StandsIn self.now.book.now self.now.places.now self.now.lists.now point number) }
        ensures absent { IsNone result → (point : ThePoint) → StandsIn self.now.book.now self.now.places.now self.now.lists.now point number → is_live_in (rolled_of self.now.book.now) point ≡ true → ⊥ }
    {
        // No number is of two rows.
        let _numbers = self.places.len();
        let place = self.places.at(number)?;
        match place.table {
            Table::Part => Some(Point::Block(self.block_at(number)?)),
            _ => Some(Point::Figure(node_at(self.places, self.book.sheet(), number)?)),
        }
    }

    /// The Block that has a number.
    pub(crate) fn block_at(&self, number: u32) -> Option<Block>
        requires { AreNumbersOf self.now.book.now self.now.places.now self.now.lists.now }
        ensures there { IfSome result (λ block. StandsIn self.now.book.now self.now.places.now self.now.lists.now (points.Block block) number) }
        ensures absent { IsNone result → (block : TheBlock) → StandsIn self.now.book.now self.now.places.now self.now.lists.now (points.Block block) number
            → is_live_in (rolled_of self.now.book.now) (points.Block block) ≡ true → ⊥ }
    {
        // No number is of two rows, and no slot is of two parts.
        let parts = self.lists.parts();
        let _numbers = self.places.len();
        let _slots = parts.len();
        let (part, own) = parts.numbered(self.places, number)?;
        let roll = self.roll_of(part.list)?;
        Some(Block {
            sum: sum_at(&roll, own)?,
            level: part.level,
            index: part.index,
        })
    }

    /// The list that begins at a slot: whose first part on the first level has it.
    pub(crate) fn list_begun(&self, slot: u32) -> Option<u32>
        ensures there { IfSome result (BeginsAt self.now.lists.now.parts slot) }
        ensures absent { IsNone result → (list : ℕ) → BeginsAt self.now.lists.now.parts slot list → ⊥ }
    {
        // No slot is of two parts.
        let parts = self.lists.parts();
        let _slots = parts.len();
        let part = parts.part(slot)?;
        match part.level {
            Level::First if part.index == 0 => Some(part.list),
            _ => None,
        }
    }

    /// Which list it is that has a number: by the number alone where it is one for all books, or by the seat in which its first member has
    /// it.
    pub(crate) fn roll_of(&self, list: u32) -> Option<Roll>
        requires { AreNumbersOf self.now.book.now self.now.places.now self.now.lists.now }
        ensures there { IfSome result (IsRollOf self.now.book.now.rolls list) }
        ensures absent { IsNone result → (roll : TheRoll) → IsRollOf self.now.book.now.rolls list roll → roll_of roll self.now.book.now.rolls ≡ [] }
    {
        // No number is of two rows.
        let _numbers = self.places.len();
        let (table, number) = list_of(list);
        if let Some(roll) = fixed_roll(table, number) {
            return Some(roll);
        }
        let first = self.lists.of(table).list(number).first()?;
        let row = self.places.at(*first)?.row;
        let seat = seat_in(&seats_at(self.book, table, row), number)?;
        self.roll_in(table, row, seat)
    }

    /// The list of which the row at a place is a member, and which has its members in a seat.
    fn roll_in(&self, table: RowTable, row: usize, seat: usize) -> Option<Roll>
        requires table { same_table table table ≡ true }
        requires row { row < length (names_in table self.now.book.now.sheet) }
        ensures member { (roll : TheRoll) → IsRollAt table row seat self.now.book.now.sheet roll → result ≡ Some (sole roll) }
        ensures table { IfSome result (λ roll. table_of roll ≡ table) }
    {
        let sheet = self.book.sheet();
        match table {
            RowTable::Security => {
                let security = &sheet.securities.at(row).security;
                match seat {
                    0 => Some(Roll::Class(security.class)),
                    1 => Some(Roll::Grouped),
                    2 => Some(Roll::Group(security.group?)),
                    3 => Some(Roll::Assets(security.currency)),
                    _ => Some(Roll::Flows(security.currency)),
                }
            }
            RowTable::Liability => {
                let liability = sheet.liabilities.at(row);
                if seat == 10 {
                    return Some(Roll::Lines(liability.currency));
                }
                Some(Roll::Losses(liability.kind, projection_in(seat)))
            }
            RowTable::Fund => Some(Roll::Closed),
            _ => Some(Roll::Groups),
        }
    }
}

/// The list of a table that has this number in all books: that of a class, or one of which there is no second.
fn fixed_roll(table: RowTable, number: u32) -> Option<Roll>
    ensures there { IfSome result (λ roll. (table_of roll ≡ table) × ((kept : KeptRolls) → number_of_roll roll kept ≡ Some number)) }
    ensures absent { IsNone result → ((table ≡ tables.Security → 10 < number) × (table ≡ tables.Fund → 0 < number)) × (table ≡ tables.Group → 0 < number) }
{
    match table {
        RowTable::Security => fixed_among_securities(number),
        RowTable::Fund if number == 0 => Some(Roll::Closed),
        RowTable::Group if number == 0 => Some(Roll::Groups),
        _ => None,
    }
}

/// The same of securities.
fn fixed_among_securities(number: u32) -> Option<Roll>
    ensures there { IfSome result (λ roll. (table_of roll ≡ tables.Security) × ((kept : KeptRolls) → number_of_roll roll kept ≡ Some number)) }
    ensures absent { IsNone result → 10 < number }
{
    match number {
        0 => Some(Roll::Class(Class::Type1Equity)),
        1 => Some(Roll::Class(Class::Type1Strategic)),
        2 => Some(Roll::Class(Class::Type2Equity)),
        3 => Some(Roll::Class(Class::Type2Strategic)),
        4 => Some(Roll::Class(Class::Infrastructure)),
        5 => Some(Roll::Class(Class::InfrastructureCorporate)),
        6 => Some(Roll::Class(Class::Property)),
        7 => Some(Roll::Class(Class::Bond)),
        8 => Some(Roll::Class(Class::Government)),
        9 => Some(Roll::Class(Class::Other)),
        10 => Some(Roll::Grouped),
        _ => None,
    }
}

/// The first seat in which one with these seats stands in the list of a number.
fn seat_in(seats: &Seats, number: u32) -> Option<usize>
    ensures there { IfSome result (λ seat. (seat < 11) × (roll_at seat seats.now ≡ number)) }
    ensures absent { IsNone result → (seat : ℕ) → seat < 11 → roll_at seat seats.now ≢ number }
{
    for seat in 0..SEATS {
        if seats.roll(seat) == number {
            return Some(seat);
        }
    }
    None
}

// ---- levels

impl<'a> Numbers<'a> {
    /// The level of the point at a place: each source stands lower. And whether the point is of squares: the square of a group, or a
    /// Block over squares.
    pub(crate) fn level_at(&self, number: u32, place: &Place) -> (u32, bool)
        requires numbers { AreNumbersOf self.now.book.now self.now.places.now self.now.lists.now }
        requires at { IsAt self.now.places.now place.now.table place.now.row place.now.family number }
        ensures level { (point : ThePoint) → StandsIn self.now.book.now self.now.places.now self.now.lists.now point number → is_live_in (rolled_of self.now.book.now) point ≡ true → result.0 ≡ level_in point }
        ensures squares { (point : ThePoint) → StandsIn self.now.book.now self.now.places.now self.now.lists.now point number → is_live_in (rolled_of self.now.book.now) point ≡ true → result.1 ≡ marking.is_of_squares point }
    {
        // No number is of two rows.
        let _numbers = self.places.len();
        match place.table {
            Table::Part => match self.block_at(number) {
                Some(block) => (block_level(&block), is_squares(&block.sum)),
                None => (0, false),
            },
            _ => (3 * level(place.table, place.family), is_square(place)),
        }
    }
}

/// Its Blocks are over squares.
fn is_squares(sum: &Sum) -> bool
    ensures { result ≡ marking.is_squares sum.now }
{
    matches!(sum, Sum::Squares)
}

/// A figure at the place is the square of a group.
fn is_square(place: &Place) -> bool
    ensures { (node : TheNode) → table_of_figure node ≡ place.now.table → family_of node ≡ place.now.family → result ≡ marking.is_of_squares (points.Figure node) }
{
    match place.table {
        Table::Group => place.family == group_family(OfGroup::ConcentrationSquare),
        _ => false,
    }
}

// ---- sources

/// Whether the sources of the figure are linked to it: the totals of funds and securities, and figures of currencies and of the whole
/// sheet that no large sum gives.
pub(crate) fn is_linked(node: &Node) -> bool
    ensures { result ≡ spec.is_linked node.now }
{
    match node {
        Node::Fund(_, OfFund::Total) | Node::Security(_, OfSecurity::Total) => true,
        Node::Currency(_, _) | Node::Whole(_) => sums_of(node).0.is_none(),
        _ => false,
    }
}

/// Whether the sources of the figure stand beside it among the numbers of its row, but for the assets, which have one number.
pub(crate) fn is_beside(node: &Node) -> bool
    ensures { result ≡ spec.is_beside node.now }
{
    match node {
        Node::Security(_, OfSecurity::Rate(_) | OfSecurity::Spread) => true,
        Node::Group(_, OfGroup::ConcentrationSquare) => true,
        _ => false,
    }
}

impl<'a> Graph<'a> {
    /// Pushes the numbers of all sources of the point that has the number.
    pub(crate) fn push_sources(
        &self,
        list: &mut Vec<u32>,
        number: u32,
        point: &Point,
    ) -> Result<(), NoMemory>
        requires graph { IsGraphOf self.now.numbers.book.now self.now.numbers.places.now self.now.numbers.lists.now self.now.links.now.edges }
        requires valid { Valid self.now.numbers.book.now.sheet }
        requires at { StandsIn self.now.numbers.book.now self.now.numbers.places.now self.now.numbers.lists.now point.now number }
        requires live { is_live_in (rolled_of self.now.numbers.book.now) point.now ≡ true }
        ensures { OnOk result ((more : List ℕ) × (list.new.items ≡ list.old.items ++ more)
            × AreAt (StandsIn self.now.numbers.book.now self.now.numbers.places.now self.now.numbers.lists.now) more (sources_in (rolled_of self.now.numbers.book.now) point.now)) }
    {
        match point {
            Point::Block(block) => self.push_below(list, block),
            Point::Figure(node) => self.push_of_figure(list, number, node),
        }
    }

    fn push_of_figure(&self, list: &mut Vec<u32>, number: u32, node: &Node) -> Result<(), NoMemory>
        requires graph { IsGraphOf self.now.numbers.book.now self.now.numbers.places.now self.now.numbers.lists.now self.now.links.now.edges }
        requires valid { Valid self.now.numbers.book.now.sheet }
        requires at { StandsIn self.now.numbers.book.now self.now.numbers.places.now self.now.numbers.lists.now (points.Figure node.now) number }
        requires live { is_live_in (rolled_of self.now.numbers.book.now) (points.Figure node.now) ≡ true }
        ensures { OnOk result ((more : List ℕ) × (list.new.items ≡ list.old.items ++ more)
            × AreAt (StandsIn self.now.numbers.book.now self.now.numbers.places.now self.now.numbers.lists.now) more (sources_in (rolled_of self.now.numbers.book.now) (points.Figure node.now))) }
    {
        if is_beside(node) {
            return self.push_beside(list, number, node);
        }
        let (first, second) = sums_of(node);
        if first.is_none() {
            return self.push_linked(list, number);
        }
        self.push_tops(list, &first)?;
        self.push_tops(list, &second)
    }

    /// Of a figure whose sources stand beside it.
    pub(crate) fn push_beside(
        &self,
        list: &mut Vec<u32>,
        number: u32,
        node: &Node,
    ) -> Result<(), NoMemory>
        requires numbers { AreNumbersOf self.now.numbers.book.now self.now.numbers.places.now self.now.numbers.lists.now }
        requires at { StandsIn self.now.numbers.book.now self.now.numbers.places.now self.now.numbers.lists.now (points.Figure node.now) number }
        requires beside { spec.is_beside node.now ≡ true }
        ensures { OnOk result ((more : List ℕ) × (list.new.items ≡ list.old.items ++ more)
            × AreAt (StandsIn self.now.numbers.book.now self.now.numbers.places.now self.now.numbers.lists.now) more (sources_in (rolled_of self.now.numbers.book.now) (points.Figure node.now))) }
    {
        match node {
            Node::Security(_, OfSecurity::Rate(_)) => {
                list.push(self.first_of(number))?;
                list.push(number - 2)?;
                Ok(())
            }
            Node::Security(_, OfSecurity::Spread) => {
                list.push(number - 5)?;
                Ok(())
            }
            Node::Group(_, OfGroup::ConcentrationSquare) => {
                list.push(ASSETS)?;
                list.push(number - 1)?;
                Ok(())
            }
            _ => unreachable!(),
        }
    }

    fn first_of(&self, number: u32) -> u32
        ensures { (table : TheTable) (k j : ℕ) → IsAt self.now.numbers.places.now table k j number → result + j ≡ number }
    {
        // The size is what says that no number is that of two.
        let _size = self.numbers.places.len();
        match self.numbers.places.at(number) {
            Some(place) => number - place.family,
            None => number,
        }
    }

    /// Of a figure whose sources are linked to it.
    pub(crate) fn push_linked(&self, list: &mut Vec<u32>, number: u32) -> Result<(), NoMemory>
        ensures { OnOk result (list.new.items ≡ list.old.items ++ linked_in self.now.links.now.edges number) }
    {
        for (source, _) in self.links.sources(number) {
            list.push(source)?;
        }
        Ok(())
    }

    /// What is left of a sum at the top of its Blocks.
    fn push_tops(&self, list: &mut Vec<u32>, sum: &Option<Sum>) -> Result<(), NoMemory>
        requires numbers { AreNumbersOf self.now.numbers.book.now self.now.numbers.places.now self.now.numbers.lists.now }
        requires valid { Valid self.now.numbers.book.now.sheet }
        requires reads { IfSome sum.now (λ sum. reads self.now.numbers.book.now.sheet sum ≡ true) }
        ensures { OnOk result ((more : List ℕ) × (list.new.items ≡ list.old.items ++ more)
            × AreAt (StandsIn self.now.numbers.book.now self.now.numbers.places.now self.now.numbers.lists.now) more (tops_of (rolled_of self.now.numbers.book.now) sum.now)) }
    {
        let Some(sum) = sum else {
            return Ok(());
        };
        // The size is what says that all are numbers.
        let _size = self.numbers.places.len();
        let members = self.numbers.lists.members(self.numbers.book, sum.roll());
        let count = members.len();
        let firsts = blocks_at(count, Level::First);
        let seconds = blocks_at(count, Level::Second);
        if firsts == 0 {
            push_members(list, members, member_family(sum))
        } else if seconds == 0 {
            self.push_blocks(list, sum, count, Level::First, 0..firsts)
        } else {
            self.push_blocks(list, sum, count, Level::Second, 0..seconds)
        }
    }

    /// What a Block adds up.
    fn push_below(&self, list: &mut Vec<u32>, block: &Block) -> Result<(), NoMemory>
        requires numbers { AreNumbersOf self.now.numbers.book.now self.now.numbers.places.now self.now.numbers.lists.now }
        requires valid { Valid self.now.numbers.book.now.sheet }
        requires live { is_live_in (rolled_of self.now.numbers.book.now) (points.Block block.now) ≡ true }
        ensures { OnOk result ((more : List ℕ) × (list.new.items ≡ list.old.items ++ more)
            × AreAt (StandsIn self.now.numbers.book.now self.now.numbers.places.now self.now.numbers.lists.now) more (sources_in (rolled_of self.now.numbers.book.now) (points.Block block.now))) }
    {
        // The size is what says that all are numbers.
        let _size = self.numbers.places.len();
        let members = self
            .numbers
            .lists
            .members(self.numbers.book, block.sum.roll());
        match block.level {
            Level::First => {
                let own = part(members, block.index as usize);
                push_members(list, own, member_family(&block.sum))
            }
            Level::Second => {
                let count = members.len();
                let firsts = blocks_at(count, Level::First);
                let among = places(firsts, Level::First, block.index as usize);
                self.push_blocks(list, &block.sum, count, Level::First, among)
            }
        }
    }

    /// The Blocks of a level that are among these, of a sum over so many members.
    fn push_blocks(
        &self,
        list: &mut Vec<u32>,
        sum: &Sum,
        count: usize,
        level: Level,
        among: Range<usize>,
    ) -> Result<(), NoMemory>
        requires numbers { AreNumbersOf self.now.numbers.book.now self.now.numbers.places.now self.now.numbers.lists.now }
        requires valid { Valid self.now.numbers.book.now.sheet }
        requires count { count ≡ length (roll_in (rolled_of self.now.numbers.book.now) sum.now) }
        requires there { among.end ≤ blocks_at (length (roll_in (rolled_of self.now.numbers.book.now) sum.now)) level }
        ensures { OnOk result ((more : List ℕ) × (list.new.items ≡ list.old.items ++ more)
            × AreAt (StandsIn self.now.numbers.book.now self.now.numbers.places.now self.now.numbers.lists.now) more (map (block_point sum.now level) (range_with_len among.start (among.end - among.start)))) }
    {
        let Some(blocks) = blocks_of(self.numbers, sum) else {
            return Ok(());
        };
        for index in among.start..among.end {
            list.push(blocks.number(count, level, index))?;
        }
        Ok(())
    }
}

fn push_members(list: &mut Vec<u32>, firsts: &[u32], family: u32) -> Result<(), NoMemory>
    requires { All (λ first. first + family < 2 ^ 32) firsts.now }
    ensures { OnOk result (list.new.items ≡ list.old.items ++ map (λ first. first + family) firsts.now) }
{
    for first in firsts {
        list.push(*first + family)?;
    }
    Ok(())
}

/// The seats of the row at a place of a table whose rows are members of lists.
fn seats_at(book: &Book, table: RowTable, row: usize) -> Seats
    requires table { same_table table table ≡ true }
    requires row { row < length (names_in table book.now.sheet) }
    ensures { result ≡ reading.seats_at table row book.now.rolls }
{
    match table {
        RowTable::Security => book.security_seats().seats(row),
        RowTable::Liability => book.liability_seats().seats(row),
        RowTable::Fund => book.fund_seats().seats(row),
        RowTable::Group => book.group_seats().seats(row),
        RowTable::Bank | RowTable::Rein | RowTable::Curve => unreachable!(),
    }
}

// ---- dependants

impl<'a> Graph<'a> {
    /// Marks all that is reckoned from the point at a number.
    pub(crate) fn mark_dependants(&self, marks: &mut Marked, number: u32) -> Result<(), NoMemory>
        requires graph { IsGraphOf self.now.numbers.book.now self.now.numbers.places.now self.now.numbers.lists.now self.now.links.now.edges }
        requires valid { Valid self.now.numbers.book.now.sheet }
        requires room { self.now.numbers.places.now.size ≤ marks.old.size }
        requires live { IsLiveAt (book_graph (rolled_of self.now.numbers.book.now)) (StandsIn self.now.numbers.book.now self.now.numbers.places.now self.now.numbers.lists.now) number }
        ensures marked { OnOk result (AreMarkedFrom self.now.numbers.book.now self.now.numbers.places.now self.now.numbers.lists.now number marks.old.list marks.new.list) }
        ensures size { marks.new.size ≡ marks.old.size }
    {
        self.mark_linked(marks, number)?;
        // The size is what says that no number is that of two.
        let _size = self.numbers.places.len();
        let Some(place) = self.numbers.place_at(number) else {
            return Ok(());
        };
        match place.table {
            Table::Security => self.mark_of_security(marks, number, &place),
            Table::Fund => self.mark_of_fund(marks, number, &place),
            Table::Liability => self.mark_of_liability(marks, number, &place),
            Table::Group => self.mark_of_group(marks, number, &place),
            Table::Whole if number == ASSETS => self.mark_squares(marks),
            Table::Part => self.mark_above(marks, number),
            Table::Whole => Ok(()),
            Table::Currency => Ok(()),
        }
    }

    /// Marks all to which the number is linked.
    fn mark_linked(&self, marks: &mut Marked, number: u32) -> Result<(), NoMemory>
        requires graph { IsGraphOf self.now.numbers.book.now self.now.numbers.places.now self.now.numbers.lists.now self.now.links.now.edges }
        requires room { self.now.numbers.places.now.size ≤ marks.old.size }
        ensures marked { OnOk result (AreMarkedMore (IsLinkedDependantAt self.now.numbers.book.now self.now.numbers.places.now self.now.numbers.lists.now number) marks.old.list marks.new.list) }
        ensures size { marks.new.size ≡ marks.old.size }
    {
        for (dependant, _) in self.links.dependants(number) {
            marks.insert(dependant)?;
        }
        Ok(())
    }

    fn mark_of_security(
        &self,
        marks: &mut Marked,
        number: u32,
        place: &Place,
    ) -> Result<(), NoMemory>
        requires numbers { AreNumbersOf self.now.numbers.book.now self.now.numbers.places.now self.now.numbers.lists.now }
        requires valid { Valid self.now.numbers.book.now.sheet }
        requires room { self.now.numbers.places.now.size ≤ marks.old.size }
        requires small { self.now.numbers.places.now.size < 2 ^ 32 }
        requires at { IsAt self.now.numbers.places.now ranged.Security place.now.row place.now.family number }
        requires live { IsLiveAt (book_graph (rolled_of self.now.numbers.book.now)) (StandsIn self.now.numbers.book.now self.now.numbers.places.now self.now.numbers.lists.now) number }
        ensures marked { OnOk result (AreMarkedMore (IsPlainDependantAt self.now.numbers.book.now self.now.numbers.places.now self.now.numbers.lists.now number) marks.old.list marks.new.list) }
        ensures size { marks.new.size ≡ marks.old.size }
    {
        let position = self.numbers.book.sheet().securities.at(place.row);
        let currency = position.security.currency;
        match place.family {
            0 => self.mark_of_total(marks, number, place.row),
            1 => marks.insert(number + 2),
            2 => marks.insert(number + 2),
            3 => self.mark_member(marks, &Sum::Rates(currency, Direction::Up), place.row, 4),
            4 => self.mark_member(marks, &Sum::Rates(currency, Direction::Down), place.row, 4),
            _ => self.mark_member(marks, &Sum::Spreads, place.row, 0),
        }
    }

    fn mark_of_total(&self, marks: &mut Marked, number: u32, row: usize) -> Result<(), NoMemory>
        requires numbers { AreNumbersOf self.now.numbers.book.now self.now.numbers.places.now self.now.numbers.lists.now }
        requires valid { Valid self.now.numbers.book.now.sheet }
        requires room { self.now.numbers.places.now.size ≤ marks.old.size }
        requires small { self.now.numbers.places.now.size < 2 ^ 32 }
        requires at { IsAt self.now.numbers.places.now ranged.Security row 0 number }
        ensures marked { OnOk result (AreMarkedMore (IsPlainDependantAt self.now.numbers.book.now self.now.numbers.places.now self.now.numbers.lists.now number) marks.old.list marks.new.list) }
        ensures size { marks.new.size ≡ marks.old.size }
    {
        let position = self.numbers.book.sheet().securities.at(row);
        let paying = is_paying(position);
        mark_if(marks, paying, number + 3)?;
        mark_if(marks, paying, number + 4)?;
        mark_if(marks, has_class(Class::Bond, position), number + 5)?;
        self.mark_member(marks, &Sum::Class(position.security.class), row, 0)?;
        self.mark_member(marks, &Sum::Assets(position.security.currency), row, 3)?;
        match position.security.group {
            None => Ok(()),
            Some(group) => {
                self.mark_member(marks, &Sum::Grouped, row, 1)?;
                self.mark_member(marks, &Sum::Group(group), row, 2)
            }
        }
    }

    fn mark_of_fund(&self, marks: &mut Marked, number: u32, place: &Place) -> Result<(), NoMemory>
        requires numbers { AreNumbersOf self.now.numbers.book.now self.now.numbers.places.now self.now.numbers.lists.now }
        requires valid { Valid self.now.numbers.book.now.sheet }
        requires room { self.now.numbers.places.now.size ≤ marks.old.size }
        requires at { IsAt self.now.numbers.places.now ranged.Fund place.now.row place.now.family number }
        requires live { IsLiveAt (book_graph (rolled_of self.now.numbers.book.now)) (StandsIn self.now.numbers.book.now self.now.numbers.places.now self.now.numbers.lists.now) number }
        ensures marked { OnOk result (AreMarkedMore (IsPlainDependantAt self.now.numbers.book.now self.now.numbers.places.now self.now.numbers.lists.now number) marks.old.list marks.new.list) }
        ensures size { marks.new.size ≡ marks.old.size }
    {
        if !is_closed(self.numbers.book.sheet().funds.at(place.row)) {
            return Ok(());
        }
        self.mark_member(marks, &Sum::Closed, place.row, 0)
    }

    fn mark_of_liability(
        &self,
        marks: &mut Marked,
        number: u32,
        place: &Place,
    ) -> Result<(), NoMemory>
        requires numbers { AreNumbersOf self.now.numbers.book.now self.now.numbers.places.now self.now.numbers.lists.now }
        requires valid { Valid self.now.numbers.book.now.sheet }
        requires room { self.now.numbers.places.now.size ≤ marks.old.size }
        requires at { IsAt self.now.numbers.places.now ranged.Liability place.now.row place.now.family number }
        requires live { IsLiveAt (book_graph (rolled_of self.now.numbers.book.now)) (StandsIn self.now.numbers.book.now self.now.numbers.places.now self.now.numbers.lists.now) number }
        ensures marked { OnOk result (AreMarkedMore (IsPlainDependantAt self.now.numbers.book.now self.now.numbers.places.now self.now.numbers.lists.now number) marks.old.list marks.new.list) }
        ensures size { marks.new.size ≡ marks.old.size }
    {
        let liability = self.numbers.book.sheet().liabilities.at(place.row);
        let currency = liability.currency;
        match place.family {
            0 => self.mark_member(marks, &Sum::Costs(currency, Direction::Up), place.row, 10),
            1 => self.mark_member(marks, &Sum::Costs(currency, Direction::Down), place.row, 10),
            2 => self.mark_member(marks, &Sum::Presents(currency), place.row, 10),
            family => self.mark_of_loss(marks, number, place.row, (family - 2) as usize),
        }
    }

    /// Marks what adds up the loss of a liability under the projection of a seat.
    fn mark_of_loss(
        &self,
        marks: &mut Marked,
        number: u32,
        row: usize,
        seat: usize,
    ) -> Result<(), NoMemory>
        requires numbers { AreNumbersOf self.now.numbers.book.now self.now.numbers.places.now self.now.numbers.lists.now }
        requires valid { Valid self.now.numbers.book.now.sheet }
        requires room { self.now.numbers.places.now.size ≤ marks.old.size }
        requires at { IsAt self.now.numbers.places.now ranged.Liability row (2 + seat) number }
        requires stress { 1 ≤ seat }
        requires live { IsLiveAt (book_graph (rolled_of self.now.numbers.book.now)) (StandsIn self.now.numbers.book.now self.now.numbers.places.now self.now.numbers.lists.now) number }
        ensures marked { OnOk result (AreMarkedMore (IsPlainDependantAt self.now.numbers.book.now self.now.numbers.places.now self.now.numbers.lists.now number) marks.old.list marks.new.list) }
        ensures size { marks.new.size ≡ marks.old.size }
    {
        let projection = projection_in(seat);
        match self.numbers.book.sheet().liabilities.at(row).kind {
            LiabilityKind::Life => {
                let sum = Sum::Losses(Biometric::Life, projection);
                self.mark_member(marks, &sum, row, seat)
            }
            LiabilityKind::Health => {
                let sum = Sum::Losses(Biometric::Health, projection);
                self.mark_member(marks, &sum, row, seat)
            }
            LiabilityKind::Other => Ok(()),
        }
    }

    fn mark_of_group(&self, marks: &mut Marked, number: u32, place: &Place) -> Result<(), NoMemory>
        requires numbers { AreNumbersOf self.now.numbers.book.now self.now.numbers.places.now self.now.numbers.lists.now }
        requires valid { Valid self.now.numbers.book.now.sheet }
        requires room { self.now.numbers.places.now.size ≤ marks.old.size }
        requires small { self.now.numbers.places.now.size < 2 ^ 32 }
        requires at { IsAt self.now.numbers.places.now ranged.Group place.now.row place.now.family number }
        requires live { IsLiveAt (book_graph (rolled_of self.now.numbers.book.now)) (StandsIn self.now.numbers.book.now self.now.numbers.places.now self.now.numbers.lists.now) number }
        ensures marked { OnOk result (AreMarkedMore (λ other. IsPlainDependantAt self.now.numbers.book.now self.now.numbers.places.now self.now.numbers.lists.now number other × (IsLeftToAssets self.now.numbers.book.now self.now.numbers.places.now self.now.numbers.lists.now marks.old.list number → ⊥)) marks.old.list marks.new.list) }
        ensures size { marks.new.size ≡ marks.old.size }
    {
        match place.family {
            0 => marks.insert(number + 1),
            1 => self.mark_of_square(marks, number, place.row),
            _ => Ok(()),
        }
    }

    /// Where the assets are reached all that squares lead to is marked with them.
    fn mark_of_square(&self, marks: &mut Marked, number: u32, row: usize) -> Result<(), NoMemory>
        requires numbers { AreNumbersOf self.now.numbers.book.now self.now.numbers.places.now self.now.numbers.lists.now }
        requires valid { Valid self.now.numbers.book.now.sheet }
        requires room { self.now.numbers.places.now.size ≤ marks.old.size }
        requires at { IsAt self.now.numbers.places.now ranged.Group row 1 number }
        requires live { IsLiveAt (book_graph (rolled_of self.now.numbers.book.now)) (StandsIn self.now.numbers.book.now self.now.numbers.places.now self.now.numbers.lists.now) number }
        ensures marked { OnOk result (AreMarkedMore (λ other. IsPlainDependantAt self.now.numbers.book.now self.now.numbers.places.now self.now.numbers.lists.now number other × (IsLeftToAssets self.now.numbers.book.now self.now.numbers.places.now self.now.numbers.lists.now marks.old.list number → ⊥)) marks.old.list marks.new.list) }
        ensures size { marks.new.size ≡ marks.old.size }
    {
        match marks.place(ASSETS) {
            Some(_) => Ok(()),
            None => self.mark_member(marks, &Sum::Squares, row, 0),
        }
    }

    /// What is reckoned from the squares of all groups. They and the Blocks over them are reached with the assets, without a mark.
    fn mark_squares(&self, marks: &mut Marked) -> Result<(), NoMemory>
        requires numbers { AreNumbersOf self.now.numbers.book.now self.now.numbers.places.now self.now.numbers.lists.now }
        requires valid { Valid self.now.numbers.book.now.sheet }
        requires room { self.now.numbers.places.now.size ≤ marks.old.size }
        ensures marked { OnOk result (AreMarkedMore (IsAboveSquares self.now.numbers.book.now self.now.numbers.places.now self.now.numbers.lists.now) marks.old.list marks.new.list) }
        ensures size { marks.new.size ≡ marks.old.size }
    {
        let count = self.numbers.book.sheet().groups.len();
        if count == 0 {
            return Ok(());
        }
        self.mark_whole(marks, &Sum::Squares)
    }

    /// Marks what adds up the member in a row of the sum's list, which it has in a seat.
    fn mark_member(
        &self,
        marks: &mut Marked,
        sum: &Sum,
        row: usize,
        seat: usize,
    ) -> Result<(), NoMemory>
        requires numbers { AreNumbersOf self.now.numbers.book.now self.now.numbers.places.now self.now.numbers.lists.now }
        requires valid { Valid self.now.numbers.book.now.sheet }
        requires room { self.now.numbers.places.now.size ≤ marks.old.size }
        requires seat { seat ≡ seat_of_roll (sum_roll sum.now) }
        requires stands { IsMemberAt self.now.numbers.book.now sum.now row }
        ensures marked { OnOk result (AreRowMarked self.now.numbers.book.now self.now.numbers.places.now self.now.numbers.lists.now sum.now row marks.old.list marks.new.list) }
        ensures size { marks.new.size ≡ marks.old.size }
    {
        let table = sum.roll().table();
        let seats = seats_at(self.numbers.book, table, row);
        let roll = seats.roll(seat);
        if roll == NOWHERE {
            return Ok(());
        }
        let count = self.numbers.lists.of(table).list(roll).len();
        let reader = reader_of_member(count, seats.place(seat) as usize);
        self.mark_reader(marks, sum, reader)
    }

    fn mark_above(&self, marks: &mut Marked, number: u32) -> Result<(), NoMemory>
        requires numbers { AreNumbersOf self.now.numbers.book.now self.now.numbers.places.now self.now.numbers.lists.now }
        requires valid { Valid self.now.numbers.book.now.sheet }
        requires room { self.now.numbers.places.now.size ≤ marks.old.size }
        requires at { (block : TheBlock) × StandsIn self.now.numbers.book.now self.now.numbers.places.now self.now.numbers.lists.now (points.Block block) number × (is_live_in (rolled_of self.now.numbers.book.now) (points.Block block) ≡ true) }
        ensures marked { OnOk result (AreMarkedMore (IsDependantAt self.now.numbers.book.now self.now.numbers.places.now self.now.numbers.lists.now number) marks.old.list marks.new.list) }
        ensures size { marks.new.size ≡ marks.old.size }
    {
        let Some(block) = self.numbers.block_at(number) else {
            return Ok(());
        };
        let count = self
            .numbers
            .lists
            .members(self.numbers.book, block.sum.roll())
            .len();
        let reader = reader_of_block(count, block.level, block.index as usize);
        self.mark_read(marks, &block.sum, reader)
    }

    /// Marks what reads a member or a Block of the sum: the Block over it, or what is reckoned from the whole sum. Of a sum from which the
    /// book has no figure nothing is marked.
    fn mark_reader(&self, marks: &mut Marked, sum: &Sum, reader: Reader) -> Result<(), NoMemory>
        requires numbers { AreNumbersOf self.now.numbers.book.now self.now.numbers.places.now self.now.numbers.lists.now }
        requires valid { Valid self.now.numbers.book.now.sheet }
        requires room { self.now.numbers.places.now.size ≤ marks.old.size }
        requires reader { IsReader (length (roll_in (rolled_of self.now.numbers.book.now) sum.now)) reader }
        ensures marked { OnOk result (AreMarkedMore (IsReaderAt self.now.numbers.book.now self.now.numbers.places.now self.now.numbers.lists.now sum.now reader) marks.old.list marks.new.list) }
        ensures size { marks.new.size ≡ marks.old.size }
    {
        if !is_live(self.numbers.book.sheet(), &sum.reader()) {
            return Ok(());
        }
        self.mark_read(marks, sum, reader)
    }

    /// Marks what reads a member or a Block of a sum from which the book has a figure.
    fn mark_read(&self, marks: &mut Marked, sum: &Sum, reader: Reader) -> Result<(), NoMemory>
        requires numbers { AreNumbersOf self.now.numbers.book.now self.now.numbers.places.now self.now.numbers.lists.now }
        requires valid { Valid self.now.numbers.book.now.sheet }
        requires room { self.now.numbers.places.now.size ≤ marks.old.size }
        requires reads { reads self.now.numbers.book.now.sheet sum.now ≡ true }
        requires reader { IsReader (length (roll_in (rolled_of self.now.numbers.book.now) sum.now)) reader }
        ensures marked { OnOk result (AreMarkedMore (IsReaderAt self.now.numbers.book.now self.now.numbers.places.now self.now.numbers.lists.now sum.now reader) marks.old.list marks.new.list) }
        ensures size { marks.new.size ≡ marks.old.size }
    {
        match reader {
            Reader::Whole => self.mark_whole(marks, sum),
            Reader::Block(level, index) => { self.mark_block(marks, sum, level, index) }
        }
    }

    fn mark_block(
        &self,
        marks: &mut Marked,
        sum: &Sum,
        level: Level,
        index: usize,
    ) -> Result<(), NoMemory>
        requires numbers { AreNumbersOf self.now.numbers.book.now self.now.numbers.places.now self.now.numbers.lists.now }
        requires valid { Valid self.now.numbers.book.now.sheet }
        requires room { self.now.numbers.places.now.size ≤ marks.old.size }
        requires there { is_block (length (roll_in (rolled_of self.now.numbers.book.now) sum.now)) level index ≡ true }
        ensures marked { OnOk result (AreMarkedMore (λ other. StandsIn self.now.numbers.book.now self.now.numbers.places.now self.now.numbers.lists.now (block_point sum.now level index) other) marks.old.list marks.new.list) }
        ensures size { marks.new.size ≡ marks.old.size }
    {
        let block = Block {
            sum: *sum,
            level,
            index: index as u32,
        };
        mark_some(marks, self.numbers.number_of(&Point::Block(block)))
    }

    /// Marks the figures that are reckoned from the sum: of a foreign currency the rise and the fall.
    fn mark_whole(&self, marks: &mut Marked, sum: &Sum) -> Result<(), NoMemory>
        requires numbers { AreNumbersOf self.now.numbers.book.now self.now.numbers.places.now self.now.numbers.lists.now }
        requires valid { Valid self.now.numbers.book.now.sheet }
        requires room { self.now.numbers.places.now.size ≤ marks.old.size }
        requires reads { reads self.now.numbers.book.now.sheet sum.now ≡ true }
        ensures marked { OnOk result (AreMarkedMore (IsReaderAt self.now.numbers.book.now self.now.numbers.places.now self.now.numbers.lists.now sum.now readers.Whole) marks.old.list marks.new.list) }
        ensures size { marks.new.size ≡ marks.old.size }
    {
        let sheet = self.numbers.book.sheet();
        mark_some(marks, find(self.numbers.places, sheet, &sum.reader()))?;
        if !is_foreign(sum) {
            return Ok(());
        }
        mark_some(marks, find(self.numbers.places, sheet, &fall(sum)))
    }
}

/// Whether the sum is of a foreign currency, from which the fall is reckoned too.
fn is_foreign(sum: &Sum) -> bool
    ensures { result ≡ false → reading.fall_of sum.now ≡ reader_of sum.now }
{
    matches!(sum, Sum::Assets(_) | Sum::Presents(_))
}

/// What is reckoned from the sum beside its reader: of a foreign currency the fall, and of all others the reader itself.
fn fall(sum: &Sum) -> Node
    ensures { result ≡ reading.fall_of sum.now }
{
    match sum {
        Sum::Assets(currency) | Sum::Presents(currency) => {
            let fall = OfCurrency::Scenario(Direction::Down, Measure::Gross);
            Node::Currency(*currency, fall)
        }
        _ => sum.reader(),
    }
}

/// Marks the number where the test holds.
fn mark_if(marks: &mut Marked, test: bool, number: u32) -> Result<(), NoMemory>
    requires { number < marks.old.size }
    ensures marked { OnOk result (AreMarkedMore (λ other. (test ≡ true) × (number ≡ other)) marks.old.list marks.new.list) }
    ensures size { marks.new.size ≡ marks.old.size }
{
    if test {
        return marks.insert(number);
    }
    Ok(())
}

fn mark_some(marks: &mut Marked, number: Option<u32>) -> Result<(), NoMemory>
    requires { IfSome number (λ number. number < marks.old.size) }
    ensures marked { OnOk result (AreMarkedMore (λ other. number ≡ Some other) marks.old.list marks.new.list) }
    ensures size { marks.new.size ≡ marks.old.size }
{
    match number {
        Some(number) => marks.insert(number),
        None => Ok(()),
    }
}
