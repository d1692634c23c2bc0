//! The graph of a book, read off its rows and its member lists without memory.
ghost use Rattle.std.specs.Prelude.{◌≡◌, ◌++◌, ◌≤◌, Some, length, map, slice_get};
ghost use Rattle.std.specs.List.{range_with_len};
ghost use Rattle.scr_sum_tree.specs.Blocks.{part};
ghost use Rattle.scr_sum_tree.specs.declared.blocks.Level.TheVariants as levels;
ghost use Rattle.scr_nodes.specs.Sources.{sources_of};
ghost use Rattle.scr_block_graph.specs.Books.{rolled_of};
ghost use Rattle.scr_block_graph.specs.Graph as spec;
ghost use Rattle.scr_block_graph.specs.Sums.{first_sum, roll_of, second_sum};
ghost use Rattle.scr_block_graph.specs.declared.point.Point.TheVariants as points;

use crate::{Block, Point, Sum, first_sum, second_sum};
use scr_book::Book;
use scr_nodes::{Node, is_live};
use scr_sheet::{BalanceSheet, Name};
use scr_sum_tree::{Level, blocks_at, is_block, part, parts, places, top_count};

/// The large sums from which a figure is computed: none for most figures, else one or two.
pub fn sums_of(node: &Node) -> (Option<Sum>, Option<Sum>)
    ensures first { result.0 ≡ first_sum node.now }
    ensures second { result.1 ≡ second_sum node.now }
{
    (first_sum(node), second_sum(node))
}

/// Whether the book has the figure or the Block. It costs one look-up.
pub fn is_live_in(book: &Book, point: &Point) -> bool
    ensures { result ≡ spec.is_live_in (rolled_of book.now) point.now }
{
    match point {
        Point::Figure(node) => is_live(book.sheet(), node),
        Point::Block(block) => has_block(book, block),
    }
}

fn has_block(book: &Book, block: &Block) -> bool
    ensures { result ≡ spec.has_block (rolled_of book.now) block.now }
{
    let count = members(book, &block.sum).len();
    reads(book.sheet(), &block.sum) && is_block(count, block.level, block.index as usize)
}

/// Whether the balance sheet has a figure that is computed from the sum.
pub(crate) fn reads(sheet: &BalanceSheet, sum: &Sum) -> bool
    ensures { result ≡ spec.reads sheet.now sum.now }
{
    is_live(sheet, &sum.reader())
}

/// The members of a sum, in the order of their list, at most 20,000.
pub(crate) fn members<'a>(book: &'a Book, sum: &Sum) -> &'a [Name]
    ensures names { result.now ≡ spec.roll_in (rolled_of book.now) sum.now }
    ensures own { spec.IsRoll (rolled_of book.now) (roll_of sum.now) }
    ensures few { length (spec.roll_in (rolled_of book.now) sum.now) ≤ 20000 }
{
    let _sheet = book.sheet();
    let roll = sum.roll();
    book.roll(roll)
}

/// Source number `place` of a point, from 0, in the order of its rule; `None` past the last. It costs one look-up. For a figure
/// without large sums it costs a walk along the tables that hold its sources.
pub fn source(book: &Book, point: &Point, place: u32) -> Option<Point>
    ensures { result ≡ slice_get (spec.sources_in (rolled_of book.now) point.now) place }
{
    match point {
        Point::Figure(node) => figure_source(book, node, place),
        Point::Block(block) => block_source(book, block, place),
    }
}

fn figure_source(book: &Book, node: &Node, place: u32) -> Option<Point>
    ensures { result ≡ slice_get (spec.sources_in (rolled_of book.now) (points.Figure node.now)) place }
{
    match first_sum(node) {
        Some(first) => summed_source(book, node, &first, place),
        None => plain_source(book.sheet(), node, place),
    }
}

fn plain_source(sheet: &BalanceSheet, node: &Node, place: u32) -> Option<Point>
    ensures { result ≡ slice_get (map points.Figure (sources_of sheet.now node.now)) place }
{
    match scr_nodes::source(sheet, node, place) {
        Some(source) => Some(Point::Figure(source)),
        None => None,
    }
}

/// The points at the top of the first sum, and then of the second if there is one.
fn summed_source(book: &Book, node: &Node, first: &Sum, place: u32) -> Option<Point>
    ensures { result ≡ slice_get (spec.tops_of (rolled_of book.now) (Some first.now)
        ++ spec.tops_of (rolled_of book.now) (second_sum node.now)) place }
{
    let count = top_count(members(book, first).len());
    if (place as usize) < count {
        top(book, first, place)
    } else {
        match second_sum(node) {
            Some(second) => top(book, &second, place - count as u32),
            None => None,
        }
    }
}

/// Point number `place`, from 0, at the top of a sum.
fn top(book: &Book, sum: &Sum, place: u32) -> Option<Point>
    ensures { result ≡ slice_get (spec.tops_of (rolled_of book.now) (Some sum.now)) place }
{
    let names = members(book, sum);
    let firsts = blocks_at(names.len(), Level::First);
    let seconds = blocks_at(names.len(), Level::Second);
    if firsts == 0 {
        member_at(sum, names, place)
    } else if seconds == 0 {
        block_at(sum, Level::First, firsts, place)
    } else {
        block_at(sum, Level::Second, seconds, place)
    }
}

/// The figure of the member at a position.
fn member_at(sum: &Sum, names: &[Name], place: u32) -> Option<Point>
    ensures { result ≡ slice_get (map (spec.member_point sum.now) names.now) place }
{
    match names.get(place as usize) {
        Some(name) => Some(Point::Figure(sum.member(*name))),
        None => None,
    }
}

/// Block `index` of a level with `count` Blocks; `None` past the last.
fn block_at(sum: &Sum, level: Level, count: usize, index: u32) -> Option<Point>
    ensures { result ≡ slice_get (map (spec.block_point sum.now level) (range_with_len 0 count)) index }
{
    if (index as usize) < count {
        Some(Point::Block(Block {
            sum: *sum,
            level,
            index,
        }))
    } else {
        None
    }
}

fn block_source(book: &Book, block: &Block, place: u32) -> Option<Point>
    ensures { result ≡ slice_get (spec.sources_in (rolled_of book.now) (points.Block block.now)) place }
{
    let names = members(book, &block.sum);
    match block.level {
        Level::First => member_at(&block.sum, part(names, block.index as usize), place),
        Level::Second => first_at(&block.sum, parts(names.len()), block.index, place),
    }
}

/// First-level Block number `place`, from 0, among the ones that second-level Block `index` adds up.
fn first_at(sum: &Sum, count: usize, index: u32, place: u32) -> Option<Point>
    requires { count ≤ 20000 }
    ensures { result ≡ slice_get (part index (map (spec.block_point sum.now levels.First) (range_with_len 0 count))) place }
{
    let among = places(count, Level::First, index as usize);
    let own = among.start + place as usize;
    if own < among.end {
        block_at(sum, Level::First, count, own as u32)
    } else {
        None
    }
}
