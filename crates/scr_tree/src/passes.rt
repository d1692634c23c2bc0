//! The gate, passed when several workers are done for all that was found on one thread.
ghost use Rattle.std.specs.Prelude.{◌≡◌, ◌<◌, Some, length, slice_get};
ghost use Rattle.scr_figure_ids.specs.Families.{name_of, table_of};
ghost use Rattle.scr_figure_ids.specs.Numbers.{names_in};
ghost use Rattle.scr_sheet.specs.Validity.{Valid};
ghost use Rattle.scr_tree.specs.First.{IsGround};
ghost use Rattle.scr_tree.specs.Points.{AreNumbersOf};

use crate::first_links::{ASSETS, OF_CURRENCY};
use crate::first_totals::pass_totals;
use crate::graph::Numbers;
use crate::making::{Ground, number_at};
use crate::sums::pass_blocks;
use scr_block_graph::{Sum, sum_at};
use scr_figure_ids::currency_at;
use scr_ids::Table;
use scr_io::Gate;
use scr_nodes::{Node, is_live};

/// Passes the gate for totals and assets, for the figures of currencies, and for all Blocks.
pub(crate) fn pass_found<G: Gate>(ground: Ground<'_>, gate: &G)
    requires { IsGround ground }
{
    pass_totals(ground, gate);
    gate.pass(ASSETS);
    pass_currencies(ground, gate);
    pass_all_blocks(ground.numbers(), gate);
}

/// For the figures of currencies.
fn pass_currencies<G: Gate>(ground: Ground<'_>, gate: &G)
    requires { IsGround ground }
{
    for k in 0..ground.inputs.book.sheet().curves.len() {
        pass_currency(ground, k, gate);
    }
}

fn pass_currency<G: Gate>(ground: Ground<'_>, k: usize, gate: &G)
    requires ground { IsGround ground }
    requires row { k < length ground.inputs.book.now.sheet.curves }
{
    let name = ground.inputs.book.sheet().curves.at(k).currency;
    for family in 0..OF_CURRENCY {
        let what = currency_at(family);
        let node = Node::Currency(name, what);
        pass_live(ground, &node, k, gate);
    }
}

/// For a figure of the row at a place, if the balance sheet has it.
fn pass_live<G: Gate>(ground: Ground<'_>, node: &Node, row: usize, gate: &G)
    requires ground { IsGround ground }
    requires row { slice_get (names_in ground.inputs.book.now.sheet (table_of node.now)) row ≡ Some (name_of node.now) }
{
    if is_live(ground.inputs.book.sheet(), node) {
        gate.pass(number_at(ground.places, node, row));
    }
}

/// For all Blocks, list by list, each where it begins.
fn pass_all_blocks<G: Gate>(numbers: Numbers<'_>, gate: &G)
    requires numbers { AreNumbersOf numbers.book.now numbers.places.now numbers.lists.now }
    requires valid { Valid numbers.book.now.sheet }
{
    for slot in 0..numbers.lists.parts().len() {
        match numbers.list_begun(slot) {
            Some(list) => pass_list(numbers, list, gate),
            None => (),
        }
    }
}

/// For the Blocks of all sums over a list.
fn pass_list<G: Gate>(numbers: Numbers<'_>, list: u32, gate: &G)
    requires numbers { AreNumbersOf numbers.book.now numbers.places.now numbers.lists.now }
    requires valid { Valid numbers.book.now.sheet }
{
    let Some(roll) = numbers.roll_of(list) else {
        return;
    };
    for place in 0..Table::Part.stride() {
        match sum_at(&roll, place) {
            Some(sum) => pass_sum(numbers, &sum, gate),
            None => (),
        }
    }
}

/// For the Blocks of a sum, if the balance sheet has a figure that is reckoned from it.
fn pass_sum<G: Gate>(numbers: Numbers<'_>, sum: &Sum, gate: &G)
    requires numbers { AreNumbersOf numbers.book.now numbers.places.now numbers.lists.now }
    requires valid { Valid numbers.book.now.sheet }
{
    if is_live(numbers.book.sheet(), &sum.reader()) {
        pass_blocks(numbers, sum, gate);
    }
}
