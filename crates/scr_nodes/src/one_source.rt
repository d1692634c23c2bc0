//! The source at a place of a figure's list, without memory.
ghost use Rattle.std.specs.Prelude.{◌≡◌, ◌++◌, slice_get};
ghost use Rattle.scr_nodes.specs.Nth.{IsNth};
ghost use Rattle.scr_nodes.specs.Selections.{selected};
ghost use Rattle.scr_nodes.specs.Sources.{sources_of, words_of};
ghost use Rattle.scr_nodes.specs.Table.{second_of};

use crate::Node;
use crate::nth::{Nth, nth_selected};
use crate::nth_words::nth_word;
use crate::table::{first_of, second_of};
use scr_sheet::BalanceSheet;

/// The source at a place, counted from 0, of the list of those from which a figure is reckoned;
/// none exactly past the last. The cost is that of a walk along the tables that the list is read
/// off, to the place.
pub fn source(sheet: &BalanceSheet, node: &Node, place: u32) -> Option<Node>
    ensures { result ≡ slice_get (sources_of sheet.now node.now) place }
{
    match nth_source(sheet, node, place) {
        Nth::There(source) => Some(source),
        Nth::Past(_) => None,
    }
}

fn nth_source(sheet: &BalanceSheet, node: &Node, place: u32) -> Nth
    ensures { IsNth (sources_of sheet.now node.now) place result }
{
    match nth_selected(sheet, &first_of(node), place) {
        Nth::Past(left) => nth_later(sheet, node, left),
        found => found,
    }
}

/// Among the sources behind the first ones.
#[tactic(auto, using(crate::proofs::Joined::past_first))]
fn nth_later(sheet: &BalanceSheet, node: &Node, place: u32) -> Nth
    ensures { IsNth (selected sheet.now (second_of node.now) ++ words_of node.now) place result }
{
    match nth_selected(sheet, &second_of(node), place) {
        Nth::Past(left) => nth_word(node, left),
        found => found,
    }
}
