//! The Blocks under the totals of groups, list by list: most groups have too few securities for any.
ghost use Rattle.std.specs.Prelude.{◌≡◌, ◌+◌, IfSome, IsNone, true};
ghost use Rattle.scr_sheet.specs.Validity.{Valid};
ghost use Rattle.scr_block_graph.specs.Books.{rolled_of};
ghost use Rattle.scr_block_graph.specs.Graph.{is_live_in, reads};
ghost use Rattle.scr_block_graph.specs.declared.point.Block.{Block as TheBlock};
ghost use Rattle.scr_block_graph.specs.declared.point.Point.TheVariants as points;
ghost use Rattle.scr_tree.specs.First as spec;
ghost use Rattle.scr_tree.specs.First.{AreDone, AreGroupsDone, AreRowsDone, IsGround, IsGroupAt};
ghost use Rattle.scr_tree.specs.Points.{AreNumbersOf};
ghost use Rattle.scr_tree.specs.Turns.{turn};

use crate::figures::Figures;
use crate::graph::Numbers;
use crate::making::{Ground, put_found};
use scr_block_graph::Sum;
use scr_io::Gate;
use scr_nodes::is_live;
use scr_sheet::Roll;

/// The Blocks under the totals of groups, which were reckoned with their rows.
pub(crate) fn put_groups<G: Gate>(ground: Ground<'_>, figures: &mut Figures, gate: &G)
    requires ground { IsGround ground }
    requires done { AreRowsDone ground figures.old }
    ensures { AreDone ground.entry figures.new (turn 6 0 0) }
{
    for slot in 0..ground.lists.parts().len() {
        put_group(ground, figures, slot, gate);
    }
}

/// The Blocks under the total of a group, if its list begins at the slot.
fn put_group<G: Gate>(ground: Ground<'_>, figures: &mut Figures, slot: u32, gate: &G)
    requires ground { IsGround ground }
    requires done { AreGroupsDone ground figures.old slot }
    ensures { AreGroupsDone ground.entry figures.new (slot + 1) }
{
    // No slot is of two parts.
    let _slots = ground.lists.parts().len();
    let found = group_at(ground.numbers(), slot);
    put_found(ground, figures, &found, gate);
}

/// The sum over the securities of a group that the balance sheet has, if its list begins at the slot.
fn group_at(numbers: Numbers<'_>, slot: u32) -> Option<Sum>
    requires numbers { AreNumbersOf numbers.book.now numbers.places.now numbers.lists.now }
    requires valid { Valid numbers.book.now.sheet }
    ensures there { IfSome result (IsGroupAt numbers.entry.book.now numbers.entry.lists.now.parts slot) }
    ensures read { IfSome result (λ sum. reads numbers.entry.book.now.sheet sum ≡ true) }
    ensures absent { IsNone result → (block : TheBlock) → IsGroupAt numbers.entry.book.now numbers.entry.lists.now.parts slot block.sum
        → is_live_in (rolled_of numbers.entry.book.now) (points.Block block) ≡ true → ⊥ }
{
    // No slot is of two parts.
    let _slots = numbers.lists.parts().len();
    let list = numbers.list_begun(slot)?;
    let roll = numbers.roll_of(list)?;
    let sum = group_sum(&roll)?;
    if is_live(numbers.book.sheet(), &sum.reader()) {
        Some(sum)
    } else {
        None
    }
}

/// The sum over a group's securities.
fn group_sum(roll: &Roll) -> Option<Sum>
    ensures { result ≡ spec.group_sum roll.now }
{
    match roll {
        Roll::Group(name) => Some(Sum::Group(*name)),
        _ => None,
    }
}
