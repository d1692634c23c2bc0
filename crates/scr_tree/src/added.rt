//! What a Block of the first level comes to, added up over the figures of its members.
ghost use Rattle.std.specs.Prelude.{◌≡◌, true, IfSome};
ghost use Rattle.scr_sum_tree.specs.declared.blocks.Level.TheVariants as levels;
ghost use Rattle.scr_block_graph.specs.Books.{rolled_of};
ghost use Rattle.scr_block_graph.specs.Graph.{is_live_in};
ghost use Rattle.scr_block_graph.specs.declared.point.Point.TheVariants as points;
ghost use Rattle.scr_tree.specs.Figures.{worth_of};
ghost use Rattle.scr_tree.specs.Order.{undone};
ghost use Rattle.scr_tree.specs.Renewed.{AreSumsOn};
ghost use Rattle.scr_tree.specs.Ready.{IsBasis, IsReadyOn, StandsOn, numbers_on, reckoning_on};
ghost use Rattle.scr_tree.specs.Summed.{firsts_on};

use crate::basis::Basis;
use crate::figures::{Figure, Figures};
use crate::graph::member_family;
use crate::renewed::Rewritten;
use scr_block_graph::Block;
use scr_partial_sums::add_figures;
use scr_sum_tree::part;

/// The figure of a Block of the first level at a number, from those of its members: of those that became others alone where that is sooner.
pub(crate) fn added_up(basis: Basis<'_>, table: Rewritten<'_>, number: u32, block: &Block) -> Figure
    requires basis { IsBasis basis }
    requires ready { IsReadyOn basis table.figures.now number }
    requires at { StandsOn basis (points.Block block.now) number }
    requires live { is_live_in (rolled_of basis.inputs.book.now) (points.Block block.now) ≡ true }
    requires first { block.now.level ≡ levels.First }
    requires sums { basis.summed ≡ true → AreSumsOn basis (undone table.former.now table.figures.now) }
    ensures { worth_of result ≡ (reckoning_on basis.entry).worth (points.Block block.now) }
{
    let members = basis.lists.members(basis.inputs.book, block.sum.roll());
    match renewed_from(basis, table, number, block, members) {
        Some(figure) => figure,
        None => added_over(basis, table.figures, number, block, members),
    }
}

/// The same from the former figure of the Block and from the first numbers of all members of the list, if it is reckoned so.
fn renewed_from(
    basis: Basis<'_>,
    table: Rewritten<'_>,
    number: u32,
    block: &Block,
    members: &[u32],
) -> Option<Figure>
    requires basis { IsBasis basis }
    requires ready { IsReadyOn basis table.figures.now number }
    requires at { StandsOn basis (points.Block block.now) number }
    requires live { is_live_in (rolled_of basis.inputs.book.now) (points.Block block.now) ≡ true }
    requires first { block.now.level ≡ levels.First }
    requires members { members.now ≡ firsts_on (numbers_on basis) block.now.sum }
    requires sums { basis.summed ≡ true → AreSumsOn basis (undone table.former.now table.figures.now) }
    ensures { IfSome result (λ figure. worth_of figure ≡ (reckoning_on basis.entry).worth (points.Block block.now)) }
{
    if !basis.summed {
        return None;
    }
    let own = part(members, block.index as usize);
    let family = member_family(&block.sum);
    table.renewed(number, own, family)
}

/// The same from the figures of all members, of which these are the first numbers.
pub(crate) fn added_over(
    basis: Basis<'_>,
    figures: &Figures,
    number: u32,
    block: &Block,
    members: &[u32],
) -> Figure
    requires basis { IsBasis basis }
    requires ready { IsReadyOn basis figures.now number }
    requires at { StandsOn basis (points.Block block.now) number }
    requires live { is_live_in (rolled_of basis.inputs.book.now) (points.Block block.now) ≡ true }
    requires first { block.now.level ≡ levels.First }
    requires members { members.now ≡ firsts_on (numbers_on basis) block.now.sum }
    ensures { worth_of result ≡ (reckoning_on basis.entry).worth (points.Block block.now) }
{
    basis.inputs.factors.known();
    let own = part(members, block.index as usize);
    let family = member_family(&block.sum);
    add_figures(figures, own, family)
}
