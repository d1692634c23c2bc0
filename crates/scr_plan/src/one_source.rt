//! The sources of a figure or a block.
ghost use Rattle.std.specs.Prelude.{◌≡◌, slice_get};
ghost use Rattle.scr_block_graph.specs.Books.{rolled_of};
ghost use Rattle.scr_block_graph.specs.Graph.{sources_in};

use crate::Node;
use scr_book::Book;

/// Source `k` of a node, from 0, in the order in which its rule takes them; `None` past the last.
pub fn source(book: &Book, node: Node, k: u32) -> Option<Node>
    ensures { result ≡ slice_get (sources_in (rolled_of book.now) node) k }
{
    scr_block_graph::source(book, &node, k)
}
