//! The figures and blocks that a record touches.
ghost use Rattle.std.specs.Prelude.{◌≡◌, ◌↔◌, Contains, IfOk, None};
ghost use Rattle.scr_sum_tree.specs.Blocks.{HasEachOnce};
ghost use Rattle.scr_factors.specs.Values.{FactorValues};
ghost use Rattle.scr_sheet.specs.Faults.{fault_of};
ghost use Rattle.scr_sheet.specs.Forms.{Formed};
ghost use Rattle.scr_block_graph.specs.Books.{rolled_of};
ghost use Rattle.scr_block_graph.specs.Touched.{IsTouchedIn};
ghost use Rattle.scr_block_graph.specs.declared.point.Point.{Point};

use crate::Node;
use scr_block_graph::touched_in;
use scr_book::{Book, Edit};
use std::alloc::{AllocError as NoMemory, Global};

/// The figures and blocks that a record touches, each once: it changes their own data or sources, makes them or removes them. For
/// a record that the book would refuse only freedom from repeats is promised. `NoMemory` if the list doesn't fit.
pub fn touched(alloc: Global, book: &Book, edit: &Edit) -> Result<Vec<Node>, NoMemory>
    requires formed { Formed edit.now }
    ensures touched { IfOk result (λ list. (factors : FactorValues) (point : Point) → fault_of edit.now book.now.sheet ≡ None
        → Contains list.items point ↔ IsTouchedIn factors (rolled_of book.now) edit.now point) }
    ensures once { IfOk result (λ list. HasEachOnce list.items) }
{
    let told = scr_touched::touched(alloc, book, edit)?;
    touched_in(alloc, book, edit, told)
}
