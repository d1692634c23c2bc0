//! The title of a figure.
ghost use Rattle.std.specs.Io.{StartsWith};
ghost use Rattle.std.specs.Prelude.{◌≡◌, ◌++◌, OnErr, OnOk, codes};
ghost use Rattle.scr_figure_titles.specs.Titles.{subject, title};

use crate::titles::{absorption, detail, family};
use scr_nodes::Node;
use scr_tables::Name;
use std::alloc::AllocError as NoMemory;

/// Appends what a figure is called: the row that it is of, what it is, and whether it is gross or net. Where memory is refused the text
/// still begins with what stood there.
#[tactic(auto, using(std::proofs::Transfers::starts_with_trans, std::proofs::Transfers::starts_with_of_append), unfolding(crate::specs::Titles::title))]
pub fn push_title(out: &mut Vec<u8>, node: &Node) -> Result<(), NoMemory>
    ensures ok { OnOk result (out.new.items ≡ out.old.items ++ title node.now) }
    ensures err { OnErr result (StartsWith out.new.items out.old.items) }
{
    push_subject(out, node)?;
    push(out, family(node))?;
    push(out, detail(node))?;
    push(out, absorption(node))
}

fn push_subject(out: &mut Vec<u8>, node: &Node) -> Result<(), NoMemory>
    ensures ok { OnOk result (out.new.items ≡ out.old.items ++ subject node.now) }
    ensures err { OnErr result (StartsWith out.new.items out.old.items) }
{
    match node {
        Node::Fund(name, _) => push_row(out, "fund ", name),
        Node::Security(name, _) => push_row(out, "security ", name),
        Node::Liability(name, _) => push_row(out, "line ", name),
        Node::Currency(name, _) => push_row(out, "currency ", name),
        Node::Group(name, _) => push_row(out, "group ", name),
        Node::Whole(_) => Ok(()),
    }
}

#[tactic(auto, using(std::proofs::Transfers::starts_with_trans, std::proofs::Transfers::starts_with_of_append))]
fn push_row(out: &mut Vec<u8>, table: &str, name: &Name) -> Result<(), NoMemory>
    ensures ok { OnOk result (out.new.items ≡ out.old.items ++ (table.now ++ name.now) ++ codes ": ") }
    ensures err { OnErr result (StartsWith out.new.items out.old.items) }
{
    push(out, table)?;
    out.extend_from_slice(name.as_bytes())?;
    push(out, ": ")
}

fn push(out: &mut Vec<u8>, text: &str) -> Result<(), NoMemory>
    ensures ok { OnOk result (out.new.items ≡ out.old.items ++ text.now) }
    ensures err { OnErr result (StartsWith out.new.items out.old.items) }
{
    out.extend_from_slice(text.as_bytes())
}
