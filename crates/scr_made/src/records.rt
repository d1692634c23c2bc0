//! How the made records are written.
ghost use Rattle.std.specs.Prelude.{◌≡◌, ◌++◌, OnOk};
ghost use Rattle.scr_made.specs.Records.{record_line};

use scr_csv::write_edit;
use scr_sheet::Edit;
use std::alloc::{AllocError as NoMemory, Global};

/// Appends the line of a record, with its end.
#[tactic(auto, unfolding(crate::specs::Records::record_line))]
pub fn push_record(alloc: Global, edit: Edit, out: &mut Vec<u8>) -> Result<(), NoMemory>
    ensures { OnOk result (out.new.items ≡ out.old.items ++ record_line edit) }
{
    write_edit(alloc, &edit, out)?;
    out.extend_from_slice(b"\n")
}
