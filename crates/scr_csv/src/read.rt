//! The record that a line spells.
ghost use Rattle.std.specs.Prelude.{◌≤◌, length, IfOk};
ghost use Rattle.scr_sheet.specs.Forms.{Formed};
ghost use Rattle.scr_csv.specs.Kept.{kept};
ghost use Rattle.scr_csv.specs.Reading.{Answers, made};
ghost use Rattle.scr_csv.specs.Records.{edit_of_line};

use crate::LineFault;
use crate::fields::Fields;
use crate::records::read_record;
use crate::split::{is_plain, is_printed, unquoted};
use scr_sheet::Edit;
use std::alloc::Global;

/// The record that a line of at most 64 MiB spells, or its first fault. The line's bytes are those
/// from 20 to 7E, and csv splits it into fields: the verb, and what the verb asks for. Each record
/// that is read has its form; whether a list is too long or has a component twice, and whether the
/// record may be applied, is for the book to say.
///
/// Of a list that is too long no member is kept behind the first that is one too many. So the record
/// that is answered may be cut, but it has the same first fault on every balance sheet
/// (`laws::kept_records`).
///
/// Memory is taken for the members of a list that are kept, and for a copy of a line with double
/// quotes. Want of it may be told in place of any answer.
pub fn read_line(alloc: Global, text: &[u8]) -> Result<Edit, LineFault>
    requires { length text.now ≤ 67108864 }
    ensures answer { Answers (made kept (edit_of_line text.now)) result }
    ensures formed { IfOk result Formed }
{
    if is_plain(text) {
        return read_record(alloc, &mut Fields::of_text(text));
    }
    if !is_printed(text) {
        return Err(LineFault::Syntax(0));
    }
    let copy = unquoted(alloc, text)?;
    read_record(alloc, &mut Fields::of_copy(&copy))
}
