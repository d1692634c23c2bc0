//! How a status is told.
ghost use Rattle.std.specs.Prelude.{◌≡◌, ℕ, ◌++◌, is_ok, if◌then◌else◌, OnOk};
ghost use Rattle.scr_run.specs.StatusTexts.{factor_fault_text, key_text, labelled_key, labelled_pair, labelled_record, status_text, too_long_text};

use crate::printing::{number_of, push, push_fault, push_number};
use crate::status::{Status, Which};
use scr_book::Fault;
use scr_factors::{FactorFault, Key};
use std::alloc::{AllocError as NoMemory, Global};

/// Appends the line by which a status is told, without its end; nothing for a run that ended with
/// its whole report. Where memory is refused, nothing is appended.
pub fn status_line(alloc: Global, status: &Status, out: &mut Vec<u8>) -> Result<(), NoMemory>
    ensures { out.new.items ≡
        (if is_ok result then out.old.items ++ status_text status.now else out.old.items) }
{
    let mut line = Vec::new(alloc);
    push_status(alloc, &mut line, status)?;
    out.extend_from_slice(line.as_slice())
}

fn push_status(alloc: Global, out: &mut Vec<u8>, status: &Status) -> Result<(), NoMemory>
    ensures { OnOk result (out.new.items ≡ out.old.items ++ status_text status.now) }
{
    match status {
        Status::Done | Status::Refused => push(out, ""),
        Status::Usage => push(out, "usage: scr --factors F --book B --edits E --workers N"),
        Status::Factors(fault) => push_factor_fault(alloc, out, *fault),
        Status::FactorsTooLong => push(out, "factors: too long"),
        Status::Book(line, fault) => push_record(alloc, out, "book line ", *line, fault),
        Status::TooLong(which) => push_too_long(out, *which),
        Status::Read => push(out, "read failed"),
        Status::Write => push(out, "write failed"),
        Status::NoMemory => push(out, "out of memory"),
    }
}

fn push_too_long(out: &mut Vec<u8>, which: Which) -> Result<(), NoMemory>
    ensures { OnOk result (out.new.items ≡ out.old.items ++ too_long_text which) }
{
    match which {
        Which::Book => push(out, "book: too long"),
        Which::Edits => push(out, "edits: too long"),
    }
}

fn push_factor_fault(alloc: Global, out: &mut Vec<u8>, fault: FactorFault) -> Result<(), NoMemory>
    ensures { OnOk result (out.new.items ≡ out.old.items ++ factor_fault_text fault) }
{
    match fault {
        FactorFault::NotToml => push(out, "factors: not TOML"),
        FactorFault::Missing(key) => push_labelled(out, "factors: missing ", key),
        FactorFault::BadValue(key) => push_labelled(out, "factors: bad value ", key),
        FactorFault::NotSymmetric(i, j) => {
            push_pair(
                alloc,
                out,
                "factors: not symmetric at ",
                u32::from(i),
                u32::from(j),
            )
        }
        FactorFault::NoMemory => push(out, "out of memory"),
    }
}

#[tactic(auto, unfolding(crate::specs::StatusTexts::labelled_key))]
fn push_labelled(out: &mut Vec<u8>, label: &str, key: Key) -> Result<(), NoMemory>
    ensures { OnOk result (out.new.items ≡ out.old.items ++ labelled_key label.now key) }
{
    push(out, label)?;
    push_key(out, key)?;
    Ok(())
}

#[tactic(auto, unfolding(crate::specs::StatusTexts::key_text))]
fn push_key(out: &mut Vec<u8>, key: Key) -> Result<(), NoMemory>
    ensures { OnOk result (out.new.items ≡ out.old.items ++ key_text key) }
{
    if let Some(table) = key.table() {
        push(out, table)?;
        push(out, ".")?;
    }
    push(out, key.name())
}

#[tactic(auto, unfolding(crate::specs::StatusTexts::labelled_pair))]
fn push_pair(alloc: Global, out: &mut Vec<u8>, label: &str, i: u32, j: u32) -> Result<(), NoMemory>
    ensures { OnOk result (out.new.items ≡ out.old.items ++ labelled_pair label.now i j) }
{
    push(out, label)?;
    push_number(alloc, out, i)?;
    push(out, ",")?;
    push_number(alloc, out, j)?;
    Ok(())
}

#[tactic(auto, unfolding(crate::specs::StatusTexts::labelled_record))]
fn push_record(
    alloc: Global,
    out: &mut Vec<u8>,
    label: &str,
    line: u32,
    fault: &Fault,
) -> Result<(), NoMemory>
    ensures { OnOk result
        (out.new.items ≡ out.old.items ++ labelled_record label.now line fault.now) }
{
    push(out, label)?;
    push_number(alloc, out, line)?;
    push(out, ": ")?;
    push_number(alloc, out, number_of(fault))?;
    push(out, " ")?;
    push_fault(alloc, out, fault)?;
    Ok(())
}
