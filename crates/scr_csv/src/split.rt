//! The split of a line with double quotes into fields.
#![tactic(auto, unfolding(crate::specs::Splits::reads))]

ghost use Rattle.std.specs.Prelude.{◌≡◌, ◌∷◌, ◌<◌, List, ℕ, length, map, true, IfOk};
ghost use Rattle.std.specs.Prelude.{IfErr, OnOk};
ghost use Rattle.std.specs.List.{list_all};
ghost use Rattle.std.specs.Simd.Lanes.{mask_l};
ghost use Rattle.csv.specs.Machine as machine;
ghost use Rattle.csv.specs.Reading.{default_config};
ghost use Rattle.csv.specs.declared.parser.State.TheVariants as state;
ghost use Rattle.scr_csv.specs.LineFields.{line_fields, is_plain, is_printed, is_unprinted, is_quote};
ghost use Rattle.scr_csv.specs.Parts.{parts};
ghost use Rattle.scr_csv.specs.Splits.{state_of, action_of, Copied};

use crate::LineFault;
use std::alloc::{AllocError as NoMemory, Global};
use std::simd::prelude::*;

/// How many bytes of a line are tested together.
const BLOCK: usize = 16;

/// Whether each byte is one from 20 to 7E and none is a double quote, so that commas alone split the line.
#[tactic(auto, using(crate::proofs::Blocks::block_passes, crate::proofs::Blocks::block_fails, crate::proofs::Blocks::rest_tells))]
pub fn is_plain(text: &[u8]) -> bool
    ensures { result ≡ list_all is_plain text.now }
{
    if text.len() < BLOCK {
        return are_plain(text);
    }
    // The last block may overlap the one before it, so that no byte is tested by itself.
    let last = text.len() - BLOCK;
    let mut at = 0;
    'walk: while at < last {
        if !is_plain_block(&text[at..at + BLOCK]) {
            return false;
        }
        at += BLOCK;
    }
    is_plain_block(&text[last..])
}

fn are_plain(text: &[u8]) -> bool
    ensures { result ≡ list_all is_plain text.now }
{
    text.iter().all(|b| is_plain_byte(*b))
}

fn is_plain_byte(byte: u8) -> bool
    ensures { result ≡ is_plain byte }
{
    (0x20..=0x7E).contains(&byte) && byte != b'"'
}

// As many bytes as are tested together.
#[tactic(auto, using(crate::proofs::Lanes::told_printed, crate::proofs::Lanes::told_unprinted))]
#[inline(always)]
fn is_plain_block(block: &[u8]) -> bool
    requires { length block.now ≡ BLOCK }
    ensures { result ≡ list_all is_plain block.now }
{
    let lanes = u8x16::from_slice(block);
    unprinted(lanes) == 0 && quotes(lanes) == 0
}

// A bit for each lane that has no byte from 20 to 7E. Counted from 7F on, round past FF, these come first.
#[inline(always)]
fn unprinted(lanes: u8x16) -> u64
    ensures { result ≡ mask_l (map is_unprinted lanes) }
{
    (lanes - u8x16::splat(0x7F))
        .simd_lt(u8x16::splat(0xA1))
        .to_bitmask()
}

// A bit for each lane that has a double quote.
#[inline(always)]
fn quotes(lanes: u8x16) -> u64
    ensures { result ≡ mask_l (map is_quote lanes) }
{
    lanes.simd_eq(u8x16::splat(b'"')).to_bitmask()
}

/// Whether each byte is one from 20 to 7E.
pub fn is_printed(text: &[u8]) -> bool
    ensures { result ≡ list_all is_printed text.now }
{
    text.iter().all(|b| (0x20..=0x7E).contains(b))
}

/// Where the split of a line stands.
#[derive(Clone, Copy)]
pub(crate) enum Place {
    /// At the start of a field.
    Start,
    /// Within a field, and outside its quotes, if it has any.
    Plain,
    /// Within quotes.
    Quoted,
    /// Behind a quote that closes, or is the first of two that stand for one.
    Closed,
}

/// What a byte does to the field at hand.
#[derive(Clone, Copy)]
pub(crate) enum Action {
    Skip,
    Copy,
    End,
}

// A reader of csv would build its tables and its buffer anew for each line, which costs thirty
// times as much as the line: so the steps stand here, and are proved to be csv's.
fn step(place: Place, byte: u8) -> (Place, Action)
    requires { is_printed byte ≡ true }
    ensures { (state_of result.0, action_of result.1)
        ≡ machine.step default_config (state_of place) byte }
{
    match (place, byte) {
        (Place::Start, b'"') => (Place::Quoted, Action::Skip),
        (Place::Quoted, b'"') => (Place::Closed, Action::Skip),
        (Place::Closed, b'"') | (Place::Quoted, _) => (Place::Quoted, Action::Copy),
        (_, b',') => (Place::Start, Action::End),
        _ => (Place::Plain, Action::Copy),
    }
}

/// The copy so far, and where the split stands.
#[derive(Drop)]
struct Split {
    copy: Vec<u8>,
    place: Place,
}

impl Split {
    /// Takes the next byte of the line.
    fn take(&mut self, byte: u8) -> Result<(), NoMemory>
        requires printed { is_printed byte ≡ true }
        ensures steps { OnOk result
            ((rest : List ℕ) (line : List ℕ)
            → Copied self.old.place self.old.copy.items (byte ∷ rest) line
            → Copied self.new.place self.new.copy.items rest line) }
    {
        let (place, action) = step(self.place, byte);
        match action {
            Action::Skip => {}
            Action::Copy => self.copy.push(byte)?,
            Action::End => self.copy.push(b'\n')?,
        }
        self.place = place;
        Ok(())
    }
}

/// A copy of a line that is not empty, without the quotes of its fields and with a newline between two
/// fields, since a field may have commas and quotes but no newline.
pub fn unquoted(alloc: Global, text: &[u8]) -> Result<Vec<u8>, LineFault>
    requires printed { list_all is_printed text.now ≡ true }
    requires filled { 0 < length text.now }
    ensures fields { IfOk result (λ copy. parts 10 copy.items ≡ line_fields text.now) }
    ensures only_memory { IfErr result (λ fault. fault ≡ LineFault.NoMemory) }
{
    copy_of(alloc, text).map_err(|_| LineFault::NoMemory)
}

fn copy_of(alloc: Global, text: &[u8]) -> Result<Vec<u8>, NoMemory>
    requires printed { list_all is_printed text.now ≡ true }
    requires filled { 0 < length text.now }
    ensures { IfOk result (λ copy. parts 10 copy.items ≡ line_fields text.now) }
{
    let mut split = Split {
        copy: Vec::new(alloc),
        place: Place::Start,
    };
    'bytes: for byte in text {
        split.take(*byte)?;
    }
    let Split { copy, place: _ } = split;
    Ok(copy)
}
