//! A book and its script, made from a number.
ghost use Rattle.std.specs.Prelude.{◌≡◌, ◌++◌, OnOk, IfOk};
ghost use Rattle.scr_made.specs.Draws.{each};
ghost use Rattle.scr_made.specs.Made as spec;
ghost use Rattle.scr_made.specs.Made.{book_text, script_text};
ghost use Rattle.scr_made.specs.Records.{Appends, records_text};
ghost use Rattle.scr_made.specs.Rows.{row_drawn};

use crate::days::year_end;
use crate::draws::Draws;
use crate::funds::{push_fund, push_holding, push_stake, push_trade};
use crate::liabilities::push_liability;
use crate::market::{push_group, push_market};
use crate::names::euro;
use crate::records::push_record;
use crate::securities::push_security;
use crate::volumes::{push_bank, push_charges, push_segment};
use scr_sheet::Edit;
use std::alloc::{AllocError as NoMemory, Global};

/// How many securities a made book has.
pub const SECURITIES: u32 = 8_000;

/// How many funds it has.
pub const FUNDS: u32 = 60;

/// How many liabilities it has.
pub const LIABILITIES: u32 = 200;

/// The texts of a made book and of its script of edits.
#[derive(Drop)]
pub struct Made {
    pub book: Vec<u8>,
    pub script: Vec<u8>,
}

/// Records that are drawn one after another.
#[derive(Clone, Copy)]
enum Rows {
    Groups,
    Securities,
    Funds,
    Holdings,
    Stakes,
    Liabilities,
    Banks,
    Trades,
}

/// The book and the script that are made from a number: an insurer with 8,000 securities, 60 funds
/// that hold them and one another and 200 liabilities, and 20 edits, their numbers drawn one after
/// another. Each record stands on a line of its own, as `write_edit` writes it. The rule is this
/// project's own.
#[tactic(auto, unfolding(crate::specs::Made::book_text, crate::specs::Made::script_text, crate::specs::Made::made_book, crate::specs::Made::made_script))]
pub fn make(alloc: Global, number: u64) -> Result<Made, NoMemory>
    ensures book { IfOk result (λ made. made.book.items ≡ book_text number) }
    ensures script { IfOk result (λ made. made.script.items ≡ script_text number) }
{
    let mut draws = Draws { state: number };
    let mut book = Vec::new(alloc);
    let mut script = Vec::new(alloc);
    push_book(alloc, &mut draws, &mut book)?;
    push_script(alloc, &mut draws, &mut script)?;
    Ok(Made { book, script })
}

#[tactic(auto, unfolding(crate::specs::Made::book))]
fn push_book(alloc: Global, draws: &mut Draws, out: &mut Vec<u8>) -> Result<(), NoMemory>
    ensures { OnOk result (Appends (spec.book) draws.old.state out.old.items
        draws.new.state out.new.items) }
{
    push_assets(alloc, draws, out)?;
    push_rows(alloc, Rows::Liabilities, LIABILITIES, draws, out)?;
    push_segments(alloc, draws, out)?;
    push_rows(alloc, Rows::Banks, 20, draws, out)?;
    push_charges(alloc, out)
}

#[tactic(auto, unfolding(crate::specs::Made::assets))]
fn push_assets(alloc: Global, draws: &mut Draws, out: &mut Vec<u8>) -> Result<(), NoMemory>
    ensures { OnOk result (Appends (spec.assets) draws.old.state out.old.items
        draws.new.state out.new.items) }
{
    push_market(alloc, out)?;
    push_rows(alloc, Rows::Groups, 400, draws, out)?;
    push_rows(alloc, Rows::Securities, SECURITIES, draws, out)?;
    push_rows(alloc, Rows::Funds, FUNDS, draws, out)?;
    push_rows(alloc, Rows::Holdings, SECURITIES, draws, out)?;
    push_rows(alloc, Rows::Stakes, FUNDS, draws, out)
}

#[tactic(auto, unfolding(crate::specs::Made::script))]
fn push_script(alloc: Global, draws: &mut Draws, out: &mut Vec<u8>) -> Result<(), NoMemory>
    ensures { OnOk result (Appends (spec.script) draws.old.state out.old.items
        draws.new.state out.new.items) }
{
    push_rows(alloc, Rows::Trades, 18, draws, out)?;
    push_closing(alloc, out)
}

/// Appends the last edits of a script.
#[tactic(auto, unfolding(crate::specs::Made::closing, crate::specs::Records::records_text))]
fn push_closing(alloc: Global, out: &mut Vec<u8>) -> Result<(), NoMemory>
    ensures { OnOk result (out.new.items ≡ out.old.items ++ records_text spec.closing) }
{
    push_record(alloc, Edit::Sym { millionths: 20_000 }, out)?;
    push_record(alloc, closing_date(), out)
}

fn closing_date() -> Edit
    ensures { result ≡ spec.closing_date }
{
    Edit::Asof {
        date: year_end(1),
        currency: euro(),
    }
}

/// Appends so many records, numbered from 0.
fn push_rows(
    alloc: Global,
    rows: Rows,
    count: u32,
    draws: &mut Draws,
    out: &mut Vec<u8>,
) -> Result<(), NoMemory>
    ensures { OnOk result (Appends (each count (row_drawn rows)) draws.old.state out.old.items
        draws.new.state out.new.items) }
{
    for k in 0..count {
        push_row(alloc, rows, k, draws, out)?;
    }
    Ok(())
}

fn push_row(
    alloc: Global,
    rows: Rows,
    k: u32,
    draws: &mut Draws,
    out: &mut Vec<u8>,
) -> Result<(), NoMemory>
    ensures { OnOk result (Appends (row_drawn rows k) draws.old.state out.old.items
        draws.new.state out.new.items) }
{
    match rows {
        Rows::Groups => push_group(alloc, k, draws, out),
        Rows::Securities => push_security(alloc, k, draws, out),
        Rows::Funds => push_fund(alloc, k, draws, out),
        Rows::Holdings => push_holding(alloc, k, draws, out),
        Rows::Stakes => push_stake(alloc, k, out),
        Rows::Liabilities => push_liability(alloc, k, draws, out),
        Rows::Banks => push_bank(alloc, k, draws, out),
        Rows::Trades => push_trade(alloc, draws, out),
    }
}

fn push_segments(alloc: Global, draws: &mut Draws, out: &mut Vec<u8>) -> Result<(), NoMemory>
    ensures { OnOk result (Appends (each 12 spec.segment) draws.old.state out.old.items
        draws.new.state out.new.items) }
{
    for k in 0..12 {
        push_segment(alloc, k, draws, out)?;
    }
    Ok(())
}
