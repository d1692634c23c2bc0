//! The segments, the banks and the single numbers of the made book.
ghost use Rattle.std.specs.Prelude.{◌≡◌, ◌++◌, ◌<◌, OnOk};
ghost use Rattle.scr_made.specs.Made as spec;
ghost use Rattle.scr_made.specs.Records.{Appends, records_text};

use crate::draws::Draws;
use crate::names::{bank_name, group_name};
use crate::records::push_record;
use scr_profile::Set;
use scr_sheet::{CatKey, Edit};
use std::alloc::{AllocError as NoMemory, Global};

/// Appends the volumes of a segment.
#[tactic(auto, unfolding(crate::specs::Made::segment, crate::specs::Records::records_text))]
pub fn push_segment(
    alloc: Global,
    k: u8,
    draws: &mut Draws,
    out: &mut Vec<u8>,
) -> Result<(), NoMemory>
    requires { k < 12 }
    ensures { OnOk result (Appends (spec.segment k) draws.old.state out.old.items
        draws.new.state out.new.items) }
{
    let premium = i64::from(1_000_000_000 + draws.draw(1_000_000_001));
    let reserve = i64::from(1_000_000_000 + draws.draw(1_000_000_001));
    let edit = Edit::Segment {
        set: Set::Nl,
        number: 1 + k,
        region: 1,
        premium,
        reserve,
    };
    push_record(alloc, edit, out)
}

/// Appends a bank.
#[tactic(auto, unfolding(crate::specs::Made::bank, crate::specs::Records::records_text))]
pub fn push_bank(
    alloc: Global,
    k: u32,
    draws: &mut Draws,
    out: &mut Vec<u8>,
) -> Result<(), NoMemory>
    ensures { OnOk result (Appends (spec.bank k) draws.old.state out.old.items
        draws.new.state out.new.items) }
{
    let edit = Edit::Bank {
        name: bank_name(alloc, k)?,
        group: group_name(alloc, 20 + draws.draw(380))?,
        cents: 50_000_000,
    };
    push_record(alloc, edit, out)
}

/// Appends the catastrophe charges, and what the operational risk and the adjustment for deferred
/// taxes are worked from.
#[tactic(auto, unfolding(crate::specs::Made::charges, crate::specs::Records::records_text))]
pub fn push_charges(alloc: Global, out: &mut Vec<u8>) -> Result<(), NoMemory>
    ensures { OnOk result (out.new.items ≡ out.old.items ++ records_text spec.charges) }
{
    push_record(alloc, windstorm(), out)?;
    push_record(alloc, fire(), out)?;
    push_record(alloc, operations(), out)?;
    push_record(alloc, taxes(), out)
}

fn windstorm() -> Edit
    ensures { result ≡ spec.windstorm }
{
    Edit::Cat {
        key: CatKey::Windstorm,
        cents: 2_000_000_000,
    }
}

fn fire() -> Edit
    ensures { result ≡ spec.fire }
{
    Edit::Cat {
        key: CatKey::Fire,
        cents: 1_000_000_000,
    }
}

fn operations() -> Edit
    ensures { result ≡ spec.operations }
{
    Edit::Op {
        tpl: 100_000_000_000,
        tpul: 0,
        tpn: 20_000_000_000,
        el: 10_000_000_000,
        eul: 0,
        pel: 9_000_000_000,
        peul: 0,
        en: 15_000_000_000,
        pen: 14_000_000_000,
        expul: 0,
    }
}

fn taxes() -> Edit
    ensures { result ≡ spec.taxes }
{
    Edit::Tax {
        millionths: 250_000,
        cap: 10_000_000_000,
    }
}
