//! How keys are written.
ghost use Rattle.std.specs.Prelude.{◌≡◌, ◌++◌, is_ok, if◌then◌else◌};
ghost use Rattle.scr_fields.specs.KeyWords.{absorb_text, currency_text};

use crate::words::scenario_word;
use scr_sheet::{AbsorbKey, Name};
use std::alloc::{AllocError as NoMemory, Global};

/// Appends an absorption key as records write it. Where memory is refused, nothing is appended.
pub fn push_absorb_key(alloc: Global, out: &mut Vec<u8>, key: AbsorbKey) -> Result<(), NoMemory>
    ensures { out.new.items
        ≡ (if is_ok result then out.old.items ++ absorb_text key else out.old.items) }
{
    match key {
        AbsorbKey::CurrencyUp(currency) => push_currency(alloc, out, &currency, b".up"),
        AbsorbKey::CurrencyDown(currency) => push_currency(alloc, out, &currency, b".down"),
        _ => out.extend_from_slice(scenario_word(key)),
    }
}

#[tactic(auto, unfolding(crate::specs::KeyWords::currency_text))]
fn push_currency(
    alloc: Global,
    out: &mut Vec<u8>,
    currency: &Name,
    turn: &[u8],
) -> Result<(), NoMemory>
    ensures { out.new.items
        ≡ (if is_ok result then out.old.items
        ++ currency_text currency.now turn.now else out.old.items) }
{
    let mut text = Vec::new(alloc);
    text.extend_from_slice(b"currency.")?;
    text.extend_from_slice(currency.as_bytes())?;
    text.extend_from_slice(turn)?;
    out.extend_from_slice(text.as_slice())
}
