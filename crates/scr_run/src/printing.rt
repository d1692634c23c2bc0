//! How faults are printed.
ghost use Rattle.std.specs.Prelude.{◌≡◌, ℕ, ◌++◌, decimal, OnOk};
ghost use Rattle.std.specs.Fmt.{signed_decimal};
ghost use Rattle.scr_run.specs.FaultTexts.{fault_number, fault_text, refusal_text, syntax_text, labelled_name, in_use_text, cycle_text, next_name, path_text, absorb_user, user_text, range_text, quantity_name};
ghost use Rattle.scr_fields.specs.KeyWords.{absorb_text};

use scr_book::{AbsorbKey, Fault, Name, Names, Quantity, User};
use scr_csv::push_absorb_key;
use std::alloc::{AllocError as NoMemory, Global};

/// Appends a text.
pub fn push(out: &mut Vec<u8>, text: &str) -> Result<(), NoMemory>
    ensures { OnOk result (out.new.items ≡ out.old.items ++ text.now) }
{
    out.extend_from_slice(text.as_bytes())
}

/// Appends a number.
pub fn push_number(alloc: Global, out: &mut Vec<u8>, number: u32) -> Result<(), NoMemory>
    ensures { OnOk result (out.new.items ≡ out.old.items ++ decimal number) }
{
    let digits = format!(in alloc; "{number}")?;
    push(out, digits.as_str())
}

/// The number by which a fault is told.
pub fn number_of(fault: &Fault) -> u32
    ensures { result ≡ fault_number fault.now }
{
    match fault {
        Fault::Syntax(_) => 1,
        Fault::UnknownName(_) => 2,
        Fault::WrongKind(_) => 3,
        Fault::InUse(..) => 4,
        Fault::Cycle(_) => 5,
        Fault::Range(..) => 6,
        Fault::NoMemory => 7,
    }
}

/// Appends the number by which a fault is told, and its text.
#[tactic(auto, unfolding(crate::specs::FaultTexts::refusal_text))]
pub fn push_refusal(alloc: Global, out: &mut Vec<u8>, fault: &Fault) -> Result<(), NoMemory>
    ensures { OnOk result (out.new.items ≡ out.old.items ++ refusal_text fault.now) }
{
    push_number(alloc, out, number_of(fault))?;
    push(out, " ")?;
    push_fault(alloc, out, fault)
}

/// Appends the text of a fault.
pub fn push_fault(alloc: Global, out: &mut Vec<u8>, fault: &Fault) -> Result<(), NoMemory>
    ensures { OnOk result (out.new.items ≡ out.old.items ++ fault_text fault.now) }
{
    match fault {
        Fault::Syntax(field) => push_syntax(alloc, out, *field),
        Fault::UnknownName(name) => push_named(out, "unknown name ", name),
        Fault::WrongKind(name) => push_named(out, "wrong kind ", name),
        Fault::InUse(name, user) => push_in_use(alloc, out, name, user),
        Fault::Cycle(path) => push_cycle(out, path),
        Fault::Range(quantity, value, limit) => {
            push_range(alloc, out, *quantity, *value, *limit)
        }
        Fault::NoMemory => push(out, "out of memory"),
    }
}

fn push_syntax(alloc: Global, out: &mut Vec<u8>, field: u32) -> Result<(), NoMemory>
    ensures { OnOk result (out.new.items ≡ out.old.items ++ syntax_text field) }
{
    push(out, "syntax in field ")?;
    push_number(alloc, out, field)?;
    Ok(())
}

#[tactic(auto, unfolding(crate::specs::FaultTexts::labelled_name))]
fn push_named(out: &mut Vec<u8>, label: &str, name: &Name) -> Result<(), NoMemory>
    ensures { OnOk result (out.new.items ≡ out.old.items ++ labelled_name label.now name.now) }
{
    push(out, label)?;
    push_name(out, name)
}

fn push_name(out: &mut Vec<u8>, name: &Name) -> Result<(), NoMemory>
    ensures { OnOk result (out.new.items ≡ out.old.items ++ name.now) }
{
    out.extend_from_slice(name.as_bytes())
}

#[tactic(auto, unfolding(crate::specs::FaultTexts::in_use_text))]
fn push_in_use(alloc: Global, out: &mut Vec<u8>, name: &Name, user: &User) -> Result<(), NoMemory>
    ensures { OnOk result (out.new.items ≡ out.old.items ++ in_use_text name.now user.now) }
{
    push_name(out, name)?;
    push(out, " in use by ")?;
    push_user(alloc, out, user)
}

#[tactic(auto, unfolding(crate::specs::FaultTexts::cycle_text))]
fn push_cycle(out: &mut Vec<u8>, path: &Names) -> Result<(), NoMemory>
    ensures { OnOk result (out.new.items ≡ out.old.items ++ cycle_text path.now) }
{
    push(out, "cycle ")?;
    push_path(out, path.as_slice())
}

// The names one after another, with a mark before each but the first.
fn push_path(out: &mut Vec<u8>, names: &[Name]) -> Result<(), NoMemory>
    ensures { OnOk result (out.new.items ≡ out.old.items ++ path_text names.now) }
{
    let Some((first, others)) = names.split_first() else {
        return Ok(());
    };
    push_name(out, first)?;
    for name in others {
        push_next_name(out, name)?;
    }
    Ok(())
}

#[tactic(auto, unfolding(crate::specs::FaultTexts::next_name))]
fn push_next_name(out: &mut Vec<u8>, name: &Name) -> Result<(), NoMemory>
    ensures { OnOk result (out.new.items ≡ out.old.items ++ next_name name.now) }
{
    push(out, " > ")?;
    push_name(out, name)
}

fn push_user(alloc: Global, out: &mut Vec<u8>, user: &User) -> Result<(), NoMemory>
    ensures { OnOk result (out.new.items ≡ out.old.items ++ user_text user.now) }
{
    match user {
        User::Asof => push(out, "asof"),
        User::Hold => push(out, "hold"),
        User::Lflow => push(out, "lflow"),
        User::Absorb(key) => push_absorb_user(alloc, out, *key),
        User::Row(name) => push_name(out, name),
    }
}

#[tactic(auto, unfolding(crate::specs::FaultTexts::absorb_user))]
fn push_absorb_user(alloc: Global, out: &mut Vec<u8>, key: AbsorbKey) -> Result<(), NoMemory>
    ensures { OnOk result (out.new.items ≡ out.old.items ++ absorb_user (absorb_text key)) }
{
    push(out, "absorb.")?;
    push_absorb_key(alloc, out, key)
}

/// Appends a quantity, its value and its limit.
#[tactic(auto, unfolding(crate::specs::FaultTexts::range_text))]
fn push_range(
    alloc: Global,
    out: &mut Vec<u8>,
    quantity: Quantity,
    value: i128,
    limit: i128,
) -> Result<(), NoMemory>
    ensures { OnOk result (out.new.items ≡ out.old.items ++ range_text quantity value limit) }
{
    push(out, name_of(quantity))?;
    let text = format!(in alloc; " is {value}, limit {limit}")?;
    push(out, text.as_str())
}

fn name_of(quantity: Quantity) -> &'static str
    ensures { result.now ≡ quantity_name quantity }
{
    match quantity {
        Quantity::Rate => "rate",
        Quantity::Duration => "duration",
        Quantity::Weight => "weight",
        Quantity::Flow => "flow",
        Quantity::Hold => "hold",
        Quantity::Amount => "amount",
        Quantity::Provision => "provision",
        Quantity::Sym => "sym",
        Quantity::TaxRate => "taxrate",
        Quantity::SecFlows => "secflows",
        Quantity::Held => "held",
        Quantity::LiabilityFlows => "lineflows",
        Quantity::Volumes => "volumes",
        Quantity::Defaults => "defaults",
        Quantity::Years => "years",
        Quantity::Currencies => "currencies",
        Quantity::Securities => "securities",
        Quantity::Funds => "funds",
        Quantity::Components => "components",
        Quantity::Liabilities => "lines",
        Quantity::Groups => "groups",
        Quantity::Exposures => "exposures",
    }
}
