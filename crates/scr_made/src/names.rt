//! The names of the made book's rows and currencies.
ghost use Rattle.std.specs.Prelude.{◌≡◌, codes, IfOk};
ghost use Rattle.scr_made.specs.Names as spec;
ghost use Rattle.scr_made.specs.Names.{numbered, IsLetter};

use scr_sheet::Name;
use std::alloc::{AllocError as NoMemory, Global};

/// The group of this number.
pub fn group_name(alloc: Global, k: u32) -> Result<Name, NoMemory>
    ensures { IfOk result (λ name. name ≡ spec.group_name k) }
{
    numbered(alloc, "G", k)
}

/// The security of this number.
pub fn security_name(alloc: Global, k: u32) -> Result<Name, NoMemory>
    ensures { IfOk result (λ name. name ≡ spec.security_name k) }
{
    numbered(alloc, "S", k)
}

/// The fund of this number.
pub fn fund_name(alloc: Global, k: u32) -> Result<Name, NoMemory>
    ensures { IfOk result (λ name. name ≡ spec.fund_name k) }
{
    numbered(alloc, "U", k)
}

/// The liability of this number.
pub fn liability_name(alloc: Global, k: u32) -> Result<Name, NoMemory>
    ensures { IfOk result (λ name. name ≡ spec.liability_name k) }
{
    numbered(alloc, "L", k)
}

/// The bank of this number.
pub fn bank_name(alloc: Global, k: u32) -> Result<Name, NoMemory>
    ensures { IfOk result (λ name. name ≡ spec.bank_name k) }
{
    numbered(alloc, "B", k)
}

/// A letter and a number.
fn numbered(alloc: Global, letter: &str, k: u32) -> Result<Name, NoMemory>
    requires { IsLetter letter.now }
    ensures { IfOk result (λ name. name ≡ numbered letter.now k) }
{
    let text = format!(in alloc; "{letter}{k}")?;
    Ok(Name::parse(text.as_bytes()).unwrap())
}

pub fn euro() -> Name
    ensures { result ≡ codes "EUR" }
{
    Name::parse(b"EUR").unwrap()
}

pub fn dollar() -> Name
    ensures { result ≡ codes "USD" }
{
    Name::parse(b"USD").unwrap()
}

pub fn pound() -> Name
    ensures { result ≡ codes "GBP" }
{
    Name::parse(b"GBP").unwrap()
}
