//! The single numbers apart from what keeps them.
ghost use Rattle.std.specs.Prelude.{◌≡◌, IfOk};

use crate::Numbers;
use std::alloc::{AllocError as NoMemory, Global};
use std::marker::Model;

/// The single numbers on the heap: they take some 3 kilobytes, and an enum is as large as its largest variant. Contracts
/// see the numbers.
#[derive(Drop)]
pub struct BoxedNumbers {
    numbers: Box<Numbers>,
}

impl Model for BoxedNumbers {
    ghost use Rattle.scr_sheet.specs.declared.numbers.Numbers.{Numbers};

    ghost Value = { Numbers };

    ghost view = { λ boxed. boxed.numbers.value };
}

impl BoxedNumbers {
    /// A copy of the numbers. Only want of memory is refused.
    pub fn new(alloc: Global, numbers: &Numbers) -> Result<BoxedNumbers, NoMemory>
        ensures { IfOk result (λ boxed. boxed ≡ numbers.now) }
    {
        Ok(BoxedNumbers {
            numbers: Box::new(alloc, *numbers)?,
        })
    }

    /// The numbers.
    pub fn get(&self) -> &Numbers
        ensures { result.now ≡ self.now }
    {
        &self.numbers
    }

    /// The numbers, given back without memory.
    pub fn into_inner(self) -> Numbers
        ensures { result ≡ self }
    {
        Box::into_inner(self.numbers)
    }
}
