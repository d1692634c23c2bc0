//! Why edges are refused.
ghost use Rattle.std.specs.Prelude.{◌≡◌};

use std::alloc::AllocError;
use std::marker::Model;

/// Why edges are refused.
#[derive(Drop)]
pub enum OrderFault {
    /// A fund would hold itself. The path begins and ends with it: it is a shortest chain, and of
    /// those the first, comparing step by step the place of each component in its fund's record.
    Cycle(Places),
    /// Memory was refused. It may come in place of any other answer.
    NoMemory,
}

impl From<AllocError> for OrderFault {
    ghost use Rattle.std.specs.Prelude.{◌≡◌};
    ghost use Rattle.scr_funds.specs.declared.fault.OrderFault.TheVariants.{NoMemory};

    ghost from_gives = { λ _ fault. fault ≡ NoMemory };

    fn from(_: AllocError) -> OrderFault {
        OrderFault::NoMemory
    }
}

/// The funds and securities of a path, by their numbers. Contracts see it as the list of these.
#[derive(Drop)]
pub struct Places(Vec<u32>);

impl Model for Places {
    ghost use Rattle.std.specs.Prelude.{ℕ, List};

    ghost Value = { List ℕ };

    ghost view = { λ places. places.0.items };
}

impl Places {
    /// The path of these numbers.
    pub fn new(numbers: Vec<u32>) -> Places
        ensures { result ≡ numbers.items }
    {
        Places(numbers)
    }

    /// The numbers, in order.
    pub fn as_slice(&self) -> &[u32]
        ensures { result.now ≡ self.now }
    {
        &self.0
    }

    /// Gives the numbers back, without memory.
    pub fn into_vec(self) -> Vec<u32>
        ensures { result.items ≡ self }
    {
        let Places(numbers) = self;
        numbers
    }
}
