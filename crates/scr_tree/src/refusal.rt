//! Why an engine refuses a record.
ghost use Rattle.std.specs.Prelude.{◌≡◌};
ghost use Rattle.scr_tree.specs.Standing.{refusal_of};

use scr_book::Fault;

/// Why a record is refused. The fault is never want of memory, which is told apart.
#[derive(Debug, PartialEq, Eq, Drop)]
pub enum Refusal {
    /// The record has this fault.
    Fault(Fault),
    /// Memory was refused. It may come in place of any other answer.
    NoMemory,
}

/// The refusal that a fault calls for.
pub(crate) fn refused_for(fault: Fault) -> Refusal
    ensures { result ≡ refusal_of fault }
{
    match fault {
        Fault::NoMemory => Refusal::NoMemory,
        fault => Refusal::Fault(fault),
    }
}
