//! Why components are refused.

use scr_tables::Names;

/// Why a fund cannot have the components that were handed in; all is then as before.
#[derive(Drop)]
pub enum GraphFault {
    /// The fund would hold itself: the first of the shortest chains of components from it back to
    /// itself.
    Cycle(Names),
    /// Memory was refused. It may come in place of any other answer.
    NoMemory,
}
