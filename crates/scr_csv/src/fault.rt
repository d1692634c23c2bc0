//! Why a line is no record.

/// Why a line is no record.
#[derive(Clone, Copy, Debug, PartialEq, Eq)]
pub enum LineFault {
    /// The first field that is missing, is one too many or has not its form. The fields after the
    /// verb are numbered from 1; 0 stands for the verb and for a line with a byte outside 20 to 7E.
    Syntax(u32),
    /// Memory was refused. It may come in place of any other answer.
    NoMemory,
}
