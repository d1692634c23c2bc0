//! The tables whose rows have ids.
ghost use Rattle.std.specs.Prelude.{◌≡◌, ◌<◌, ◌/◌, ◌%◌};
ghost use Rattle.scr_ids.specs.Ranges.{number_of, stride};

/// A table whose rows have ids. The whole sheet counts as a table of one row. The parts of member lists are rows too, with one id
/// for each sum over the list.
#[derive(Clone, Copy, PartialEq, Eq)]
pub enum Table {
    Whole,
    Fund,
    Security,
    Liability,
    Group,
    Currency,
    Part,
}

impl Table {
    /// The number of ids of a row of the table: one for each figure that it may have.
    pub fn stride(self) -> u32
        ensures { result ≡ stride self }
    {
        match self {
            Table::Whole => 154,
            Table::Fund => 1,
            Table::Security => 6,
            Table::Liability => 12,
            Table::Group => 3,
            Table::Currency => 9,
            Table::Part => 3,
        }
    }

    /// The number of whole rows in `numbers` ids, and the ids that are left. Each divisor is a constant, so the compiler divides
    /// by a product.
    pub(crate) fn split(self, numbers: u32) -> (u32, u32)
        ensures rows { result.0 ≡ numbers / stride self }
        ensures rest { result.1 ≡ numbers % stride self }
    {
        match self {
            Table::Whole => (numbers / 154, numbers % 154),
            Table::Fund => (numbers, 0),
            Table::Security => (numbers / 6, numbers % 6),
            Table::Liability => (numbers / 12, numbers % 12),
            Table::Group | Table::Part => (numbers / 3, numbers % 3),
            Table::Currency => (numbers / 9, numbers % 9),
        }
    }

    /// The index of the table among the seven, from 0.
    pub(crate) fn number(self) -> usize
        ensures number { result ≡ number_of self }
        ensures few { number_of self < 7 }
    {
        match self {
            Table::Whole => 0,
            Table::Fund => 1,
            Table::Security => 2,
            Table::Liability => 3,
            Table::Group => 4,
            Table::Currency => 5,
            Table::Part => 6,
        }
    }
}
