//! The name under which each row stands in its table.
ghost use Rattle.scr_sheet.specs.BalanceSheet.{group_name, position_name, liability_name, bank_name, rein_name, curve_name, stake_name};

use crate::{Bank, Curve, Group, Liability, Name, Position, Rein, Stake};
use scr_tables::Row;

impl Row for Group {
    ghost name_of = { group_name };

    fn name(&self) -> Name {
        self.name
    }
}

impl Row for Position {
    ghost name_of = { position_name };

    fn name(&self) -> Name {
        self.security.name
    }
}

impl Row for Stake {
    ghost name_of = { stake_name };

    fn name(&self) -> Name {
        self.fund.name
    }
}

impl Row for Liability {
    ghost name_of = { liability_name };

    fn name(&self) -> Name {
        self.name
    }
}

impl Row for Bank {
    ghost name_of = { bank_name };

    fn name(&self) -> Name {
        self.name
    }
}

impl Row for Rein {
    ghost name_of = { rein_name };

    fn name(&self) -> Name {
        self.name
    }
}

impl Row for Curve {
    ghost name_of = { curve_name };

    fn name(&self) -> Name {
        self.currency
    }
}
