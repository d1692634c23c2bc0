//! Rows once more, to be kept before a record changes them.

use crate::{
    Bank, Copied, Curve, Fund, Group, Liability, LiabilityFlows, Position, Rein, Security, Stake,
};
use std::alloc::{AllocError as NoMemory, Global};

impl Copied for Group {
    fn copied(&self, _alloc: Global) -> Result<Group, NoMemory> {
        Ok(*self)
    }
}

impl Copied for Bank {
    fn copied(&self, _alloc: Global) -> Result<Bank, NoMemory> {
        Ok(*self)
    }
}

impl Copied for Rein {
    fn copied(&self, _alloc: Global) -> Result<Rein, NoMemory> {
        Ok(*self)
    }
}

impl Copied for Curve {
    fn copied(&self, alloc: Global) -> Result<Curve, NoMemory> {
        Ok(Curve {
            currency: self.currency,
            rates: self.rates.copy(alloc)?,
            absorb_up: self.absorb_up,
            absorb_down: self.absorb_down,
        })
    }
}

impl Copied for Position {
    fn copied(&self, alloc: Global) -> Result<Position, NoMemory> {
        let security = Security {
            name: self.security.name,
            class: self.security.class,
            group: self.security.group,
            currency: self.security.currency,
            duration: self.security.duration,
            flows: self.security.flows.copy(alloc)?,
        };
        Ok(Position {
            security,
            held: self.held,
        })
    }
}

impl Copied for Stake {
    fn copied(&self, alloc: Global) -> Result<Stake, NoMemory> {
        let fund = Fund {
            name: self.fund.name,
            components: self.fund.components.copy(alloc)?,
        };
        Ok(Stake {
            fund,
            held: self.held,
        })
    }
}

impl Copied for LiabilityFlows {
    fn copied(&self, alloc: Global) -> Result<LiabilityFlows, NoMemory> {
        Ok(LiabilityFlows {
            base: self.base.copy(alloc)?,
            mortality: self.mortality.copy(alloc)?,
            longevity: self.longevity.copy(alloc)?,
            disability: self.disability.copy(alloc)?,
            expense: self.expense.copy(alloc)?,
            revision: self.revision.copy(alloc)?,
            lapse_up: self.lapse_up.copy(alloc)?,
            lapse_down: self.lapse_down.copy(alloc)?,
            lapse_mass: self.lapse_mass.copy(alloc)?,
            catastrophe: self.catastrophe.copy(alloc)?,
        })
    }
}

impl Copied for Liability {
    fn copied(&self, alloc: Global) -> Result<Liability, NoMemory> {
        Ok(Liability {
            name: self.name,
            kind: self.kind,
            currency: self.currency,
            flows: self.flows.copied(alloc)?,
        })
    }
}
