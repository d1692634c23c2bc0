//! A fund's components by name.

use scr_sheet::{Name, Row, Rows};

/// What a fund holds, by the weights of the components before it, and up to it and with it.
#[derive(Clone, Copy)]
pub(crate) struct Component {
    pub(crate) name: Name,
    pub(crate) before: u128,
    pub(crate) through: u128,
}

/// The components of a fund, and the weights of all.
#[derive(Drop)]
pub(crate) struct Weighed {
    pub(crate) rows: Rows<Component>,
    pub(crate) all: u128,
}

/// The components of a fund before and after it is exchanged.
#[derive(Drop)]
pub(crate) struct Shares {
    pub(crate) old: Weighed,
    pub(crate) new: Weighed,
}

impl Row for Component {
    ghost use Rattle.scr_touched.specs.Components.{component_name};

    ghost name_of = { component_name };

    fn name(&self) -> Name {
        self.name
    }
}
