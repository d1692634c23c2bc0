//! A component's share of its fund.

/// The weights of a fund before a component, up to it and with it, and of all.
#[derive(Clone, Copy)]
pub(crate) struct ByWeight {
    pub(crate) before: u64,
    pub(crate) through: u64,
    pub(crate) all: u64,
}
