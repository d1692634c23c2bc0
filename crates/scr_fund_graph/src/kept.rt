//! Components that may be put back.

/// The number of a fund and those of its components, as `FundGraph::keep` hands them out.
#[derive(Drop)]
pub struct KeptComponents {
    pub(crate) number: u32,
    pub(crate) components: Vec<u32>,
}
