//! Those who reckon the figures of a run.

/// The runtime that starts the workers, how many they are, 1 to 64, and the gate that is passed
/// before each evaluation.
#[derive(Clone, Copy)]
pub struct Crew<'a, R, G> {
    pub rt: &'a R,
    pub workers: u32,
    pub gate: &'a G,
}
