//! The bytes of a file, kept in passages.

/// The bytes of a file in passages, each of which can be given back by itself.
#[derive(Drop)]
pub struct Passages {
    /// Passages of whole lines, each of which ends with a newline.
    pub whole: Vec<Vec<u8>>,
    /// What follows them.
    pub last: Vec<u8>,
}
