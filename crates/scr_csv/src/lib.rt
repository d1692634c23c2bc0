//! The lines of a book or of a script of edits, and the record that each line spells.
#![tactic(auto)]

mod fault;
mod fields;
mod file;
pub mod laws;
mod read;
mod records;
mod source;
mod split;
mod verb;
mod walk;
mod write;

pub use fault::LineFault;
pub use file::lines;
pub use read::read_line;
pub use scr_fields::push_absorb_key;
pub use walk::{Line, Lines};
pub use write::write_edit;
