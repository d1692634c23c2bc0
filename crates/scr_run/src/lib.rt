//! The top call: from the words and files to the report.
#![tactic(auto)]

mod crew;
mod entry;
mod files;
pub mod laws;
mod making;
mod printing;
mod records;
mod replies;
mod report;
mod running;
mod status;
mod summary;
mod telling;

pub use crew::Crew;
pub use entry::{conclude, program};
pub use files::{file_book, file_factors};
pub use printing::push_refusal;
pub use records::edit;
pub use running::{ended, run};
pub use scr_args::{Word, Words, WordsFault, parse_words};
pub use status::{Status, Which};
pub use telling::status_line;
