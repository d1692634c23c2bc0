//! The ids of a balance sheet's figures. A figure's id is the first id of its row plus its family. So it takes one look-up of the
//! row and one addition. An id leads back to its figure without a table of figures. A range has ids for all families of its table,
//! whether or not the sheet has the figure (`scr_nodes`). The ids of a figure's sources come from lists of row indexes, gathered
//! once, or from walks along the tables.
#![tactic(auto)]

mod edits;
mod families;
mod finding;
pub mod gathered;
pub mod laws;
mod levels;
mod lists;
mod sheets;
mod sources;
mod steps;
mod wholes;

pub use edits::step_of;
pub use families::{
    currency_at, currency_family, family, group_family, liability_family, security_family, table,
};
pub use finding::{find, node_at};
pub use levels::{LEVELS, level};
pub use lists::Lists;
pub use sheets::places_of;
pub use sources::{View, push_gathered, push_walked};
pub use steps::{Step, follow, take_back};
pub use wholes::whole_at;
