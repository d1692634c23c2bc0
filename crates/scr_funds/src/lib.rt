//! Funds: the parts of a fund's value, the order of funds that hold funds, and what is held through
//! them (Article 84 of Delegated Regulation (EU) 2015/35).
#![tactic(auto)]

mod edges;
mod fault;
mod kept;
pub mod laws;
mod look_through;
mod lowering;
mod order;
mod parts;
mod ranks;
mod search;

pub use fault::{OrderFault, Places};
pub use kept::Kept;
pub use look_through::totals;
pub use order::FundOrder;
pub use parts::allocate;
