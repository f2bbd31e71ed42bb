// Strict total orders, and the first of several values under one.
#![tactic(auto)]

mod order;
mod search;

pub use order::Order;
pub use search::first_in_order;
