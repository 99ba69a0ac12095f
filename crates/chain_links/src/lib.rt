//! Walks along the chain of a bucket, and copies of its front.
#![tactic(auto)]

mod answers;
mod copied;
mod fronts;
mod links;
mod pages;
mod walks;

pub use answers::{Edit, Front, Walk};
pub use fronts::copy_front;
pub use pages::{has_key, value_of};
pub use walks::walk;
