//! Hazard claims on nodes, and scans that give retired nodes back (Michael, "Hazard Pointers", 2004).
#![tactic(auto)]

mod answers;
mod claims;
mod scans;

pub use answers::Recheck;
pub use claims::{Claim, announce, recheck, release};
pub use scans::{clear_walk, scan};
