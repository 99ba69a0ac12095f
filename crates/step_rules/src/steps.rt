//! The kinds of atomic step, one call for each. Each is one event on one word, and keeps the rule.

mod backup;
mod claim;
mod inline;
mod mark;
mod node;
mod scan;
mod stand;
mod version;

pub use backup::{backup_exchange, backup_load};
pub use claim::{claim_clear, claim_store, recheck_load};
pub use inline::{inline_load, inline_store};
pub use mark::mark_clear;
pub use node::{node_glance, node_load, node_store};
pub use scan::scan_load;
pub use version::{version_again, version_load, version_lock, version_release};
