//! What a `get_sync` brings: a device stays Active while one that returned 0 or 1 binds it, each succeeds where
//! nothing disturbs, and one that runs alone resumes each device at most once.

mod alone;
mod holding;
mod succeed;

pub use alone::one_call_alone;
pub use holding::{answers_hold, kept};
pub use succeed::gets_succeed;
