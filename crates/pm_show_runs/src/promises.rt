//! Evidence, computed by the prover, that the promises of `pm_model` say something: whole runs of
//! `pm_show_runs` keep them, and a single line that may not come breaks them.
//!
//! Each function's body is empty: its contract is what the prover computes.
#![tactic(auto, unfolding(crate::proofs::CallTable::call_table))]

pub mod broken;
pub mod findings;
pub mod first_bad;
pub mod gets;
pub mod islands;
pub mod kept;
pub mod pieces;
pub mod reasons;
pub mod times;
