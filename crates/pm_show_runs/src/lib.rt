//! Runs of small plans, computed by the prover: the evidence that the definitions of `pm_model` say
//! what they should.
//!
//! Each run is a function whose body is empty. Its contract says what text one thread writes of a
//! plan, line by line, and that the run is then finished; that its lines are lawful is a law of
//! every plan (`law`). The texts come from outside: none was computed from these definitions.
//! Together the runs pass through each row of the call table. `refusals` has lines that may not
//! come.
#![tactic(auto, unfolding(crate::proofs::CallTable::call_table))]

pub mod counts;
pub mod domains;
pub mod law;
pub mod links;
pub mod parents;
pub mod promises;
pub mod refusals;
pub mod requests;
pub mod suspends;
pub mod timers;
