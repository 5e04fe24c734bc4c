//! Which statuses each command may answer, by what its files have; and that what is written is what `audit` says yes to.
//!
//! The laws have no body: each says what follows of the commands' contracts.

mod audited;
mod commands;
mod once;
mod page;
mod plans;
mod traces;

pub use audited::{audit_is_exact, converted_is_audited, runs_are_audited, serial_is_audited};
pub use commands::commands_answer_exactly;
pub use once::answers_are_one;
pub use page::{
    audit_says, check_says, convert_says, make_says, runs_say, serial_says, times_says, why_says,
};
pub use plans::{plans_answer_exactly, serial_answers_exactly};
pub use traces::traces_answer_exactly;
