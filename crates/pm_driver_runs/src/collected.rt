//! The plan of one run of a driver, and a text of that plan.

mod answers;
mod calls;
pub mod collecting;
mod device_text;
mod keys;
mod limits;
mod plan;
mod rows;
pub mod run;
mod text;
