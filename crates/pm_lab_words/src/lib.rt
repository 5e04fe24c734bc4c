//! The words of the command line of `pm_lab`, and the command that they name (this project's own).
//!
//! The words are those after the program's name: the word of a command, and behind it that command's words. Behind `--`
//! each word is positional. Before it, a word that begins with `-` and isn't `-` alone is an option of the command, given
//! at most once, before or behind what is positional; one with a value is written `--most K` or `--most=K`. A negative
//! number is positional.
#![tactic(auto)]

mod driver;
mod given;
mod names;
mod numbers;
mod options;
mod request;

pub use driver::{DriverBounds, Paces};
pub use names::Command;
pub use numbers::{code_in, number_between, status_in};
pub use request::{Bounds, Request, Sought, read_words};
