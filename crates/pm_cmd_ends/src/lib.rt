//! What all commands of the program share: the words of the command line and the command that they name, how each
//! command ends, by which status and message, what is read of a plan's file, and how lines are written.
#![tactic(auto)]

mod ending;
mod loading;
mod numbers;
mod ordering;
mod output;
mod promises;
mod request;
mod said;

pub use ending::{
    AT_LIMIT, DONE, Fault, NO_MEMORY, NOT_LAWFUL, READ_FAILED, REFUSED, WRITE_FAILED, WRONG_WORDS,
    finish, refuse_words, statuses_are_numbers,
};
pub use loading::load;
pub use numbers::number_in;
pub use ordering::{is_option, is_separator};
pub use output::{Format, spell, write_header, write_text};
pub use promises::promises_are_kept;
pub use request::{DEFAULT_HANDS, MAX_HANDS, Request, read_words};
pub use said::{no_line, verdict_line};
