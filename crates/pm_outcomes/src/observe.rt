//! What a snapshot shows (this project's own).

mod ends;
mod finished;
mod returns;
mod showing;

pub use ends::device_at;
pub use finished::is_finished;
pub use returns::shown_return;
pub use showing::shown;
