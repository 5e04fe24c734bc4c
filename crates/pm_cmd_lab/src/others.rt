//! The commands of `pm_lab`, and the dispatch, `top`, which hands each command's words to it. Files and sinks are handed in.

mod dispatch;
mod help;
mod kernel;
mod say;

pub use dispatch::top;
pub use help::{FIND_PAGE, HELP, KERNEL_PAGE, ORDER_PAGE, ORDERS_PAGE, PICTURE_PAGE, SAY_PAGE};
pub use kernel::kernel_top;
pub use say::say_top;
