//! Plans and lines, and the definitions that every promise of the product is a sentence over.
//!
//! The types stand here, with the lists that a plan is made of: plain ones, and lists of rows with names, in
//! which a row is found by its name without memory. `specs/` says in plain lists and numbers what they mean.
#![tactic(auto)]

mod event;
mod handing;
mod items;
pub mod keeper;
mod named;
mod plan;
mod rows;
mod same;
mod stage;
mod views;

pub use event::{Command, Event, Fields, Helper, Line, Operand, TimerAct, Word, WorkAct};
pub use handing::{is_supplied, take_code};
pub use items::Items;
pub use named::{Named, NamedList};
pub use plan::Plan;
pub use rows::{
    CallerList, CallerRow, Codes, DeviceList, DeviceRow, DomainList, DomainRow, LinkList, LinkRow,
    Name, Script,
};
pub use stage::{
    Await, Change, ControlStage, Handed, HelperStage, IdleStage, Move, Purpose, ResumeCall,
    ResumeStage, Stage, StageRow, Stages, SuspendStage, Then,
};
pub use views::Device;
