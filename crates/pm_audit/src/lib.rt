//! Audits traces: which bytes are the text of a lawful list of lines of a plan, and which line of other bytes
//! is the first bad one. An auditor keeps no bytes. It asks what takes its lines: a judge, which keeps nothing of them; one
//! that keeps them for a book, which `load_trace` makes of bytes that are there whole; or one with a keeper beside it.
#![tactic(auto)]

mod auditor;
mod fronts;
mod loading;
mod offers;
mod pieces;
mod reader;
mod reading;
mod rest;
mod takers;
mod words;

pub use auditor::{Auditor, BadLine, Verdict};
pub use loading::{LoadFault, load_trace};
pub use reading::NoWhy;
pub use takers::{Follower, LineTaker};
