//! Places in a text: where a key and its value stand, how a token is shown, and which word may have been meant (this
//! project's own).
#![tactic(auto)]

pub mod keys;
pub mod nearest;
pub mod source;
