//! Why a command is refused.

use std::fmt;

/// Why a command of a script is refused (this project's own). The first that holds is named.
#[derive(Clone, Copy, Debug, PartialEq, Eq)]
pub enum ScriptFault {
    /// There is no first word, or it is no helper.
    Word,
    /// A word that is to name a device is missing or names none.
    Device,
    /// A word that is to be a number, or `on` or `off`, is missing or is none.
    Number,
    /// Words are left.
    Extra,
}

impl fmt::Display for ScriptFault {
    fn fmt<W: fmt::Write>(&self, f: &mut fmt::Formatter<W>) -> fmt::Result {
        f.write_str(match self {
            ScriptFault::Word => "no helper",
            ScriptFault::Device => "no such device",
            ScriptFault::Number => "no such number",
            ScriptFault::Extra => "too many words",
        })
    }
}

impl std::error::Error for ScriptFault {}
