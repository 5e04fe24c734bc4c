//! Pieces that are appended.

ghost use Rattle.std.specs.Prelude.{◌≡◌, ◌++◌, OnOk};
ghost use Rattle.std.specs.Option.{option_to_list};
ghost use Rattle.pm_lanes.specs.Pieces.{at_line};

use crate::shown::{Piece, Shown};
use pm_base::NoMemory;

/// Appends what is shown from a line on, if it is something.
pub fn push(pieces: &mut Vec<Piece>, number: u32, shown: Option<Shown>) -> Result<(), NoMemory>
    ensures { OnOk result (pieces.new.items ≡ pieces.old.items ++ at_line number (option_to_list shown)) }
{
    if let Some(shown) = shown {
        pieces.push(Piece {
            line: number,
            shown,
        })?;
    }
    Ok(())
}
