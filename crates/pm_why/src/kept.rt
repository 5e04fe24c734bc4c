//! What is kept of a device while the lines of a run come, to tell what keeps it from suspending.

ghost use Rattle.std.specs.Prelude.{◌≡◌, []};
ghost use Rattle.pm_why.specs.Kept.{GoesOn, TellsOf};

use crate::gets::{Found, follow};
use pm_base::DevId;
use pm_model::keeper::Keeper;
use pm_model::{Event, Line};
use std::alloc::Global;

/// What lines tell of a device, in place of the lines: its gets that nothing has closed, and which line stored its
/// error.
#[derive(Drop)]
pub struct Gets {
    pub(crate) dev: DevId,
    // What the lines tell. Nothing is kept once memory ran out.
    pub(crate) found: Option<Found>,
}

impl Gets {
    /// Before any line.
    pub fn start(alloc: Global, dev: DevId) -> Gets
        ensures dev { result.dev ≡ dev }
        ensures told { TellsOf result [] }
    {
        let found = Found {
            gets: Vec::new(alloc),
            error_line: 0,
        };
        Gets {
            dev,
            found: Some(found),
        }
    }
}

// One line more of this number, where something is kept. It is dropped where memory runs out.
fn go_on(found: &mut Option<Found>, dev: DevId, line: u32, event: &Event)
    ensures { GoesOn dev line event.now found.old found.new }
{
    let is_lost = match found {
        Some(found) => follow(found, dev, line, event).is_err(),
        None => false,
    };
    if is_lost {
        *found = None;
    }
}

impl Keeper for Gets {
    ghost Keeps = { TellsOf };

    ghost subject = { λ gets. gets.dev.0 };

    fn keep(&mut self, number: u32, line: &Line) {
        go_on(&mut self.found, self.dev, number, &line.event);
    }
}
