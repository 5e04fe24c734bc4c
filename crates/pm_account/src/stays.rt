//! What is kept of all devices of a plan while the lines of a run come.

ghost use Rattle.std.specs.Prelude.{◌≡◌, ◌<◌, [], IfOk, length};
ghost use Rattle.pm_account.specs.Kept.{stay_at, until};
ghost use Rattle.pm_account.specs.AllKept.{AreTimes};

use crate::Times;
use crate::stay::{Stay, UNSAID, keep};
use pm_base::{DevId, NoMemory};
use pm_model::keeper::Keeper;
use pm_model::{Line, Plan};
use std::alloc::Global;
use std::marker::Model;

/// What is kept of each device, so that its times until the last line can be told. Contracts see what it is.
#[derive(Drop)]
pub struct Stays {
    stays: Vec<Stay>,
    // When the last line was written, 0 where there is none.
    last: u64,
}

impl Model for Stays {
    ghost use Rattle.std.specs.Prelude.{All};
    ghost use Rattle.pm_account.specs.Kept.{IsReady};
    ghost use Rattle.pm_account.specs.AllKept.{Stayed};

    ghost Value = { Stayed };

    ghost view = { λ s. record { stays = s.stays.items; last = s.last } };

    ghost invariant = { λ s. All (IsReady s.last) s.stays.items };
}

impl Stays {
    /// Before any line. All memory is taken here; fails where it runs out.
    pub fn start(alloc: Global, plan: &Plan) -> Result<Stays, NoMemory>
        ensures times { IfOk result (λ stays. AreTimes stays []) }
        ensures entries { IfOk result (λ stays. length stays.stays ≡ length plan.now.devices) }
    {
        Ok(Stays {
            stays: vec![in alloc; UNSAID; plan.devices.len()]?,
            last: 0,
        })
    }

    /// The times of a device until the last line.
    pub fn times(&self, dev: DevId) -> Times
        requires { dev.0 < length self.now.stays }
        ensures { result ≡ until (stay_at self.now.stays dev) self.now.last }
    {
        self.stays[dev.0 as usize].until(self.last)
    }
}

impl Keeper for Stays {
    ghost Keeps = { AreTimes };

    ghost subject = { λ s. length s.stays };

    fn keep(&mut self, _number: u32, line: &Line) {
        // The lines of a run don't go back in time, so that this is for other lines alone.
        if line.time < self.last {
            return;
        }
        keep(&mut self.stays, line);
        self.last = line.time;
    }
}
