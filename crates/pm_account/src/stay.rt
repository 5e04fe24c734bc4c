//! What is kept of a device while lines are read: the moment at which its status was last said, and its
//! times until then.

ghost use Rattle.std.specs.Prelude.{◌≡◌, ◌<◌, All, length};
ghost use Rattle.pm_base.specs.declared.DevId.{DevId};
ghost use Rattle.pm_model.specs.Counted.{says_status, word_status};
ghost use Rattle.pm_account.specs.Kept.{IsReady, behind, longer, stay_at, told_of, total, turned, unsaid, until};

use crate::Times;
use pm_base::{Cb, DevId, Status};
use pm_model::{Event, Line, Word};

#[derive(Clone, Copy, PartialEq, Eq)]
pub struct Stay {
    // What was last said, and when, in milliseconds of the run.
    pub status: Status,
    pub since: u64,
    // The times until then.
    pub before: Times,
}

/// Nothing was said yet: a device starts Suspended.
pub const UNSAID: Stay = Stay {
    status: Status::Suspended,
    since: 0,
    before: Times {
        active: 0,
        suspended: 0,
        moving: 0,
    },
};

impl Stay {
    /// The times until a moment that isn't earlier.
    pub fn until(&self, moment: u64) -> Times
        requires { IsReady moment self.now }
        ensures { result ≡ until self.now moment }
    {
        let mut times = self.before;
        let ms = moment - self.since;
        match self.status {
            Status::Active => times.active += ms,
            Status::Suspended => times.suspended += ms,
            Status::Suspending | Status::Resuming => times.moving += ms,
        }
        times
    }

    // A status is said at a moment.
    fn turned(&self, status: Status, moment: u64) -> Stay
        requires { IsReady moment self.now }
        ensures { result ≡ turned self.now status moment }
    {
        Stay {
            status,
            since: moment,
            before: self.until(moment),
        }
    }
}

// The status that a word names.
fn word_status(word: Word) -> Status
    ensures { result ≡ word_status word }
{
    match word {
        Word::Active | Word::ForcedActive => Status::Active,
        Word::Resuming => Status::Resuming,
        Word::Suspended | Word::Deferred | Word::ForcedSuspended => Status::Suspended,
    }
}

// The device whose status an event says, and that status.
fn told(event: &Event) -> Option<(DevId, Status)>
    ensures { (d : DevId) → says_status d event.now ≡ told_of d result }
{
    match *event {
        Event::State { dev, word } => Some((dev, word_status(word))),
        Event::Begin {
            dev,
            cb: Cb::Suspend,
        } => Some((dev, Status::Suspending)),
        Event::End {
            dev,
            cb: Cb::Suspend,
            code,
        } if code != 0 => Some((dev, Status::Active)),
        _ => None,
    }
}

/// Keeps what a line says. It looks at one device.
pub fn keep(stays: &mut [Stay], line: &Line)
    requires { All (IsReady line.now.time) stays.old }
    ensures entries { length stays.new ≡ length stays.old }
    ensures each { (d : DevId) → d.0 < length stays.old → stay_at stays.new d ≡ behind line.now d (stay_at stays.old d) }
{
    let Some((dev, status)) = told(&line.event) else {
        return;
    };
    let place = dev.0 as usize;
    if place < stays.len() {
        stays[place] = stays[place].turned(status, line.time);
    }
}
