//! Summaries of a device's lines. Their texts are written by hand.

use pm_base::{ActorId, Cb, DevId};
use pm_model::{Event, Line};
use pm_planread::{PlanFault, read_plan};
use pm_report::{Summary, summary, summary_text};
use std::alloc::Global;

const A: DevId = DevId(0);

/// A work item begins to resume the device.
const RESUMES: Line = Line {
    time: 0,
    actor: ActorId::Work(0),
    event: Event::Begin {
        dev: A,
        cb: Cb::Resume,
    },
};

/// Three callbacks, of which the first is awaited, and one that hasn't ended.
static LINES: [Line; 8] = list! {
    RESUMES;
    Line { event: Event::End { dev: A, cb: Cb::Resume, code: 0 }, ..RESUMES };
    Line { event: Event::Wait { dev: A }, ..RESUMES };
    Line { event: Event::Begin { dev: A, cb: Cb::Idle }, ..RESUMES };
    Line { event: Event::End { dev: A, cb: Cb::Idle, code: 0 }, ..RESUMES };
    Line { event: Event::Begin { dev: A, cb: Cb::Suspend }, ..RESUMES };
    Line { event: Event::End { dev: A, cb: Cb::Suspend, code: 0 }, ..RESUMES };
    RESUMES;
};

/// Begins are counted.
pub fn begins_are_counted(alloc: Global) -> Result<bool, PlanFault> {
    let plan = read_plan(alloc, b"device = [{name = 'a'}]")?;
    let text = summary_text(alloc, &summary(&plan, &LINES, false))?;
    Ok(text.as_slice() == b"devices 1 lines 8 resumes 2 suspends 1 idles 1 limit\n".as_slice())
}

/// The text is one line.
pub fn text_is_one_line(alloc: Global) -> Result<bool, PlanFault> {
    let sum = Summary {
        devices: 1,
        lines: 37,
        resumes: 1,
        suspends: 1,
        idles: 0,
        finished: true,
    };
    let text = summary_text(alloc, &sum)?;
    Ok(text.as_slice() == b"devices 1 lines 37 resumes 1 suspends 1 idles 0 finished\n".as_slice())
}
