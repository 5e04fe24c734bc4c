//! Traces of two small plans, fed in pieces of any length, and loaded.

ghost use Rattle.std.specs.Prelude.{◌<◌};

use pm_audit::{Auditor, LineTaker, LoadFault, NoWhy, Verdict, load_trace};
use pm_base::PLAN_BYTES;
use pm_book::Book;
use pm_cmd_ends::Fault;
use pm_io::{Files, read_all};
use pm_planread::{PlanFault, read_plan};
use std::alloc::Global;

/// A trace, and what is said of it.
pub struct Said {
    pub shows: &'static str,
    plan: &'static [u8],
    text: &'static str,
    verdict: Verdict,
}

/// A trace in a file, over the plan in another, and what is said of it.
pub struct StoredSaid {
    plan: &'static str,
    pub trace: &'static str,
    verdict: Verdict,
}

/// A caller waits for 5 milliseconds and marks the device busy. Four lines are allowed.
const SHORT: &[u8] = b"lines = 4
device = [{name = 'a'}]
caller = [{name = 'c', script = ['delay 5', 'mark_last_busy a']}]
";

/// A caller enables the device, gets it and puts it.
const WORKED: &[u8] = b"device = [{name = 'a'}]
caller = [{name = 'c', script = ['enable a', 'get_sync a', 'put_noidle a']}]
";

/// This line is the first bad one, for this reason.
macro_rules! no {
    ($line:expr, $why:ident) => {
        Verdict::No {
            line: $line,
            why: NoWhy::$why,
        }
    };
}

pub static SAID: [Said; 30] = [
    Said {
        shows: "no bytes are an open run",
        plan: SHORT,
        text: "",
        verdict: Verdict::YesOpen,
    },
    Said {
        shows: "one line is an open run",
        plan: SHORT,
        text: "0 c pm_call: delay 5\n",
        verdict: Verdict::YesOpen,
    },
    Said {
        shows: "all lines are a finished run",
        plan: SHORT,
        text: "0 c pm_call: delay 5
5 c pm_ret: delay 0
5 c pm_call: mark_last_busy a
5 c pm_ret: mark_last_busy a 0
",
        verdict: Verdict::YesFinished,
    },
    Said {
        shows: "a last line without its newline is cut",
        plan: SHORT,
        text: "0 c pm_call: delay 5\n5 c pm_ret: delay 0",
        verdict: no!(2, Cut),
    },
    Said {
        shows: "two blanks for one are no text",
        plan: SHORT,
        text: "0  c pm_call: delay 5\n",
        verdict: no!(1, Text),
    },
    Said {
        shows: "a name padded with a zero is no text",
        plan: SHORT,
        text: "0 c\0 pm_call: delay 5\n",
        verdict: no!(1, Text),
    },
    Said {
        shows: "a carriage return is no text",
        plan: SHORT,
        text: "0 c pm_call: delay 5\r\n5 c pm_ret: delay 0\n",
        verdict: no!(1, Text),
    },
    Said {
        shows: "the first of two bad lines is told",
        plan: SHORT,
        text: "0 c pm_call: delay 5
5 c pm_ret: delay 0
5 c pm_ret: delay 0
x
",
        verdict: no!(3, Step),
    },
    Said {
        shows: "an empty line is no text",
        plan: SHORT,
        text: "0 c pm_call: delay 5

",
        verdict: no!(2, Text),
    },
    Said {
        shows: "a line more than the plan allows passes its limit",
        plan: SHORT,
        text: "0 c pm_call: delay 5
5 c pm_ret: delay 0
5 c pm_call: mark_last_busy a
5 c pm_ret: mark_last_busy a 0
6 c pm_call: delay 5
",
        verdict: no!(5, Limit),
    },
    Said {
        shows: "behind the last line that is allowed a line may be no text",
        plan: SHORT,
        text: "0 c pm_call: delay 5
5 c pm_ret: delay 0
5 c pm_call: mark_last_busy a
5 c pm_ret: mark_last_busy a 0
x
",
        verdict: no!(5, Text),
    },
    Said {
        shows: "behind the last line that is allowed a line may be cut",
        plan: SHORT,
        text: "0 c pm_call: delay 5
5 c pm_ret: delay 0
5 c pm_call: mark_last_busy a
5 c pm_ret: mark_last_busy a 0
x",
        verdict: no!(5, Cut),
    },
    Said {
        shows: "a call that the script hasn't is no step",
        plan: SHORT,
        text: "0 c pm_call: delay 6\n",
        verdict: no!(1, Step),
    },
    Said {
        shows: "a line too early is told before one that is cut",
        plan: SHORT,
        text: "0 c pm_call: delay 5
4 c pm_ret: delay 0
x",
        verdict: no!(2, Time),
    },
    Said {
        shows: "a time that goes back is told",
        plan: SHORT,
        text: "0 c pm_call: delay 5
5 c pm_ret: delay 0
4 c pm_call: mark_last_busy a
",
        verdict: no!(3, Time),
    },
    Said {
        shows: "a header without its newline is cut",
        plan: SHORT,
        text: "pm_trace 2",
        verdict: no!(1, Cut),
    },
    Said {
        shows: "a header alone is an open run",
        plan: SHORT,
        text: "pm_trace 2\n",
        verdict: Verdict::YesOpen,
    },
    Said {
        shows: "in format 2 all lines are a finished run",
        plan: SHORT,
        text: "pm_trace 2
0 c pm_call: delay 5
5 c pm_ret: delay 0
0 c pm_call: mark_last_busy a
0 c pm_ret: mark_last_busy a 0
",
        verdict: Verdict::YesFinished,
    },
    Said {
        shows: "in format 2 the header isn't counted",
        plan: SHORT,
        text: "pm_trace 2
0 c pm_call: delay 5
5 c pm_ret",
        verdict: no!(2, Cut),
    },
    Said {
        shows: "a second header is no text",
        plan: SHORT,
        text: "pm_trace 2
pm_trace 2
",
        verdict: no!(1, Text),
    },
    Said {
        shows: "in format 2 a line more than the plan allows passes its limit",
        plan: SHORT,
        text: "pm_trace 2
0 c pm_call: delay 5
5 c pm_ret: delay 0
0 c pm_call: mark_last_busy a
0 c pm_ret: mark_last_busy a 0
1 c pm_call: delay 5
",
        verdict: no!(5, Limit),
    },
    Said {
        shows: "in format 2 a line out of its turn is no step",
        plan: SHORT,
        text: "pm_trace 2
0 c pm_ret: delay 0
",
        verdict: no!(1, Step),
    },
    Said {
        shows: "in format 2 a line too early is told",
        plan: SHORT,
        text: "pm_trace 2
1 c pm_call: delay 5
4 c pm_ret: delay 0
",
        verdict: no!(2, Time),
    },
    Said {
        shows: "in format 2 a time of 2^63 is no text",
        plan: SHORT,
        text: "pm_trace 2
9223372036854775807 c pm_call: delay 5
1 c pm_ret: delay 0
",
        verdict: no!(2, Text),
    },
    Said {
        shows: "a resume and its end are a finished run",
        plan: WORKED,
        text: "0 c pm_call: enable a
0 c pm_ret: enable a 0
0 c pm_call: get_sync a
0 c pm_get: a caller
0 c rpm_resume: a flags-4 cnt-1  dep-0  auto-1 p-0 irq-0 child-0
0 c pm_status: a resuming
0 c pm_callback: a resume begin
0 c pm_callback: a resume end 0
0 c pm_status: a active
0 c rpm_idle: a flags-1 cnt-1  dep-0  auto-1 p-0 irq-0 child-0
0 c rpm_return_int: rpm_idle:a ret=-11
0 c rpm_return_int: rpm_resume:a ret=0
0 c pm_ret: get_sync a 0
0 c pm_call: put_noidle a
0 c pm_put: a caller
0 c pm_ret: put_noidle a 0
",
        verdict: Verdict::YesFinished,
    },
    Said {
        shows: "a count that the run hasn't is no step",
        plan: WORKED,
        text: "0 c pm_call: enable a
0 c pm_ret: enable a 0
0 c pm_call: get_sync a
0 c pm_get: a caller
0 c rpm_resume: a flags-4 cnt-2  dep-0  auto-1 p-0 irq-0 child-0
",
        verdict: no!(5, Step),
    },
    Said {
        shows: "one blank for two is no text",
        plan: WORKED,
        text: "0 c pm_call: enable a
0 c pm_ret: enable a 0
0 c pm_call: get_sync a
0 c pm_get: a caller
0 c rpm_resume: a flags-4 cnt-1 dep-0  auto-1 p-0 irq-0 child-0
",
        verdict: no!(5, Text),
    },
    Said {
        shows: "half of a line is cut",
        plan: WORKED,
        text: "0 c pm_call: enable a
0 c pm_ret: enable a 0
0 c pm_call: get_sync a
0 c pm_get: a caller
0 c rpm_resume: a flags-4",
        verdict: no!(5, Cut),
    },
    Said {
        shows: "193 digits are cut",
        plan: SHORT,
        text: "0000000000000000000000000000000000000000000000000000000000000000000000000000000000000000000000000000000000000000000000000000000000000000000000000000000000000000000000000000000000000000000000000",
        verdict: no!(1, Cut),
    },
    Said {
        shows: "193 digits and a newline are no text",
        plan: SHORT,
        text: "0000000000000000000000000000000000000000000000000000000000000000000000000000000000000000000000000000000000000000000000000000000000000000000000000000000000000000000000000000000000000000000000000\n",
        verdict: no!(1, Text),
    },
];

/// Whole traces, and such as are changed or cut.
pub static STORED: [StoredSaid; 8] = [
    StoredSaid {
        plan: "parents.toml",
        trace: "parents.trace",
        verdict: Verdict::YesFinished,
    },
    StoredSaid {
        plan: "parents.toml",
        trace: "parents_swapped.trace",
        verdict: no!(21, Step),
    },
    StoredSaid {
        plan: "parents.toml",
        trace: "parents_cut.trace",
        verdict: no!(41, Cut),
    },
    StoredSaid {
        plan: "parents.toml",
        trace: "parents_open.trace",
        verdict: Verdict::YesOpen,
    },
    StoredSaid {
        plan: "resumed.toml",
        trace: "resumed_other_count.trace",
        verdict: no!(5, Step),
    },
    StoredSaid {
        plan: "resumed.toml",
        trace: "resumed_one_space.trace",
        verdict: no!(5, Text),
    },
    StoredSaid {
        plan: "deferred_resume.toml",
        trace: "deferred_resume.trace",
        verdict: Verdict::YesFinished,
    },
    StoredSaid {
        plan: "deferred_resume.toml",
        trace: "deferred_resume_early.trace",
        verdict: no!(25, Time),
    },
];

/// Feeds the text in pieces of this length.
fn feed<T: LineTaker>(auditor: &mut Auditor<T>, text: &[u8], len: usize)
    requires { 0 < len }
{
    for piece in text.chunks(len) {
        auditor.feed(piece);
    }
}

/// What is said of a text that is fed in pieces of this length, where nothing is kept of it.
fn said_of_pieces(alloc: Global, plan: &[u8], text: &[u8], len: usize) -> Result<Verdict, PlanFault>
    requires { 0 < len }
{
    match Auditor::new(alloc, read_plan(alloc, plan)?) {
        Ok(mut auditor) => {
            feed(&mut auditor, text, len);
            Ok(auditor.end())
        }
        Err((_plan, error)) => Err(error.into()),
    }
}

/// What is said of it where a book is made of it.
fn said_of_book(alloc: Global, plan: &[u8], text: &[u8], len: usize) -> Result<Verdict, PlanFault>
    requires { 0 < len }
{
    match Auditor::keeping(alloc, read_plan(alloc, plan)?) {
        Ok(mut auditor) => {
            feed(&mut auditor, text, len);
            said_of(auditor.book(alloc))
        }
        Err((_plan, error)) => Err(error.into()),
    }
}

/// What is said where this comes of a trace.
fn said_of(book: Result<Book, LoadFault>) -> Result<Verdict, PlanFault> {
    match book {
        Ok(book) => Ok(if book.finished() {
            Verdict::YesFinished
        } else {
            Verdict::YesOpen
        }),
        Err(LoadFault::No { line, why }) => Ok(Verdict::No { line, why }),
        Err(LoadFault::NoMemory) => Err(PlanFault::NoMemory),
    }
}

/// The same is said of a text in one piece, in pieces of 7 bytes and of one, and where a book is loaded.
fn is_said_of(
    alloc: Global,
    plan: &[u8],
    text: &[u8],
    verdict: Verdict,
) -> Result<bool, PlanFault> {
    for len in [text.len(), 7, 1] {
        let len = len.max(1);
        if said_of_pieces(alloc, plan, text, len)? != verdict
            || said_of_book(alloc, plan, text, len)? != verdict
        {
            return Ok(false);
        }
    }
    let loaded = said_of(load_trace(alloc, read_plan(alloc, plan)?, text))?;
    Ok(loaded == verdict)
}

/// Whether that is said of it.
pub fn is_said(alloc: Global, case: &Said) -> Result<bool, PlanFault> {
    is_said_of(alloc, case.plan, case.text.as_bytes(), case.verdict)
}

/// Whether that is said of a stored trace over its plan.
pub fn is_said_of_stored<F: Files>(
    alloc: Global,
    files: &mut F,
    case: &StoredSaid,
) -> Result<bool, Fault> {
    let plan = read_all(alloc, files, case.plan, PLAN_BYTES)?;
    let trace = read_all(alloc, files, case.trace, PLAN_BYTES)?;
    Ok(is_said_of(alloc, &plan, &trace, case.verdict)?)
}
