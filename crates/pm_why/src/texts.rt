//! The text of a reason.

ghost use Rattle.std.specs.Prelude.{◌≡◌, ◌+◌, ◌≤◌, ◌++◌, codes, decimal, length};
ghost use Rattle.pm_model.specs.Spelling.{why_text};
ghost use Rattle.pm_model.specs.Text.{names_of};
ghost use Rattle.pm_linetext.specs.declared.short.TheConstants.{SHORT_BYTES};
ghost use Rattle.pm_why.specs.Texts.{free_line, reason_line, reason_text, status_text};

use crate::Reason;
use pm_base::{Status, Why};
use pm_linetext::ShortText;
use pm_model::Plan;

/// Appends the number of a line.
fn push_line(text: &mut ShortText, line: u32)
    requires { length text.old + 26 ≤ SHORT_BYTES }
    ensures value { text.new ≡ text.old ++ codes " line " ++ decimal line }
    ensures len { length text.new ≤ length text.old + 26 }
{
    text.push(b" line ");
    text.push_number(u64::from(line));
}

/// Appends for what a count was taken.
fn push_why(text: &mut ShortText, plan: &Plan, why: Why)
    requires { length text.old + 38 ≤ SHORT_BYTES }
    ensures value { text.new ≡ text.old ++ why_text (names_of plan.now) why }
    ensures len { length text.new ≤ length text.old + 38 }
{
    match why {
        Why::Caller => text.push(b"caller"),
        Why::Control => text.push(b"control"),
        Why::Forbid => text.push(b"forbid"),
        Why::Delay => text.push(b"delay"),
        Why::Child(child) => {
            text.push(b"child ");
            text.push_device(plan, child);
        }
        Why::Link(consumer) => {
            text.push(b"link ");
            text.push_device(plan, consumer);
        }
    }
}

/// The word of a status.
fn status_text(status: Status) -> &'static [u8]
    ensures word { result.now ≡ status_text status }
    ensures short { length result.now ≤ 10 }
{
    match status {
        Status::Active => b"active",
        Status::Suspended => b"suspended",
        Status::Suspending => b"suspending",
        Status::Resuming => b"resuming",
    }
}

/// The text of a reason, without its newline.
fn spelled(plan: &Plan, reason: &Reason) -> ShortText
    ensures value { result ≡ reason_text (names_of plan.now) reason.now }
    ensures len { length result + 1 ≤ SHORT_BYTES }
{
    let mut text = ShortText::new();
    match *reason {
        Reason::Error { code, line } => {
            text.push(b"error ");
            text.push_code(code);
            push_line(&mut text, line);
        }
        Reason::Depth(depth) => {
            text.push(b"depth ");
            text.push_number(u64::from(depth));
        }
        Reason::Count { why, line } => {
            text.push(b"count ");
            push_why(&mut text, plan, why);
            push_line(&mut text, line);
        }
        Reason::Child(child) => {
            text.push(b"child ");
            text.push_device(plan, child);
        }
        Reason::Deferred => text.push(b"deferred"),
        Reason::Request => text.push(b"request resume"),
        Reason::State(status) => {
            text.push(b"status ");
            text.push(status_text(status));
        }
    }
    text
}

/// The line of a reason, as `count caller line 4`, with its newline. It takes no memory.
pub fn reason_text(plan: &Plan, reason: &Reason) -> ShortText
    ensures { result ≡ reason_line (names_of plan.now) reason.now }
{
    let mut text = spelled(plan, reason);
    text.push(b"\n");
    text
}

/// The line where there is no reason: `free`, with its newline. It takes no memory.
pub fn free_text() -> ShortText
    ensures { result ≡ free_line }
{
    let mut text = ShortText::new();
    text.push(b"free\n");
    text
}
