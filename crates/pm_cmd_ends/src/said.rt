//! What is said of a trace.

ghost use Rattle.std.specs.Prelude.{◌≡◌, ◌≤◌, length};
ghost use Rattle.pm_audit.specs.Auditing.{reason_of, verdict_of};
ghost use Rattle.pm_linetext.specs.declared.short.TheConstants.{SHORT_BYTES};
ghost use Rattle.pm_cmd_ends.specs.Said.{no_line, verdict_line, why_word};

use pm_audit::{NoWhy, Verdict};
use pm_linetext::ShortText;

/// The line of a verdict, with its newline: `yes finished`, `yes open`, or that of `no_line`. It takes no
/// memory.
pub fn verdict_line(verdict: Verdict) -> ShortText
    ensures { result ≡ verdict_line (verdict_of verdict) }
{
    match verdict {
        Verdict::YesFinished => whole_line(b"yes finished\n"),
        Verdict::YesOpen => whole_line(b"yes open\n"),
        Verdict::No { line, why } => no_line(line, why),
    }
}

/// A line that needs no spelling.
fn whole_line(line: &[u8]) -> ShortText
    requires { length line.now ≤ SHORT_BYTES }
    ensures { result ≡ line.now }
{
    let mut text = ShortText::new();
    text.push(line);
    text
}

/// The line for a first bad line, with its newline: `no line 21 step`. It takes no memory.
pub fn no_line(line: u64, why: NoWhy) -> ShortText
    ensures { result ≡ no_line line (reason_of why) }
{
    let mut text = ShortText::new();
    text.push(b"no line ");
    text.push_number(line);
    text.push(b" ");
    text.push(why_word(why));
    text.push(b"\n");
    text
}

/// The word for why a line is bad.
fn why_word(why: NoWhy) -> &'static [u8]
    ensures word { result.now ≡ why_word (reason_of why) }
    ensures short { length result.now ≤ 5 }
{
    match why {
        NoWhy::Cut => b"cut",
        NoWhy::Text => b"text",
        NoWhy::Limit => b"limit",
        NoWhy::Step => b"step",
        NoWhy::Time => b"time",
    }
}
