//! Reads whole lines of a trace.

ghost use Rattle.std.specs.Prelude.{◌≡◌, ◌++◌, List, ℕ, Some, [], true};
ghost use Rattle.pm_audit.specs.Auditing.{IsGood, IsRest, IsTaken, told_of};
ghost use Rattle.pm_model.specs.declared.event.Line.{Line as ALine};
ghost use Rattle.pm_model.specs.NoWhy.{is_within_line};

use crate::reader::Reader;
use crate::rest::Rest;
use crate::takers::LineTaker;

/// The line with which a trace of format 2 begins.
pub const HEADER: &[u8] = b"pm_trace 2";

/// Why a line is bad. The first that holds, in this order, is the reason.
#[derive(Clone, Copy, PartialEq, Eq)]
pub enum NoWhy {
    /// It lacks its newline.
    Cut,
    /// It is no line's text.
    Text,
    /// The plan has no room for it.
    Limit,
    /// At no time may the line come next.
    Step,
    /// It may at another time.
    Time,
}

/// The format of a trace.
#[derive(Clone, Copy)]
pub enum Format {
    /// No line has been read that tells it.
    Untold,
    One,
    Two,
}

// Whether it is format 2, where a line has told it.
pub(crate) fn told(format: Format) -> Option<bool>
    ensures { result ≡ told_of format }
{
    match format {
        Format::Untold => None,
        Format::One => Some(false),
        Format::Two => Some(true),
    }
}

// Takes one more whole line, without its newline, or says why it is bad.
fn take<T: LineTaker>(reader: &mut Reader<T>, format: &mut Format, text: &[u8]) -> Option<NoWhy>
    ensures taken { (whole : List ℕ) (h : List ALine) → is_within_line text.now ≡ true → IsGood T.StandsFor reader.old.judge.plan reader.old format.old whole h → IsTaken T.StandsFor reader.old.judge.plan whole h text.now format.new reader.new result }
    ensures plan { reader.new.judge.plan ≡ reader.old.judge.plan }
    ensures same { reader.new.subject ≡ reader.old.subject }
{
    match *format {
        Format::Untold => {
            if text == HEADER {
                *format = Format::Two;
                return None;
            }
            *format = Format::One;
            reader.read(false, text)
        }
        Format::One => reader.read(false, text),
        Format::Two => reader.read(true, text),
    }
}

// Takes a whole line that is the rest, or says why it is bad.
fn take_rest<T: LineTaker>(
    reader: &mut Reader<T>,
    format: &mut Format,
    rest: &Rest,
) -> Option<NoWhy>
    ensures taken { (whole line : List ℕ) (h : List ALine) → IsRest rest.now line → is_within_line line ≡ true → IsGood T.StandsFor reader.old.judge.plan reader.old format.old whole h
        → IsTaken T.StandsFor reader.old.judge.plan whole h line format.new reader.new result }
    ensures plan { reader.new.judge.plan ≡ reader.old.judge.plan }
    ensures same { reader.new.subject ≡ reader.old.subject }
{
    match rest.bytes() {
        Some(text) => take(reader, format, text),
        None => Some(NoWhy::Text),
    }
}

/// Takes the whole line that the rest begins and this piece ends, or says why it is bad. Nothing is left of
/// the rest.
pub(crate) fn end_line<T: LineTaker>(
    reader: &mut Reader<T>,
    format: &mut Format,
    rest: &mut Rest,
    piece: &[u8],
) -> Option<NoWhy>
    requires { is_within_line piece.now ≡ true }
    ensures taken { (whole begun : List ℕ) (h : List ALine) → IsRest rest.old begun → is_within_line begun ≡ true → IsGood T.StandsFor reader.old.judge.plan reader.old format.old whole h
        → IsTaken T.StandsFor reader.old.judge.plan whole h (begun ++ piece.now) format.new reader.new result }
    ensures rest { rest.new ≡ Some [] }
    ensures plan { reader.new.judge.plan ≡ reader.old.judge.plan }
    ensures same { reader.new.subject ≡ reader.old.subject }
{
    if rest.is_empty() {
        return take(reader, format, piece);
    }
    rest.push(piece);
    let bad = take_rest(reader, format, rest);
    rest.clear();
    bad
}
