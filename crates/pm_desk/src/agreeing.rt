//! Whether what a pass kept agrees with the calls that have returned.

ghost use Rattle.std.specs.Prelude.{◌≡◌, ◌≢◌, ◌↔◌, ◌<◌, ◌≤◌, IfNone, IfSome, IsTrue, length, option_map, slice_get};
ghost use Rattle.pm_desk.specs.Agreeing.{Agrees, AreSameBelow, DiffersAt, compared};
ghost use Rattle.pm_desk.specs.Slips.{are_apart, kept_by, pass_of, stopped_of};

use crate::pass::{Pass, Receipt, Stop};

/// The pass of a caller, where one was handed back.
pub fn pass_of(passes: &[Pass], caller: u32) -> Option<&Pass>
    ensures { option_map (λ pass. pass.now) result ≡ pass_of passes.now caller }
{
    let [pass, rest @ ..] = passes else {
        return None;
    };
    if pass.caller == caller {
        Some(pass)
    } else {
        pass_of(rest, caller)
    }
}

/// Whether each pass is of one of the first so many callers, and no two are the same caller's.
pub fn are_apart(passes: &[Pass], callers: usize) -> bool
    ensures { result ≡ are_apart callers passes.now }
{
    let [pass, rest @ ..] = passes else {
        return true;
    };
    (pass.caller as usize) < callers
        && pass_of(rest, pass.caller).is_none()
        && are_apart(rest, callers)
}

/// The receipts of a caller's pass; none where none was handed back.
pub fn kept_by(passes: &[Pass], caller: u32) -> &[Receipt]
    ensures { result.now ≡ kept_by (pass_of passes.now caller) }
{
    match pass_of(passes, caller) {
        Some(pass) => pass.receipts(),
        None => &[],
    }
}

/// Why a call by a caller's pass was stopped; `None` where none was, or no pass was handed back.
pub fn stopped_of(passes: &[Pass], caller: u32) -> Option<Stop>
    ensures { result ≡ stopped_of (pass_of passes.now caller) }
{
    match pass_of(passes, caller) {
        Some(pass) => pass.stopped(),
        None => None,
    }
}

/// The receipt at a place; `None` past the end.
pub fn receipt_at(receipts: &[Receipt], place: usize) -> Option<Receipt>
    ensures { result ≡ slice_get receipts.now place }
{
    receipts.get(place).copied()
}

// Whether the two are equal.
fn is_same_code(one: &i32, other: &i32) -> bool
    ensures { IsTrue result ↔ (one.now ≡ other.now) }
{
    one == other
}

// Whether the two are equal.
fn is_same(one: Receipt, other: Receipt) -> bool
    ensures { IsTrue result ↔ (one ≡ other) }
{
    one.command == other.command && is_same_code(&one.code, &other.code)
}

// Whether the two are equal.
fn are_same(one: Option<Receipt>, other: Option<Receipt>) -> bool
    ensures { IsTrue result ↔ (one ≡ other) }
{
    match one {
        Some(one) => match other {
            Some(other) => is_same(one, other),
            None => false,
        },
        None => other.is_none(),
    }
}

// The first place below this one at which two lists differ.
fn differs_below(kept: &[Receipt], found: &[Receipt], most: usize) -> Option<usize>
    ensures none { IfNone result (AreSameBelow kept.now found.now most) }
    ensures below { IfSome result (λ place. place < most) }
    ensures before { IfSome result (AreSameBelow kept.now found.now) }
    ensures differs { IfSome result (λ place. slice_get kept.now place ≢ slice_get found.now place) }
{
    for place in 0..most {
        if !are_same(receipt_at(kept, place), receipt_at(found, place)) {
            return Some(place);
        }
    }
    None
}

// How many places are compared of so many receipts and so many calls: where a call was stopped those of the
// receipts alone, since more calls may have returned, and else all.
fn compared(stopped: Option<Stop>, kept: usize, found: usize) -> usize
    ensures { result ≡ compared stopped kept found }
{
    match stopped {
        Some(_) => kept,
        None => kept.max(found),
    }
}

/// The first place, counted from 0, at which the receipts of a caller and its calls that have returned
/// differ, where they don't agree.
pub fn disagrees_at(passes: &[Pass], caller: u32, found: &[Receipt]) -> Option<usize>
    ensures agrees { IfNone result (Agrees (pass_of passes.now caller) found.now) }
    ensures differs { IfSome result (λ place. ¬ Agrees (pass_of passes.now caller) found.now) }
    ensures place { IfSome result (DiffersAt (kept_by (pass_of passes.now caller)) found.now) }
    ensures in_range { IfSome result (λ place. place ≤ length found.now) }
{
    let kept = kept_by(passes, caller);
    let most = compared(stopped_of(passes, caller), kept.len(), found.len());
    let place = differs_below(kept, found, most)?;
    Some(place)
}
