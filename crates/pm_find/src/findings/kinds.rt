//! The kinds of findings, one function for each.

ghost use Rattle.std.specs.Prelude.{◌≡◌, ◌&&◌, false, nat_eq, nat_lt, option_map, position, reverse, slice_get, true};
ghost use Rattle.std.specs.List.{list_any};
ghost use Rattle.std.specs.Option.{option_and_then, option_map_or};
ghost use Rattle.pm_find.specs.findings.OpenCounts.{is_of};
ghost use Rattle.pm_find.specs.findings.StandsOut.{answer, failed, forces_status, has_put, is_denied_of, is_poisoned, is_put, is_refusable, is_refused_put, is_settled, is_unmarked, is_used, keeps_count, kept, leak, never_on, no_count, poisoned, puts_for_autosuspend, refused, refused_put, refused_status, stolen, unmarked};
ghost use Rattle.pm_find.specs.findings.WatchTable.{given_at};
ghost use Rattle.pm_model.specs.Counted.{is_same};
ghost use Rattle.pm_model.specs.Derived.{is_active_status};

use crate::findings::Kind;
use crate::findings::codes::{asks_again, is_error};
use crate::findings::watch::Watch;
use crate::findings::watched::{Called, Count, Recent, Watched, count_at, is_actor};
use pm_base::{ActorId, DevId, EINVAL, Status, Why};
use pm_model::{Device, Event, Helper, Line};

// Whether one of these counts was taken in this line.
fn has_line(counts: &[Count], number: u32) -> bool
    ensures { result ≡ list_any (λ count. nat_eq count.line number) (reverse counts.now) }
{
    counts.iter().rev().any(|count| count.line == number)
}

// The count that this actor took since its last call, where it is open.
fn kept(row: &Watched, called: Option<Called>, actor: ActorId) -> Option<Count>
    ensures { result ≡ kept row.now.counts called actor }
{
    match called {
        Some(call) => latest_since(row.counts(), call.line, actor),
        None => None,
    }
}

// The latest of these counts that this actor took after a line.
fn latest_since(counts: &[Count], line: u32, actor: ActorId) -> Option<Count>
    ensures { result ≡ option_and_then (slice_get (reverse counts.now)) (position (λ count. is_of actor count && nat_lt line count.line) (reverse counts.now)) }
{
    match place_since(counts, line, actor) {
        Some(place) => count_at(counts, place),
        None => None,
    }
}

// Where the latest of these counts stands, counted from the newest, that this actor took after a line.
fn place_since(counts: &[Count], line: u32, actor: ActorId) -> Option<usize>
    ensures { result ≡ position (λ count. is_of actor count && nat_lt line count.line) (reverse counts.now) }
{
    counts
        .iter()
        .rev()
        .position(|count| is_actor(actor, count.actor) && count.line > line)
}

// Whether such a count is open.
fn keeps_count(row: &Watched, called: Option<Called>, actor: ActorId) -> bool
    ensures { result ≡ keeps_count row.now.counts called actor }
{
    kept(row, called, actor).is_some()
}

/// Whether a device of this status is on.
pub fn is_active(status: Status) -> bool
    ensures { result ≡ is_active_status status }
{
    matches!(status, Status::Active)
}

// Whether a count is open that was taken in this line.
fn is_left(row: &Watched, number: u32) -> bool
    ensures { result ≡ list_any (λ count. nat_eq count.line number) row.now.counts }
{
    has_line(row.counts(), number)
}

// The helper that was called.
fn helper_of(called: Option<Called>) -> Option<Helper>
    ensures { result ≡ option_map (λ call. call.helper) called }
{
    match called {
        Some(call) => Some(call.helper),
        None => None,
    }
}

/// A get of a caller whose count is among those that are left at the end.
pub fn leak(left: &Watched, number: u32, called: Option<Called>, line: &Line) -> Option<Kind>
    ensures { result ≡ leak left.now.counts number called line.now.actor line.now.event }
{
    let Event::Get {
        dev,
        why: Why::Caller,
    } = line.event
    else {
        return None;
    };
    if !is_left(left, number) {
        return None;
    }
    Some(Kind::Leak {
        actor: line.actor,
        dev,
        helper: helper_of(called),
    })
}

/// A put of a caller that takes away a count of another one.
pub fn stolen(row: &Watched, line: &Line) -> Option<Kind>
    ensures { result ≡ stolen row.now.counts line.now.actor line.now.event }
{
    let Event::Put {
        dev,
        why: Why::Caller,
    } = line.event
    else {
        return None;
    };
    let count = row.taken(line.actor)?;
    if is_actor(line.actor, count.actor) {
        return None;
    }
    Some(Kind::Stolen {
        actor: line.actor,
        dev,
        owner: count.actor,
        line: count.line,
    })
}

// Whether a call has put a count.
fn has_put(called: Option<Called>) -> bool
    ensures { result ≡ has_put called }
{
    match called {
        Some(call) => call.has_put,
        None => false,
    }
}

// Whether a stored error refuses a call of this helper.
fn is_refusable(helper: Helper, called: Option<Called>) -> bool
    ensures { result ≡ is_refusable helper called }
{
    match helper {
        Helper::GetSync
        | Helper::Get
        | Helper::Resume
        | Helper::RequestResume
        | Helper::Idle
        | Helper::RequestIdle
        | Helper::Suspend
        | Helper::Autosuspend
        | Helper::RequestAutosuspend
        | Helper::ScheduleSuspend => true,
        Helper::Put
        | Helper::PutSync
        | Helper::PutAutosuspend
        | Helper::PutSyncSuspend
        | Helper::PutSyncAutosuspend => has_put(called),
        _ => false,
    }
}

// Whether a call answers `EINVAL` since an error is stored in this line, or in none where that is 0.
fn is_poisoned(error: u32, called: Option<Called>, helper: Helper, code: i32) -> bool
    ensures { result ≡ is_poisoned error called helper code }
{
    code == EINVAL && error > 0 && is_refusable(helper, called)
}

/// A call that answers `EINVAL` since the device has an error.
pub fn poisoned(row: &Watched, called: Option<Called>, line: &Line) -> Option<Kind>
    ensures { result ≡ poisoned row.now.error row.now.counts called line.now.actor line.now.event }
{
    let Event::Ret { helper, dev, code } = line.event else {
        return None;
    };
    if !is_poisoned(row.error(), called, helper, code) {
        return None;
    }
    Some(Kind::Poisoned {
        actor: line.actor,
        helper,
        dev,
        line: row.error(),
        keeps: keeps_count(row, called, line.actor),
    })
}

// Whether a helper puts a count of a caller.
fn is_put(helper: Helper) -> bool
    ensures { result ≡ is_put helper }
{
    matches!(
        helper,
        Helper::Put
            | Helper::PutSync
            | Helper::PutNoidle
            | Helper::PutAutosuspend
            | Helper::PutSyncSuspend
            | Helper::PutSyncAutosuspend
    )
}

// Whether a put has no count to give back.
fn is_refused_put(called: Option<Called>, helper: Helper) -> bool
    ensures { result ≡ is_refused_put called helper }
{
    is_put(helper) && !has_put(called)
}

// Whether a callback of a device failed since this call.
fn has_failed_since(row: &Watched, called: Option<Called>) -> bool
    ensures { result ≡ option_map_or (λ call. nat_lt call.line row.now.failed) called false }
{
    match called {
        Some(call) => row.failed() > call.line,
        None => false,
    }
}

// Whether a call keeps no count, or one that is given back.
fn is_given_back(row: &Watched, ends: &Watch, called: Option<Called>, actor: ActorId) -> bool
    ensures { result ≡ option_map_or (λ count. given_at ends.now.given count.line) (kept row.now.counts called actor) true }
{
    match kept(row, called, actor) {
        Some(count) => ends.given(count.line),
        None => true,
    }
}

// Whether a call's error is its driver's own affair.
fn is_settled(
    row: &Watched,
    ends: &Watch,
    called: Option<Called>,
    actor: ActorId,
    helper: Helper,
) -> bool
    ensures { result ≡ is_settled row.now.failed row.now.counts (given_at ends.now.given) called actor helper }
{
    is_put(helper) || has_failed_since(row, called) && is_given_back(row, ends, called, actor)
}

/// A call that answers another error.
pub fn answer(row: &Watched, ends: &Watch, called: Option<Called>, line: &Line) -> Option<Kind>
    ensures { result ≡ answer row.now.error row.now.failed row.now.counts (given_at ends.now.given) called line.now.actor line.now.event }
{
    let Event::Ret { helper, dev, code } = line.event else {
        return None;
    };
    if !is_error(code)
        || is_poisoned(row.error(), called, helper, code)
        || is_refused_put(called, helper)
    {
        return None;
    }
    Some(Kind::Answer {
        actor: line.actor,
        helper,
        dev,
        code,
        keeps: keeps_count(row, called, line.actor),
        settled: is_settled(row, ends, called, line.actor, helper),
    })
}

// Whether two devices are the same.
fn is_device(one: DevId, other: DevId) -> bool
    ensures { result ≡ is_same one other }
{
    other.0 == one.0
}

// Whether the last get of a caller that takes a count only of a device that is on answered an error of this one.
fn is_denied_of(dev: DevId, called: Option<Called>) -> bool
    ensures { result ≡ is_denied_of dev called }
{
    match called {
        Some(call) => match call.recent.denied {
            Some(denied) => is_device(dev, denied),
            None => false,
        },
        None => false,
    }
}

/// A put that has no count to give back.
pub fn refused_put(called: Option<Called>, line: &Line) -> Option<Kind>
    ensures { result ≡ refused_put called line.now.actor line.now.event }
{
    let Event::Ret { helper, dev, code } = line.event else {
        return None;
    };
    if !is_refused_put(called, helper) {
        return None;
    }
    Some(Kind::RefusedPut {
        actor: line.actor,
        helper,
        dev,
        code,
        follows: is_denied_of(dev, called),
    })
}

// Whether a helper forces a status.
fn forces_status(helper: Helper) -> bool
    ensures { result ≡ forces_status helper }
{
    matches!(helper, Helper::SetActive | Helper::SetSuspended)
}

/// A call that is to be tried again.
pub fn refused(line: &Line) -> Option<Kind>
    ensures { result ≡ refused line.now.actor line.now.event }
{
    match line.event {
        Event::Ret { helper, dev, code } if asks_again(code) && !forces_status(helper) => {
            Some(Kind::Refused {
                actor: line.actor,
                helper,
                dev,
                code,
            })
        }
        _ => None,
    }
}

/// A call that forces a status and is to be tried again.
pub fn refused_status(line: &Line) -> Option<Kind>
    ensures { result ≡ refused_status line.now.actor line.now.event }
{
    match line.event {
        Event::Ret { helper, dev, code } if asks_again(code) && forces_status(helper) => {
            Some(Kind::RefusedStatus {
                actor: line.actor,
                helper,
                dev,
                code,
            })
        }
        _ => None,
    }
}

/// A get that took no count.
pub fn no_count(line: &Line) -> Option<Kind>
    ensures { result ≡ no_count line.now.actor line.now.event }
{
    match line.event {
        Event::Ret {
            helper: helper @ (Helper::GetIfActive | Helper::GetIfInUse),
            dev,
            code: 0,
        } => Some(Kind::NoCount {
            actor: line.actor,
            helper,
            dev,
        }),
        _ => None,
    }
}

/// A put of a count during which its device was never Active and its caller was told no error of the device.
pub fn never_on(row: &Watched, line: &Line) -> Option<Kind>
    ensures { result ≡ never_on row.now.counts row.now.status row.now.left line.now.actor line.now.event }
{
    let Event::Put {
        dev,
        why: Why::Caller,
    } = line.event
    else {
        return None;
    };
    let count = row.taken(line.actor)?;
    if !count.asks || is_active(row.status()) || row.left() > count.line || count.failed {
        return None;
    }
    Some(Kind::NeverOn {
        actor: line.actor,
        dev,
        line: count.line,
    })
}

// Whether a helper puts a count and asks for an autosuspend.
fn puts_for_autosuspend(helper: Helper) -> bool
    ensures { result ≡ puts_for_autosuspend helper }
{
    matches!(helper, Helper::PutAutosuspend | Helper::PutSyncAutosuspend)
}

// Whether a put of its last count at this time lets a device suspend once a delay has passed that counts from an
// earlier moment.
fn is_unmarked(device: &Device, time: u64) -> bool
    ensures { result ≡ is_unmarked device.now time }
{
    is_active(device.status)
        && device.depth == 0
        && device.usage == 1
        && device.use_auto
        && device.delay > 0
        && device.last_busy < time
}

// Whether a delay of the count's caller ended since the count was taken and since the device was last marked.
fn is_used(device: &Device, recent: Recent, count: Count) -> bool
    ensures { result ≡ is_used device.now recent count }
{
    recent.used > count.line && recent.until > device.last_busy
}

/// A put that asks for an autosuspend of a device that stands so, where the delay counts from an earlier moment, and the
/// device was used since.
pub fn unmarked(device: &Device, row: &Watched, called: Option<Called>, line: &Line) -> Option<Kind>
    ensures { result ≡ unmarked device.now row.now.counts called line.now.time line.now.actor line.now.event }
{
    let Event::Put {
        dev,
        why: Why::Caller,
    } = line.event
    else {
        return None;
    };
    let call = called?;
    let count = row.taken(line.actor)?;
    if !puts_for_autosuspend(call.helper)
        || !is_unmarked(device, line.time)
        || !is_used(device, call.recent, count)
    {
        return None;
    }
    Some(Kind::Unmarked {
        actor: line.actor,
        helper: call.helper,
        dev,
        ms: line.time.saturating_sub(device.last_busy),
        delay: device.delay.unsigned_abs(),
    })
}

/// A callback that failed.
pub fn failed(line: &Line) -> Option<Kind>
    ensures { result ≡ failed line.now.event }
{
    match line.event {
        Event::End { dev, cb, code } if code != 0 => Some(Kind::Failed { dev, cb, code }),
        _ => None,
    }
}
