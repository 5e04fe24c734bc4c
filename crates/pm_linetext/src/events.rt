//! The text of an event, and of a line.

ghost use Rattle.std.specs.Prelude.{◌≡◌, ◌++◌, codes, if◌then◌else◌, take};
ghost use Rattle.pm_model.specs.Spelling.{cb_word, command_text, device_name, device_part, event_text};
ghost use Rattle.pm_model.specs.Spelling.{helper_word, kind_word, line_text, operand_part, payload, req_word};
ghost use Rattle.pm_model.specs.Spelling.{space, status_word, timer_text, why_text, work_text};
ghost use Rattle.pm_linetext.specs.Room.{HasRoom};

use crate::fields::put_fields;
use crate::names::NameSource;
use crate::pieces::{
    put, put_actor, put_bytes, put_device, put_name, put_number, put_signed, put_why,
};
use crate::text::LineBytes;
use crate::words::{helper_place, operand_of, takes_device};
use pm_base::{Cb, DevId, Req, Why};
use pm_model::{Command, Event, Fields, Helper, Line, Operand, TimerAct, Word, WorkAct};
use pm_names::helpers;

/// Puts the word of a callback.
#[inline(always)]
fn put_cb(bytes: &mut LineBytes, at: usize, cb: Cb) -> usize
    requires { HasRoom (take at bytes.old) (cb_word cb) }
    ensures { take result bytes.new ≡ take at bytes.old ++ cb_word cb }
{
    match cb {
        Cb::Idle => put(bytes, at, b"idle"),
        Cb::Suspend => put(bytes, at, b"suspend"),
        Cb::Resume => put(bytes, at, b"resume"),
    }
}

/// Puts the word of a request.
#[inline(always)]
fn put_req(bytes: &mut LineBytes, at: usize, req: Req) -> usize
    requires { HasRoom (take at bytes.old) (req_word req) }
    ensures { take result bytes.new ≡ take at bytes.old ++ req_word req }
{
    match req {
        Req::Nothing => put(bytes, at, b"none"),
        Req::Idle => put(bytes, at, b"idle"),
        Req::Suspend => put(bytes, at, b"suspend"),
        Req::Autosuspend => put(bytes, at, b"autosuspend"),
        Req::Resume => put(bytes, at, b"resume"),
    }
}

/// Puts the word of a change of status.
#[inline(always)]
fn put_status(bytes: &mut LineBytes, at: usize, word: Word) -> usize
    requires { HasRoom (take at bytes.old) (status_word word) }
    ensures { take result bytes.new ≡ take at bytes.old ++ status_word word }
{
    match word {
        Word::Active => put(bytes, at, b"active"),
        Word::Resuming => put(bytes, at, b"resuming"),
        Word::Suspended => put(bytes, at, b"suspended"),
        Word::Deferred => put(bytes, at, b"deferred"),
        Word::ForcedActive => put(bytes, at, b"forced_active"),
        Word::ForcedSuspended => put(bytes, at, b"forced_suspended"),
    }
}

/// Puts the kind of a timer.
fn put_kind(bytes: &mut LineBytes, at: usize, autosuspends: bool) -> usize
    requires { HasRoom (take at bytes.old) (kind_word autosuspends) }
    ensures { take result bytes.new ≡ take at bytes.old ++ kind_word autosuspends }
{
    if autosuspends {
        put(bytes, at, b"auto")
    } else {
        put(bytes, at, b"plain")
    }
}

/// Puts a helper and its device.
#[inline(always)]
fn put_called<S: NameSource>(
    bytes: &mut LineBytes,
    at: usize,
    names: &S,
    helper: Helper,
    dev: DevId,
) -> usize
    requires { HasRoom (take at bytes.old) (helper_word helper ++ device_part (S.names names.now) helper dev) }
    ensures { take result bytes.new ≡ take at bytes.old
        ++ (helper_word helper ++ device_part (S.names names.now) helper dev) }
{
    let at = put_bytes(bytes, at, helpers().name_of(helper_place(helper)));
    if takes_device(helper) {
        put_device(bytes, at, names, b" ", dev)
    } else {
        at
    }
}

/// Puts what a helper takes besides its device.
fn put_operand<S: NameSource>(
    bytes: &mut LineBytes,
    at: usize,
    names: &S,
    operand: Operand,
    number: i64,
) -> usize
    requires { HasRoom (take at bytes.old) (operand_part (S.names names.now) operand number) }
    ensures { take result bytes.new ≡ take at bytes.old ++ operand_part (S.names names.now) operand number }
{
    match operand {
        Operand::Nothing => at,
        Operand::Milliseconds => {
            let at = put(bytes, at, b" ");
            put_signed(bytes, at, number)
        }
        Operand::Switch => {
            if number == 0 {
                put(bytes, at, b" off")
            } else {
                put(bytes, at, b" on")
            }
        }
        Operand::Supplier => put_name(bytes, at, names, b" ", number.unsigned_abs() as usize),
    }
}

/// Puts a command.
fn put_command<S: NameSource>(
    bytes: &mut LineBytes,
    at: usize,
    names: &S,
    command: &Command,
) -> usize
    requires { HasRoom (take at bytes.old) (command_text (S.names names.now) command.now) }
    ensures { take result bytes.new ≡ take at bytes.old ++ command_text (S.names names.now) command.now }
{
    let at = put_called(bytes, at, names, command.helper, command.dev);
    put_operand(bytes, at, names, operand_of(command.helper), command.number)
}

/// Puts an event with a payload, behind the lead that names it. It stands out of line, since `put_event` would be too
/// large with it four times inside: a hint that would make a function very large is dropped.
#[inline(never)]
fn put_payload<S: NameSource, const N: usize>(
    bytes: &mut LineBytes,
    at: usize,
    names: &S,
    lead: &[u8; N],
    dev: DevId,
    fields: &Fields,
) -> usize
    requires { HasRoom (take at bytes.old) (lead.now ++ payload (S.names names.now) dev fields.now) }
    ensures { take result bytes.new ≡ take at bytes.old
        ++ (lead.now ++ payload (S.names names.now) dev fields.now) }
{
    let at = put_device(bytes, at, names, lead, dev);
    put_fields(bytes, at, fields)
}

/// Puts what a work item's line tells.
#[inline(never)]
fn put_work(bytes: &mut LineBytes, at: usize, act: WorkAct) -> usize
    requires { HasRoom (take at bytes.old) (work_text act) }
    ensures { take result bytes.new ≡ take at bytes.old ++ work_text act }
{
    match act {
        WorkAct::Queue(req) => {
            let at = put(bytes, at, b"queue ");
            put_req(bytes, at, req)
        }
        WorkAct::Defer => put(bytes, at, b"defer"),
        WorkAct::Run(req) => {
            let at = put(bytes, at, b"run ");
            put_req(bytes, at, req)
        }
    }
}

/// Puts what a timer's line tells.
#[inline(never)]
fn put_timer(bytes: &mut LineBytes, at: usize, act: TimerAct) -> usize
    requires { HasRoom (take at bytes.old) (timer_text act) }
    ensures { take result bytes.new ≡ take at bytes.old ++ timer_text act }
{
    match act {
        TimerAct::Arm {
            at: moment,
            autosuspends,
        } => {
            let at = put(bytes, at, b"arm ");
            let at = put_number(bytes, at, moment);
            let at = put(bytes, at, b" ");
            put_kind(bytes, at, autosuspends)
        }
        TimerAct::Fire { autosuspends } => {
            let at = put(bytes, at, b"fire ");
            put_kind(bytes, at, autosuspends)
        }
    }
}

/// Puts an event that moves a usage count, behind the lead that names it.
#[inline(always)]
fn put_move<S: NameSource, const N: usize>(
    bytes: &mut LineBytes,
    at: usize,
    names: &S,
    lead: &[u8; N],
    dev: DevId,
    why: Why,
) -> usize
    requires { HasRoom (take at bytes.old)
        (lead.now ++ device_name (S.names names.now) dev.0 ++ space ++ why_text (S.names names.now) why) }
    ensures { take result bytes.new ≡ take at bytes.old
        ++ (lead.now ++ device_name (S.names names.now) dev.0 ++ space ++ why_text (S.names names.now) why) }
{
    let at = put_device(bytes, at, names, lead, dev);
    let at = put(bytes, at, b" ");
    put_why(bytes, at, names, why)
}

/// Puts the call of a helper.
#[inline(never)]
fn put_call<S: NameSource>(bytes: &mut LineBytes, at: usize, names: &S, command: &Command) -> usize
    requires { HasRoom (take at bytes.old) (event_text (S.names names.now) (Event.Call command.now)) }
    ensures { take result bytes.new ≡ take at bytes.old
        ++ event_text (S.names names.now) (Event.Call command.now) }
{
    let at = put(bytes, at, b"pm_call: ");
    put_command(bytes, at, names, command)
}

/// Puts the return of a helper.
#[inline(never)]
fn put_ret<S: NameSource>(
    bytes: &mut LineBytes,
    at: usize,
    names: &S,
    helper: Helper,
    dev: DevId,
    code: i32,
) -> usize
    requires { HasRoom (take at bytes.old) (event_text (S.names names.now) (Event.Ret helper dev code)) }
    ensures { take result bytes.new ≡ take at bytes.old
        ++ event_text (S.names names.now) (Event.Ret helper dev code) }
{
    let at = put(bytes, at, b"pm_ret: ");
    let at = put_called(bytes, at, names, helper, dev);
    let at = put(bytes, at, b" ");
    put_signed(bytes, at, code as i64)
}

/// Puts the return of one of the kernel's inner functions.
#[inline(always)]
fn put_return<S: NameSource>(
    bytes: &mut LineBytes,
    at: usize,
    names: &S,
    func: Cb,
    dev: DevId,
    code: i32,
) -> usize
    requires { HasRoom (take at bytes.old) (event_text (S.names names.now) (Event.Return func dev code)) }
    ensures { take result bytes.new ≡ take at bytes.old
        ++ event_text (S.names names.now) (Event.Return func dev code) }
{
    let at = put(bytes, at, b"rpm_return_int: rpm_");
    let at = put_cb(bytes, at, func);
    let at = put_device(bytes, at, names, b":", dev);
    let at = put(bytes, at, b" ret=");
    put_signed(bytes, at, code as i64)
}

/// Puts a change of status.
#[inline(always)]
fn put_state<S: NameSource>(
    bytes: &mut LineBytes,
    at: usize,
    names: &S,
    dev: DevId,
    word: Word,
) -> usize
    requires { HasRoom (take at bytes.old) (event_text (S.names names.now) (Event.State dev word)) }
    ensures { take result bytes.new ≡ take at bytes.old
        ++ event_text (S.names names.now) (Event.State dev word) }
{
    let at = put_device(bytes, at, names, b"pm_status: ", dev);
    let at = put(bytes, at, b" ");
    put_status(bytes, at, word)
}

/// Puts a callback of a device.
#[inline(always)]
fn put_callback<S: NameSource>(
    bytes: &mut LineBytes,
    at: usize,
    names: &S,
    dev: DevId,
    cb: Cb,
) -> usize
    requires { HasRoom (take at bytes.old)
        (codes "pm_callback: " ++ device_name (S.names names.now) dev.0 ++ space ++ cb_word cb) }
    ensures { take result bytes.new ≡ take at bytes.old
        ++ (codes "pm_callback: " ++ device_name (S.names names.now) dev.0 ++ space ++ cb_word cb) }
{
    let at = put_device(bytes, at, names, b"pm_callback: ", dev);
    let at = put(bytes, at, b" ");
    put_cb(bytes, at, cb)
}

/// Puts the begin of a callback.
#[inline(always)]
fn put_begin<S: NameSource>(
    bytes: &mut LineBytes,
    at: usize,
    names: &S,
    dev: DevId,
    cb: Cb,
) -> usize
    requires { HasRoom (take at bytes.old) (event_text (S.names names.now) (Event.Begin dev cb)) }
    ensures { take result bytes.new ≡ take at bytes.old ++ event_text (S.names names.now) (Event.Begin dev cb) }
{
    let at = put_callback(bytes, at, names, dev, cb);
    put(bytes, at, b" begin")
}

/// Puts the end of a callback.
#[inline(always)]
fn put_end<S: NameSource>(
    bytes: &mut LineBytes,
    at: usize,
    names: &S,
    dev: DevId,
    cb: Cb,
    code: i32,
) -> usize
    requires { HasRoom (take at bytes.old) (event_text (S.names names.now) (Event.End dev cb code)) }
    ensures { take result bytes.new ≡ take at bytes.old
        ++ event_text (S.names names.now) (Event.End dev cb code) }
{
    let at = put_callback(bytes, at, names, dev, cb);
    let at = put(bytes, at, b" end ");
    put_signed(bytes, at, code as i64)
}

/// Puts which way power domains are switched.
fn put_way(bytes: &mut LineBytes, at: usize, up: bool) -> usize
    requires { HasRoom (take at bytes.old) (if up then codes " up " else codes " down ") }
    ensures { take result bytes.new ≡ take at bytes.old ++ (if up then codes " up " else codes " down ") }
{
    if up {
        put(bytes, at, b" up ")
    } else {
        put(bytes, at, b" down ")
    }
}

/// Puts a switch of power domains.
fn put_domain<S: NameSource>(
    bytes: &mut LineBytes,
    at: usize,
    names: &S,
    dev: DevId,
    up: bool,
    count: u32,
) -> usize
    requires { HasRoom (take at bytes.old) (event_text (S.names names.now) (Event.Domain dev up count)) }
    ensures { take result bytes.new ≡ take at bytes.old
        ++ event_text (S.names names.now) (Event.Domain dev up count) }
{
    let at = put_device(bytes, at, names, b"pm_domain: ", dev);
    let at = put_way(bytes, at, up);
    put_number(bytes, at, count as u64)
}

/// Puts an event.
#[inline(always)]
pub(crate) fn put_event<S: NameSource>(
    bytes: &mut LineBytes,
    at: usize,
    names: &S,
    event: &Event,
) -> usize
    requires { HasRoom (take at bytes.old) (event_text (S.names names.now) event.now) }
    ensures { take result bytes.new ≡ take at bytes.old ++ event_text (S.names names.now) event.now }
{
    match event {
        Event::Call { command } => put_call(bytes, at, names, command),
        Event::Ret { helper, dev, code } => put_ret(bytes, at, names, *helper, *dev, *code),
        Event::Get { dev, why } => put_move(bytes, at, names, b"pm_get: ", *dev, *why),
        Event::Put { dev, why } => put_move(bytes, at, names, b"pm_put: ", *dev, *why),
        Event::Usage { dev, fields } => put_payload(bytes, at, names, b"rpm_usage: ", *dev, fields),
        Event::Idle { dev, fields } => put_payload(bytes, at, names, b"rpm_idle: ", *dev, fields),
        Event::Suspend { dev, fields } => {
            put_payload(bytes, at, names, b"rpm_suspend: ", *dev, fields)
        }
        Event::Resume { dev, fields } => {
            put_payload(bytes, at, names, b"rpm_resume: ", *dev, fields)
        }
        Event::Return { func, dev, code } => put_return(bytes, at, names, *func, *dev, *code),
        Event::Wait { dev } => put_device(bytes, at, names, b"pm_wait: ", *dev),
        Event::State { dev, word } => put_state(bytes, at, names, *dev, *word),
        Event::Begin { dev, cb } => put_begin(bytes, at, names, *dev, *cb),
        Event::End { dev, cb, code } => put_end(bytes, at, names, *dev, *cb, *code),
        Event::Domain { dev, up, count } => put_domain(bytes, at, names, *dev, *up, *count),
        Event::Work { dev, act } => {
            let at = put_device(bytes, at, names, b"pm_work: ", *dev);
            let at = put(bytes, at, b" ");
            put_work(bytes, at, *act)
        }
        Event::Timer { dev, act } => {
            let at = put_device(bytes, at, names, b"pm_timer: ", *dev);
            let at = put(bytes, at, b" ");
            put_timer(bytes, at, *act)
        }
    }
}

/// Puts a line in format 1.
pub(crate) fn put_line<S: NameSource>(
    bytes: &mut LineBytes,
    at: usize,
    names: &S,
    line: &Line,
) -> usize
    requires { HasRoom (take at bytes.old) (line_text (S.names names.now) line.now) }
    ensures { take result bytes.new ≡ take at bytes.old ++ line_text (S.names names.now) line.now }
{
    let at = put_number(bytes, at, line.time);
    let at = put(bytes, at, b" ");
    let at = put_actor(bytes, at, names, line.actor);
    let at = put(bytes, at, b" ");
    put_event(bytes, at, names, &line.event)
}
