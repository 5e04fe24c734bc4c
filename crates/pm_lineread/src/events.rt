//! The events of a line, each read to the end of the line.

ghost use Rattle.std.specs.Prelude.{◌≡◌, ℕ, true, codes, if◌then◌else◌};
ghost use Rattle.pm_model.specs.Spelling.{operand_of, takes_device};
ghost use Rattle.pm_model.specs.Text.{names_of};
ghost use Rattle.pm_linetext.specs.Words.{all_cbs, all_reqs, all_statuses};
ghost use Rattle.pm_names.specs.Words.{cb_words, event_words, req_words, status_words};
ghost use Rattle.pm_lineread.specs.Gives.{Gives};
ghost use Rattle.pm_lineread.specs.Kinds.{all_kinds};
ghost use Rattle.pm_lineread.specs.Pieces.{either_of, item_at, literal_at};
ghost use Rattle.pm_lineread.specs.Reading.{act_at, any_event_at, arm_at, bit_at, call_at, callback_at, child_at};
ghost use Rattle.pm_lineread.specs.Reading.{command_of, delay_at, delay_call_at, device_command_at, device_ret_at, domain_at};
ghost use Rattle.pm_lineread.specs.Reading.{end_at, event_at, event_of, fields_at, fire_at, get_at, helper_at, idle_at, link_at};
ghost use Rattle.pm_lineread.specs.Reading.{milliseconds_at, operand_at, padding, payload_at, put_at, queue_at, queued_at, ret_at, return_at};
ghost use Rattle.pm_lineread.specs.Reading.{resume_at, run_at, state_at, states_at, supplier_at, suspend_at, switch_at, switched_at, timer_at, timer_kind_at};
ghost use Rattle.pm_lineread.specs.Reading.{usage_at, wait_at, why_at, word_at, work_at};

use crate::finders::Finders;
use crate::kinds::{Kind, kind_at};
use crate::pieces::{
    Left, code, count, device, either, end, listed, literal, long, number, placed, word,
};
use pm_base::{Cb, DevId, Req, Why};
use pm_linetext::{cb_of, helper_of, operand_of, req_of, status_of, takes_device};
use pm_model::{Command, Event, Fields, Helper, Operand, Plan, TimerAct, Word, WorkAct};
use pm_names::{cb_words, events, helpers, req_words, status_words};

/// A helper, and what follows its word.
#[tactic(auto, unfolding(crate::specs::Reading::helper_at, crate::specs::Pieces::item_at))]
fn helper(bytes: &[u8]) -> Result<(Helper, &[u8]), Left>
    ensures { Gives (λ found. (found.0, found.1.now)) result (helper_at bytes.now) }
{
    let (place, rest) = placed(&helpers(), b' ', bytes)?;
    listed(helper_of(place), rest)
}

/// The supplier of a link, by its place.
#[tactic(auto, unfolding(crate::specs::Reading::supplier_at))]
fn supplier(plan: &Plan, by: Option<&Finders>, bytes: &[u8]) -> Result<i64, Left>
    ensures { result ≡ supplier_at (names_of plan.now) bytes.now }
{
    let (dev, rest) = device(plan, by, literal(b" ", bytes)?)?;
    end(i64::from(dev.0), rest)
}

/// A number of milliseconds.
#[tactic(auto, unfolding(crate::specs::Reading::milliseconds_at))]
fn milliseconds(bytes: &[u8]) -> Result<i64, Left>
    ensures { result ≡ milliseconds_at bytes.now }
{
    long(literal(b" ", bytes)?)
}

/// 0 for off and 1 for on.
#[tactic(auto, unfolding(crate::specs::Reading::switch_at))]
fn switch(bytes: &[u8]) -> Result<i64, Left>
    ensures { result ≡ switch_at bytes.now }
{
    either(word(b" off", 0, bytes), word(b" on", 1, bytes))
}

/// What a helper takes besides its device, as a number.
#[tactic(auto, unfolding(crate::specs::Reading::operand_at))]
fn operand(plan: &Plan, by: Option<&Finders>, operand: Operand, bytes: &[u8]) -> Result<i64, Left>
    ensures { result ≡ operand_at (names_of plan.now) operand bytes.now }
{
    match operand {
        Operand::Nothing => end(0, bytes),
        Operand::Milliseconds => milliseconds(bytes),
        Operand::Switch => switch(bytes),
        Operand::Supplier => supplier(plan, by, bytes),
    }
}

/// What follows the device of a command.
#[tactic(auto, unfolding(crate::specs::Reading::command_of))]
fn command_on(
    plan: &Plan,
    by: Option<&Finders>,
    helper: Helper,
    dev: DevId,
    bytes: &[u8],
) -> Result<Command, Left>
    ensures { result ≡ command_of (names_of plan.now) helper dev bytes.now }
{
    let number = operand(plan, by, operand_of(helper), bytes)?;
    Ok(Command {
        helper,
        dev,
        number,
    })
}

/// What follows the word of a helper that takes a device.
#[tactic(auto, unfolding(crate::specs::Reading::device_command_at))]
fn device_command(
    plan: &Plan,
    by: Option<&Finders>,
    helper: Helper,
    bytes: &[u8],
) -> Result<Command, Left>
    ensures { result ≡ device_command_at (names_of plan.now) helper bytes.now }
{
    let (dev, rest) = device(plan, by, literal(b" ", bytes)?)?;
    command_on(plan, by, helper, dev, rest)
}

/// What follows the word of a helper in a call.
fn command(plan: &Plan, by: Option<&Finders>, helper: Helper, bytes: &[u8]) -> Result<Command, Left>
    ensures { result ≡ (if takes_device helper
        then device_command_at (names_of plan.now) helper bytes.now
        else command_of (names_of plan.now) helper (record { 0 = 0 }) bytes.now) }
{
    if takes_device(helper) {
        device_command(plan, by, helper, bytes)
    } else {
        command_on(plan, by, helper, DevId(0), bytes)
    }
}

/// The call of a helper.
#[tactic(auto, unfolding(crate::specs::Reading::call_at))]
fn call(plan: &Plan, by: Option<&Finders>, bytes: &[u8]) -> Result<Event, Left>
    ensures { result ≡ call_at (names_of plan.now) bytes.now }
{
    let (helper, rest) = helper(bytes)?;
    let command = command(plan, by, helper, rest)?;
    Ok(Event::Call { command })
}

/// What follows the word of a helper that takes a device, where it returns.
#[tactic(auto, unfolding(crate::specs::Reading::device_ret_at))]
fn device_ret(
    plan: &Plan,
    by: Option<&Finders>,
    helper: Helper,
    bytes: &[u8],
) -> Result<Event, Left>
    ensures { result ≡ device_ret_at (names_of plan.now) helper bytes.now }
{
    let (dev, rest) = device(plan, by, literal(b" ", bytes)?)?;
    let code = code(literal(b" ", rest)?)?;
    Ok(Event::Ret { helper, dev, code })
}

/// The return of a helper.
#[tactic(auto, unfolding(crate::specs::Reading::ret_at))]
fn ret(plan: &Plan, by: Option<&Finders>, bytes: &[u8]) -> Result<Event, Left>
    ensures { result ≡ ret_at (names_of plan.now) bytes.now }
{
    let (helper, rest) = helper(bytes)?;
    if takes_device(helper) {
        device_ret(plan, by, helper, rest)
    } else {
        let dev = DevId(0);
        word(
            b" 0",
            Event::Ret {
                helper,
                dev,
                code: 0,
            },
            rest,
        )
    }
}

/// A child as the reason of a count.
#[tactic(auto, unfolding(crate::specs::Reading::child_at))]
fn child(plan: &Plan, by: Option<&Finders>, bytes: &[u8]) -> Result<Why, Left>
    ensures { result ≡ child_at (names_of plan.now) bytes.now }
{
    let (dev, rest) = device(plan, by, literal(b"child ", bytes)?)?;
    end(Why::Child(dev), rest)
}

/// A consumer as the reason of a count.
#[tactic(auto, unfolding(crate::specs::Reading::link_at))]
fn link(plan: &Plan, by: Option<&Finders>, bytes: &[u8]) -> Result<Why, Left>
    ensures { result ≡ link_at (names_of plan.now) bytes.now }
{
    let (dev, rest) = device(plan, by, literal(b"link ", bytes)?)?;
    end(Why::Link(dev), rest)
}

/// Why a usage count is held that no caller took.
fn other_why(plan: &Plan, by: Option<&Finders>, bytes: &[u8]) -> Result<Why, Left>
    ensures { result ≡ either_of (word_at (codes "control") Why.Control bytes.now)
        (either_of (word_at (codes "forbid") Why.Forbid bytes.now)
        (either_of (word_at (codes "delay") Why.Delay bytes.now)
        (either_of (child_at (names_of plan.now) bytes.now) (link_at (names_of plan.now) bytes.now)))) }
{
    let device = either(child(plan, by, bytes), link(plan, by, bytes));
    let device = either(word(b"delay", Why::Delay, bytes), device);
    let device = either(word(b"forbid", Why::Forbid, bytes), device);
    either(word(b"control", Why::Control, bytes), device)
}

/// Why a usage count is held.
#[tactic(auto, unfolding(crate::specs::Reading::why_at))]
fn why(plan: &Plan, by: Option<&Finders>, bytes: &[u8]) -> Result<Why, Left>
    ensures { result ≡ why_at (names_of plan.now) bytes.now }
{
    match word(b"caller", Why::Caller, bytes) {
        Ok(held) => Ok(held),
        Err(left) => either(Err(left), other_why(plan, by, bytes)),
    }
}

/// A get.
#[tactic(auto, unfolding(crate::specs::Reading::get_at))]
fn get(plan: &Plan, by: Option<&Finders>, bytes: &[u8]) -> Result<Event, Left>
    ensures { result ≡ get_at (names_of plan.now) bytes.now }
{
    let (dev, rest) = device(plan, by, bytes)?;
    let why = why(plan, by, literal(b" ", rest)?)?;
    Ok(Event::Get { dev, why })
}

/// A put.
#[tactic(auto, unfolding(crate::specs::Reading::put_at))]
fn put(plan: &Plan, by: Option<&Finders>, bytes: &[u8]) -> Result<Event, Left>
    ensures { result ≡ put_at (names_of plan.now) bytes.now }
{
    let (dev, rest) = device(plan, by, bytes)?;
    let why = why(plan, by, literal(b" ", rest)?)?;
    Ok(Event::Put { dev, why })
}

/// 1 or 0, and what follows it.
#[tactic(auto, unfolding(crate::specs::Reading::bit_at))]
fn bit(bytes: &[u8]) -> Result<(u64, &[u8]), Left>
    ensures { Gives (λ found. (found.0, found.1.now)) result (bit_at bytes.now) }
{
    number(10, 0, 1, bytes)
}

/// What follows a count that is padded on the right to two places.
#[tactic(auto, unfolding(crate::specs::Reading::padding))]
fn unpadded(count: u32, bytes: &[u8]) -> Result<&[u8], Left>
    ensures { Gives (λ rest. rest.now) result (literal_at (padding count) bytes.now) }
{
    if count < 10 {
        literal(b" ", bytes)
    } else {
        literal(b"", bytes)
    }
}

/// What a payload says behind flags, usage and depth.
#[tactic(auto, unfolding(crate::specs::Reading::states_at))]
fn states(flags: u8, cnt: u32, dep: u32, bytes: &[u8]) -> Result<Fields, Left>
    ensures { result ≡ states_at flags cnt dep bytes.now }
{
    let (auto_on, rest) = bit(bytes)?;
    let (pending, rest) = bit(literal(b" p-", rest)?)?;
    let (child, rest) = count(literal(b" irq-0 child-", rest)?)?;
    let fields = Fields {
        flags,
        cnt,
        dep,
        auto_on: auto_on == 1,
        pending: pending == 1,
        child,
    };
    end(fields, rest)
}

/// The fields of a payload.
#[tactic(auto, unfolding(crate::specs::Reading::fields_at))]
fn fields(bytes: &[u8]) -> Result<Fields, Left>
    ensures { result ≡ fields_at bytes.now }
{
    let (flags, rest) = number(16, 0, u64::from(u8::MAX), literal(b" flags-", bytes)?)?;
    let (cnt, rest) = count(literal(b" cnt-", rest)?)?;
    let rest = literal(b" dep-", unpadded(cnt, rest)?)?;
    let (dep, rest) = count(rest)?;
    let rest = literal(b" auto-", unpadded(dep, rest)?)?;
    states(flags as u8, cnt, dep, rest)
}

/// The device and the fields of a payload.
#[tactic(auto, unfolding(crate::specs::Reading::payload_at))]
fn payload(plan: &Plan, by: Option<&Finders>, bytes: &[u8]) -> Result<(DevId, Fields), Left>
    ensures { result ≡ payload_at (names_of plan.now) bytes.now }
{
    let (dev, rest) = device(plan, by, bytes)?;
    let fields = fields(rest)?;
    Ok((dev, fields))
}

/// An event with a payload.
#[tactic(auto, unfolding(crate::specs::Reading::usage_at))]
fn usage(plan: &Plan, by: Option<&Finders>, bytes: &[u8]) -> Result<Event, Left>
    ensures { result ≡ usage_at (names_of plan.now) bytes.now }
{
    let (dev, fields) = payload(plan, by, bytes)?;
    Ok(Event::Usage { dev, fields })
}

/// The begin of the kernel's inner idle function.
#[tactic(auto, unfolding(crate::specs::Reading::idle_at))]
fn idle(plan: &Plan, by: Option<&Finders>, bytes: &[u8]) -> Result<Event, Left>
    ensures { result ≡ idle_at (names_of plan.now) bytes.now }
{
    let (dev, fields) = payload(plan, by, bytes)?;
    Ok(Event::Idle { dev, fields })
}

/// The begin of the kernel's inner suspend function.
#[tactic(auto, unfolding(crate::specs::Reading::suspend_at))]
fn suspend(plan: &Plan, by: Option<&Finders>, bytes: &[u8]) -> Result<Event, Left>
    ensures { result ≡ suspend_at (names_of plan.now) bytes.now }
{
    let (dev, fields) = payload(plan, by, bytes)?;
    Ok(Event::Suspend { dev, fields })
}

/// The begin of the kernel's inner resume function.
#[tactic(auto, unfolding(crate::specs::Reading::resume_at))]
fn resume(plan: &Plan, by: Option<&Finders>, bytes: &[u8]) -> Result<Event, Left>
    ensures { result ≡ resume_at (names_of plan.now) bytes.now }
{
    let (dev, fields) = payload(plan, by, bytes)?;
    Ok(Event::Resume { dev, fields })
}

/// A callback, and what follows its word.
#[tactic(auto, unfolding(crate::specs::Pieces::item_at))]
fn callback_word(stop: u8, bytes: &[u8]) -> Result<(Cb, &[u8]), Left>
    ensures { Gives (λ found. (found.0, found.1.now)) result (item_at cb_words all_cbs stop bytes.now) }
{
    let (place, rest) = placed(&cb_words(), stop, bytes)?;
    listed(cb_of(place), rest)
}

/// The return of one of the kernel's inner functions.
#[tactic(auto, unfolding(crate::specs::Reading::return_at))]
fn inner_return(plan: &Plan, by: Option<&Finders>, bytes: &[u8]) -> Result<Event, Left>
    ensures { result ≡ return_at (names_of plan.now) bytes.now }
{
    let (func, rest) = callback_word(b':', literal(b"rpm_", bytes)?)?;
    let (dev, rest) = device(plan, by, literal(b":", rest)?)?;
    let code = code(literal(b" ret=", rest)?)?;
    Ok(Event::Return { func, dev, code })
}

/// A wait.
#[tactic(auto, unfolding(crate::specs::Reading::wait_at))]
fn wait(plan: &Plan, by: Option<&Finders>, bytes: &[u8]) -> Result<Event, Left>
    ensures { result ≡ wait_at (names_of plan.now) bytes.now }
{
    let (dev, rest) = device(plan, by, bytes)?;
    end(Event::Wait { dev }, rest)
}

/// A change of status, and what follows its word.
#[tactic(auto, unfolding(crate::specs::Pieces::item_at))]
fn status(bytes: &[u8]) -> Result<(Word, &[u8]), Left>
    ensures { Gives (λ found. (found.0, found.1.now)) result (item_at status_words all_statuses 32 bytes.now) }
{
    let (place, rest) = placed(&status_words(), b' ', bytes)?;
    listed(status_of(place), rest)
}

/// A change of status.
#[tactic(auto, unfolding(crate::specs::Reading::state_at))]
fn state(plan: &Plan, by: Option<&Finders>, bytes: &[u8]) -> Result<Event, Left>
    ensures { result ≡ state_at (names_of plan.now) bytes.now }
{
    let (dev, rest) = device(plan, by, bytes)?;
    let (word, rest) = status(literal(b" ", rest)?)?;
    end(Event::State { dev, word }, rest)
}

/// The end of a callback, behind the callback's word.
#[tactic(auto, unfolding(crate::specs::Reading::end_at))]
fn callback_end(dev: DevId, cb: Cb, bytes: &[u8]) -> Result<Event, Left>
    ensures { result ≡ end_at dev cb bytes.now }
{
    let code = code(literal(b" end ", bytes)?)?;
    Ok(Event::End { dev, cb, code })
}

/// The begin or the end of a callback.
#[tactic(auto, unfolding(crate::specs::Reading::callback_at))]
fn callback(plan: &Plan, by: Option<&Finders>, bytes: &[u8]) -> Result<Event, Left>
    ensures { result ≡ callback_at (names_of plan.now) bytes.now }
{
    let (dev, rest) = device(plan, by, bytes)?;
    let (cb, rest) = callback_word(b' ', literal(b" ", rest)?)?;
    match word(b" begin", Event::Begin { dev, cb }, rest) {
        Ok(event) => Ok(event),
        Err(left) => either(Err(left), callback_end(dev, cb, rest)),
    }
}

/// How many domains are switched, behind the word of the way.
#[tactic(auto, unfolding(crate::specs::Reading::switched_at))]
fn switched(way: &[u8], up: bool, dev: DevId, bytes: &[u8]) -> Result<Event, Left>
    ensures { result ≡ switched_at way.now up dev bytes.now }
{
    let (count, rest) = count(literal(way, bytes)?)?;
    end(Event::Domain { dev, up, count }, rest)
}

/// A switch of power domains.
#[tactic(auto, unfolding(crate::specs::Reading::domain_at))]
fn domain(plan: &Plan, by: Option<&Finders>, bytes: &[u8]) -> Result<Event, Left>
    ensures { result ≡ domain_at (names_of plan.now) bytes.now }
{
    let (dev, rest) = device(plan, by, bytes)?;
    either(
        switched(b" up ", true, dev, rest),
        switched(b" down ", false, dev, rest),
    )
}

/// A request that is queued, which isn't `Nothing`.
#[tactic(auto, unfolding(crate::specs::Reading::queued_at))]
fn queued(bytes: &[u8]) -> Result<Req, Left>
    ensures { result ≡ queued_at bytes.now }
{
    let request = either(
        word(b"autosuspend", Req::Autosuspend, bytes),
        word(b"resume", Req::Resume, bytes),
    );
    let request = either(word(b"suspend", Req::Suspend, bytes), request);
    either(word(b"idle", Req::Idle, bytes), request)
}

/// A work item that is queued.
#[tactic(auto, unfolding(crate::specs::Reading::queue_at))]
fn queue(bytes: &[u8]) -> Result<WorkAct, Left>
    ensures { result ≡ queue_at bytes.now }
{
    let request = queued(literal(b"queue ", bytes)?)?;
    Ok(WorkAct::Queue(request))
}

/// A request, and what follows its word.
#[tactic(auto, unfolding(crate::specs::Pieces::item_at))]
fn request(bytes: &[u8]) -> Result<(Req, &[u8]), Left>
    ensures { Gives (λ found. (found.0, found.1.now)) result (item_at req_words all_reqs 32 bytes.now) }
{
    let (place, rest) = placed(&req_words(), b' ', bytes)?;
    listed(req_of(place), rest)
}

/// A work item that runs.
#[tactic(auto, unfolding(crate::specs::Reading::run_at))]
fn run(bytes: &[u8]) -> Result<WorkAct, Left>
    ensures { result ≡ run_at bytes.now }
{
    let (request, rest) = request(literal(b"run ", bytes)?)?;
    end(WorkAct::Run(request), rest)
}

/// What a work item does.
#[tactic(auto, unfolding(crate::specs::Reading::act_at))]
fn work_act(bytes: &[u8]) -> Result<WorkAct, Left>
    ensures { result ≡ act_at bytes.now }
{
    let other = either(word(b"defer", WorkAct::Defer, bytes), run(bytes));
    either(queue(bytes), other)
}

/// A line of a work item.
#[tactic(auto, unfolding(crate::specs::Reading::work_at))]
fn work(plan: &Plan, by: Option<&Finders>, bytes: &[u8]) -> Result<Event, Left>
    ensures { result ≡ work_at (names_of plan.now) bytes.now }
{
    let (dev, rest) = device(plan, by, bytes)?;
    let act = work_act(literal(b" ", rest)?)?;
    Ok(Event::Work { dev, act })
}

/// The kind of a timer: whether an autosuspend armed it.
#[tactic(auto, unfolding(crate::specs::Reading::timer_kind_at))]
fn timer_kind(bytes: &[u8]) -> Result<bool, Left>
    ensures { result ≡ timer_kind_at bytes.now }
{
    either(word(b"auto", true, bytes), word(b"plain", false, bytes))
}

/// A timer that is armed.
#[tactic(auto, unfolding(crate::specs::Reading::arm_at))]
fn arm(bytes: &[u8]) -> Result<TimerAct, Left>
    ensures { result ≡ arm_at bytes.now }
{
    let (at, rest) = number(10, 0, u64::MAX, literal(b"arm ", bytes)?)?;
    let autosuspends = timer_kind(literal(b" ", rest)?)?;
    Ok(TimerAct::Arm { at, autosuspends })
}

/// A timer that fires.
#[tactic(auto, unfolding(crate::specs::Reading::fire_at))]
fn fire(bytes: &[u8]) -> Result<TimerAct, Left>
    ensures { result ≡ fire_at bytes.now }
{
    let autosuspends = timer_kind(literal(b"fire ", bytes)?)?;
    Ok(TimerAct::Fire { autosuspends })
}

/// A line of a timer.
#[tactic(auto, unfolding(crate::specs::Reading::timer_at))]
fn timer(plan: &Plan, by: Option<&Finders>, bytes: &[u8]) -> Result<Event, Left>
    ensures { result ≡ timer_at (names_of plan.now) bytes.now }
{
    let (dev, rest) = device(plan, by, bytes)?;
    let rest = literal(b" ", rest)?;
    let act = either(arm(rest), fire(rest))?;
    Ok(Event::Timer { dev, act })
}

/// What follows an event's word, its colon and a space.
#[tactic(auto, unfolding(crate::specs::Reading::event_of))]
fn event_of(plan: &Plan, by: Option<&Finders>, kind: Kind, bytes: &[u8]) -> Result<Event, Left>
    ensures { result ≡ event_of (names_of plan.now) kind bytes.now }
{
    match kind {
        Kind::Call => call(plan, by, bytes),
        Kind::Ret => ret(plan, by, bytes),
        Kind::Get => get(plan, by, bytes),
        Kind::Put => put(plan, by, bytes),
        Kind::Usage => usage(plan, by, bytes),
        Kind::Idle => idle(plan, by, bytes),
        Kind::Suspend => suspend(plan, by, bytes),
        Kind::Resume => resume(plan, by, bytes),
        Kind::Return => inner_return(plan, by, bytes),
        Kind::Wait => wait(plan, by, bytes),
        Kind::State => state(plan, by, bytes),
        Kind::Callback => callback(plan, by, bytes),
        Kind::Domain => domain(plan, by, bytes),
        Kind::Work => work(plan, by, bytes),
        Kind::Timer => timer(plan, by, bytes),
    }
}

/// The kind of an event, and what follows its word.
#[tactic(auto, unfolding(crate::specs::Pieces::item_at))]
fn kind(bytes: &[u8]) -> Result<(Kind, &[u8]), Left>
    ensures { Gives (λ found. (found.0, found.1.now)) result (item_at event_words all_kinds 58 bytes.now) }
{
    let (place, rest) = placed(&events(), b':', bytes)?;
    listed(kind_at(place), rest)
}

/// An event over a plan with devices.
#[tactic(auto, unfolding(crate::specs::Reading::any_event_at))]
fn any_event(plan: &Plan, by: Option<&Finders>, bytes: &[u8]) -> Result<Event, Left>
    ensures { result ≡ any_event_at (names_of plan.now) bytes.now }
{
    let (kind, rest) = kind(bytes)?;
    event_of(plan, by, kind, literal(b": ", rest)?)
}

/// The call of `delay`, over a plan without devices.
#[tactic(auto, unfolding(crate::specs::Reading::delay_call_at))]
fn delay_call(bytes: &[u8]) -> Result<Event, Left>
    ensures { result ≡ delay_call_at bytes.now }
{
    let number = long(literal(b"pm_call: delay ", bytes)?)?;
    let command = Command {
        helper: Helper::Delay,
        dev: DevId(0),
        number,
    };
    Ok(Event::Call { command })
}

/// An event over a plan without devices: only `delay` has a text there.
#[tactic(auto, unfolding(crate::specs::Reading::delay_at))]
fn delay(bytes: &[u8]) -> Result<Event, Left>
    ensures { result ≡ delay_at bytes.now }
{
    let ret = Event::Ret {
        helper: Helper::Delay,
        dev: DevId(0),
        code: 0,
    };
    either(delay_call(bytes), word(b"pm_ret: delay 0", ret, bytes))
}

/// An event.
#[tactic(auto, unfolding(crate::specs::Reading::event_at))]
pub(crate) fn event(plan: &Plan, by: Option<&Finders>, bytes: &[u8]) -> Result<Event, Left>
    ensures { result ≡ event_at (names_of plan.now) bytes.now }
{
    if plan.devices.len() == 0 {
        delay(bytes)
    } else {
        any_event(plan, by, bytes)
    }
}
