//! Lines and their texts, which were written by hand.

use pm_base::{ActorId, Cb, DevId, Req, Why};
use pm_model::{Command, Event, Fields, Helper, Line, TimerAct, Word, WorkAct};

/// A text and its line, which is one of a plan of two devices and two callers.
pub type Spelled = (&'static [u8], Line);

const A: DevId = DevId(0);

const B: DevId = DevId(1);

macro_rules! spelled {
    ($text:literal, $time:literal $actor:ident $place:literal $event:ident $($fields:tt)*) => {
        ($text, Line { time: $time, actor: ActorId::$actor($place), event: Event::$event { $($fields)* } })
    };
}

/// A run of one caller, in format 1.
pub static RUN: [Spelled; 16] = [
    spelled!(b"0 c pm_call: enable a", 0 Caller 0 Call command: Command { helper: Helper::Enable, dev: A, number: 0 }),
    spelled!(b"0 c pm_ret: enable a 0", 0 Caller 0 Ret helper: Helper::Enable, dev: A, code: 0),
    spelled!(b"0 c pm_call: get_sync a", 0 Caller 0 Call command: Command { helper: Helper::GetSync, dev: A, number: 0 }),
    spelled!(b"0 c pm_get: a caller", 0 Caller 0 Get dev: A, why: Why::Caller),
    spelled!(b"0 c rpm_resume: a flags-4 cnt-1  dep-0  auto-1 p-0 irq-0 child-0", 0 Caller 0 Resume dev: A, fields: Fields { flags: 4, cnt: 1, dep: 0, auto_on: true, pending: false, child: 0 }),
    spelled!(b"0 c pm_status: a resuming", 0 Caller 0 State dev: A, word: Word::Resuming),
    spelled!(b"0 c pm_callback: a resume begin", 0 Caller 0 Begin dev: A, cb: Cb::Resume),
    spelled!(b"0 c pm_callback: a resume end 0", 0 Caller 0 End dev: A, cb: Cb::Resume, code: 0),
    spelled!(b"0 c pm_status: a active", 0 Caller 0 State dev: A, word: Word::Active),
    spelled!(b"0 c rpm_idle: a flags-1 cnt-1  dep-0  auto-1 p-0 irq-0 child-0", 0 Caller 0 Idle dev: A, fields: Fields { flags: 1, cnt: 1, dep: 0, auto_on: true, pending: false, child: 0 }),
    spelled!(b"0 c rpm_return_int: rpm_idle:a ret=-11", 0 Caller 0 Return func: Cb::Idle, dev: A, code: -11),
    spelled!(b"0 c rpm_return_int: rpm_resume:a ret=0", 0 Caller 0 Return func: Cb::Resume, dev: A, code: 0),
    spelled!(b"0 c pm_ret: get_sync a 0", 0 Caller 0 Ret helper: Helper::GetSync, dev: A, code: 0),
    spelled!(b"0 c pm_call: put_noidle a", 0 Caller 0 Call command: Command { helper: Helper::PutNoidle, dev: A, number: 0 }),
    spelled!(b"0 c pm_put: a caller", 0 Caller 0 Put dev: A, why: Why::Caller),
    spelled!(b"0 c pm_ret: put_noidle a 0", 0 Caller 0 Ret helper: Helper::PutNoidle, dev: A, code: 0),
];

/// Each event with its smallest numbers, in format 1.
pub static SMALLEST: [Spelled; 26] = [
    spelled!(b"0 c pm_call: set_autosuspend_delay a -9223372036854775808", 0 Caller 0 Call command: Command { helper: Helper::SetAutosuspendDelay, dev: A, number: i64::MIN }),
    spelled!(b"0 c pm_call: schedule_suspend a 0", 0 Caller 0 Call command: Command { helper: Helper::ScheduleSuspend, dev: A, number: 0 }),
    spelled!(b"0 c pm_call: delay -1", 0 Caller 0 Call command: Command { helper: Helper::Delay, dev: A, number: -1 }),
    spelled!(b"0 c pm_call: ignore_children a off", 0 Caller 0 Call command: Command { helper: Helper::IgnoreChildren, dev: A, number: 0 }),
    spelled!(b"0 c pm_call: link_add a a", 0 Caller 0 Call command: Command { helper: Helper::LinkAdd, dev: A, number: 0 }),
    spelled!(b"0 c pm_ret: get a -2147483648", 0 Caller 0 Ret helper: Helper::Get, dev: A, code: i32::MIN),
    spelled!(b"0 c pm_ret: delay 0", 0 Caller 0 Ret helper: Helper::Delay, dev: A, code: 0),
    spelled!(b"0 c pm_ret: link_add a 0", 0 Caller 0 Ret helper: Helper::LinkAdd, dev: A, code: 0),
    spelled!(b"0 c pm_get: a forbid", 0 Caller 0 Get dev: A, why: Why::Forbid),
    spelled!(b"0 c pm_get: a child a", 0 Caller 0 Get dev: A, why: Why::Child(A)),
    spelled!(b"0 c pm_put: a delay", 0 Caller 0 Put dev: A, why: Why::Delay),
    spelled!(b"0 c pm_put: a link a", 0 Caller 0 Put dev: A, why: Why::Link(A)),
    spelled!(b"0 c rpm_usage: a flags-0 cnt-0  dep-0  auto-0 p-0 irq-0 child-0", 0 Caller 0 Usage dev: A, fields: Fields { flags: 0, cnt: 0, dep: 0, auto_on: false, pending: false, child: 0 }),
    spelled!(b"0 c rpm_suspend: a flags-f cnt-9  dep-10 auto-0 p-1 irq-0 child-1", 0 Caller 0 Suspend dev: A, fields: Fields { flags: 15, cnt: 9, dep: 10, auto_on: false, pending: true, child: 1 }),
    spelled!(b"0 c rpm_return_int: rpm_idle:a ret=-2147483648", 0 Caller 0 Return func: Cb::Idle, dev: A, code: i32::MIN),
    spelled!(b"0 c pm_wait: a", 0 Caller 0 Wait dev: A),
    spelled!(b"0 c pm_status: a suspended", 0 Caller 0 State dev: A, word: Word::Suspended),
    spelled!(b"0 c pm_status: a deferred", 0 Caller 0 State dev: A, word: Word::Deferred),
    spelled!(b"0 work.a pm_callback: a idle begin", 0 Work 0 Begin dev: A, cb: Cb::Idle),
    spelled!(b"0 work.a pm_callback: a idle end -2147483648", 0 Work 0 End dev: A, cb: Cb::Idle, code: i32::MIN),
    spelled!(b"0 work.a pm_domain: a up 0", 0 Work 0 Domain dev: A, up: true, count: 0),
    spelled!(b"0 work.a pm_work: a queue idle", 0 Work 0 Work dev: A, act: WorkAct::Queue(Req::Idle)),
    spelled!(b"0 work.a pm_work: a run none", 0 Work 0 Work dev: A, act: WorkAct::Run(Req::Nothing)),
    spelled!(b"0 work.a pm_work: a defer", 0 Work 0 Work dev: A, act: WorkAct::Defer),
    spelled!(b"0 timer.a pm_timer: a arm 0 plain", 0 Timer 0 Timer dev: A, act: TimerAct::Arm { at: 0, autosuspends: false }),
    spelled!(b"0 timer.a pm_timer: a fire auto", 0 Timer 0 Timer dev: A, act: TimerAct::Fire { autosuspends: true }),
];

/// Each event with its largest numbers and the longest names, in format 1.
pub static LARGEST: [Spelled; 20] = [
    spelled!(b"9223372036854775807 abcdefghijklmnopqrstuvwxyz-_ABCD pm_call: set_autosuspend_delay 0000:00:14.0_abcdefghijklmnopqrs 9223372036854775807", 9223372036854775807 Caller 1 Call command: Command { helper: Helper::SetAutosuspendDelay, dev: B, number: i64::MAX }),
    spelled!(b"9223372036854775807 abcdefghijklmnopqrstuvwxyz-_ABCD pm_call: ignore_children 0000:00:14.0_abcdefghijklmnopqrs on", 9223372036854775807 Caller 1 Call command: Command { helper: Helper::IgnoreChildren, dev: B, number: 1 }),
    spelled!(b"9223372036854775807 abcdefghijklmnopqrstuvwxyz-_ABCD pm_call: link_del 0000:00:14.0_abcdefghijklmnopqrs 0000:00:14.0_abcdefghijklmnopqrs", 9223372036854775807 Caller 1 Call command: Command { helper: Helper::LinkDel, dev: B, number: 1 }),
    spelled!(b"9223372036854775807 abcdefghijklmnopqrstuvwxyz-_ABCD pm_ret: request_autosuspend 0000:00:14.0_abcdefghijklmnopqrs 2147483647", 9223372036854775807 Caller 1 Ret helper: Helper::RequestAutosuspend, dev: B, code: i32::MAX),
    spelled!(b"9223372036854775807 abcdefghijklmnopqrstuvwxyz-_ABCD pm_get: 0000:00:14.0_abcdefghijklmnopqrs control", 9223372036854775807 Caller 1 Get dev: B, why: Why::Control),
    spelled!(b"9223372036854775807 work.0000:00:14.0_abcdefghijklmnopqrs pm_put: 0000:00:14.0_abcdefghijklmnopqrs link 0000:00:14.0_abcdefghijklmnopqrs", 9223372036854775807 Work 1 Put dev: B, why: Why::Link(B)),
    spelled!(b"9223372036854775807 work.0000:00:14.0_abcdefghijklmnopqrs rpm_usage: 0000:00:14.0_abcdefghijklmnopqrs flags-10 cnt-10 dep-99 auto-1 p-1 irq-0 child-1024", 9223372036854775807 Work 1 Usage dev: B, fields: Fields { flags: 16, cnt: 10, dep: 99, auto_on: true, pending: true, child: 1024 }),
    spelled!(b"9223372036854775807 work.0000:00:14.0_abcdefghijklmnopqrs rpm_idle: 0000:00:14.0_abcdefghijklmnopqrs flags-ff cnt-4294967295 dep-4294967295 auto-1 p-1 irq-0 child-4294967295", 9223372036854775807 Work 1 Idle dev: B, fields: Fields { flags: 255, cnt: u32::MAX, dep: u32::MAX, auto_on: true, pending: true, child: u32::MAX }),
    spelled!(b"9223372036854775807 timer.0000:00:14.0_abcdefghijklmnopqrs rpm_suspend: 0000:00:14.0_abcdefghijklmnopqrs flags-ff cnt-4294967295 dep-4294967295 auto-1 p-1 irq-0 child-4294967295", 9223372036854775807 Timer 1 Suspend dev: B, fields: Fields { flags: 255, cnt: u32::MAX, dep: u32::MAX, auto_on: true, pending: true, child: u32::MAX }),
    spelled!(b"9223372036854775807 timer.0000:00:14.0_abcdefghijklmnopqrs rpm_resume: 0000:00:14.0_abcdefghijklmnopqrs flags-f cnt-999999 dep-999999 auto-1 p-1 irq-0 child-1024", 9223372036854775807 Timer 1 Resume dev: B, fields: Fields { flags: 15, cnt: 999999, dep: 999999, auto_on: true, pending: true, child: 1024 }),
    spelled!(b"9223372036854775807 work.0000:00:14.0_abcdefghijklmnopqrs rpm_return_int: rpm_suspend:0000:00:14.0_abcdefghijklmnopqrs ret=2147483647", 9223372036854775807 Work 1 Return func: Cb::Suspend, dev: B, code: i32::MAX),
    spelled!(b"9223372036854775807 work.0000:00:14.0_abcdefghijklmnopqrs pm_wait: 0000:00:14.0_abcdefghijklmnopqrs", 9223372036854775807 Work 1 Wait dev: B),
    spelled!(b"9223372036854775807 work.0000:00:14.0_abcdefghijklmnopqrs pm_status: 0000:00:14.0_abcdefghijklmnopqrs forced_active", 9223372036854775807 Work 1 State dev: B, word: Word::ForcedActive),
    spelled!(b"9223372036854775807 work.0000:00:14.0_abcdefghijklmnopqrs pm_status: 0000:00:14.0_abcdefghijklmnopqrs forced_suspended", 9223372036854775807 Work 1 State dev: B, word: Word::ForcedSuspended),
    spelled!(b"9223372036854775807 work.0000:00:14.0_abcdefghijklmnopqrs pm_callback: 0000:00:14.0_abcdefghijklmnopqrs suspend begin", 9223372036854775807 Work 1 Begin dev: B, cb: Cb::Suspend),
    spelled!(b"9223372036854775807 work.0000:00:14.0_abcdefghijklmnopqrs pm_callback: 0000:00:14.0_abcdefghijklmnopqrs suspend end 2147483647", 9223372036854775807 Work 1 End dev: B, cb: Cb::Suspend, code: i32::MAX),
    spelled!(b"9223372036854775807 work.0000:00:14.0_abcdefghijklmnopqrs pm_domain: 0000:00:14.0_abcdefghijklmnopqrs down 4294967295", 9223372036854775807 Work 1 Domain dev: B, up: false, count: u32::MAX),
    spelled!(b"9223372036854775807 work.0000:00:14.0_abcdefghijklmnopqrs pm_work: 0000:00:14.0_abcdefghijklmnopqrs run autosuspend", 9223372036854775807 Work 1 Work dev: B, act: WorkAct::Run(Req::Autosuspend)),
    spelled!(b"9223372036854775807 timer.0000:00:14.0_abcdefghijklmnopqrs pm_timer: 0000:00:14.0_abcdefghijklmnopqrs arm 18446744073709551615 auto", 9223372036854775807 Timer 1 Timer dev: B, act: TimerAct::Arm { at: u64::MAX, autosuspends: true }),
    spelled!(b"9223372036854775807 timer.0000:00:14.0_abcdefghijklmnopqrs pm_timer: 0000:00:14.0_abcdefghijklmnopqrs fire plain", 9223372036854775807 Timer 1 Timer dev: B, act: TimerAct::Fire { autosuspends: false }),
];

/// Each line behind the one before, in format 2.
pub static TIMED: [Spelled; 8] = [
    spelled!(b"0 c pm_call: delay 9", 0 Caller 0 Call command: Command { helper: Helper::Delay, dev: A, number: 9 }),
    spelled!(b"9 c pm_ret: delay 0", 9 Caller 0 Ret helper: Helper::Delay, dev: A, code: 0),
    spelled!(b"0 c pm_call: autosuspend a", 9 Caller 0 Call command: Command { helper: Helper::Autosuspend, dev: A, number: 0 }),
    spelled!(b"0 c rpm_suspend: a flags-8 cnt-0  dep-0  auto-1 p-0 irq-0 child-0", 9 Caller 0 Suspend dev: A, fields: Fields { flags: 8, cnt: 0, dep: 0, auto_on: true, pending: false, child: 0 }),
    spelled!(b"1 timer.a pm_timer: a fire auto", 10 Timer 0 Timer dev: A, act: TimerAct::Fire { autosuspends: true }),
    spelled!(b"0 timer.a pm_timer: a arm 19 auto", 10 Timer 0 Timer dev: A, act: TimerAct::Arm { at: 19, autosuspends: true }),
    spelled!(b"9 timer.a pm_timer: a fire auto", 19 Timer 0 Timer dev: A, act: TimerAct::Fire { autosuspends: true }),
    spelled!(b"9223372036854775788 work.a pm_work: a queue autosuspend", 9223372036854775807 Work 0 Work dev: A, act: WorkAct::Queue(Req::Autosuspend)),
];

/// The longest text of a line, which is one of `LARGEST`.
pub static LONGEST: &[u8] =
    b"9223372036854775807 timer.0000:00:14.0_abcdefghijklmnopqrs rpm_suspend: 0000:00:14.0_abcdefghijklmnopqrs flags-ff cnt-4294967295 dep-4294967295 auto-1 p-1 irq-0 child-4294967295";

/// The longest line of a run, by its text behind a line a millisecond before.
pub static LONGEST_SHORT: Spelled =
    spelled!(b"1 timer.0000:00:14.0_abcdefghijklmnopqrs rpm_suspend: 0000:00:14.0_abcdefghijklmnopqrs flags-f cnt-999999 dep-999999 auto-1 p-1 irq-0 child-1024", 9223372036854775807 Timer 1 Suspend dev: B, fields: Fields { flags: 15, cnt: 999999, dep: 999999, auto_on: true, pending: true, child: 1024 });
