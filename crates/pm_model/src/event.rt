//! Commands of scripts and lines of traces.

use pm_base::{ActorId, Cb, DevId, Req, Why};

/// A helper that a script may call (`runtime_pm.rst`, section 4), named as `pm_runtime_NAME` is; the
/// last three and `delay` are this project's own.
#[derive(Clone, Copy, PartialEq, Eq, Hash)]
pub enum Helper {
    GetSync,
    Get,
    GetNoresume,
    GetIfInUse,
    GetIfActive,
    Resume,
    RequestResume,
    Put,
    PutSync,
    PutNoidle,
    PutAutosuspend,
    PutSyncSuspend,
    PutSyncAutosuspend,
    Idle,
    RequestIdle,
    Suspend,
    Autosuspend,
    RequestAutosuspend,
    ScheduleSuspend,
    Enable,
    Disable,
    Barrier,
    SetActive,
    SetSuspended,
    Allow,
    Forbid,
    MarkLastBusy,
    UseAutosuspend,
    DontUseAutosuspend,
    SetAutosuspendDelay,
    Delay,
    IgnoreChildren,
    LinkAdd,
    LinkDel,
}

/// What a helper takes besides its device.
#[derive(Clone, Copy, PartialEq, Eq, Hash)]
pub enum Operand {
    Nothing,
    /// A number of milliseconds.
    Milliseconds,
    /// `on` or `off`.
    Switch,
    /// A second device, the supplier of a link.
    Supplier,
}

/// One command of a script.
#[derive(Clone, Copy, PartialEq, Eq, Hash)]
pub struct Command {
    pub helper: Helper,
    /// The device; for the link helpers the consumer, for `delay` 0.
    pub dev: DevId,
    /// Milliseconds where the helper takes a number; 1 for `on` and 0 for `off`; for the link helpers
    /// the supplier's place; else 0.
    pub number: i64,
}

/// The payload of the kernel's `rpm_*` trace events (`include/trace/events/rpm.h`). Its field `irq`
/// is always 0 here.
#[derive(Clone, Copy, PartialEq, Eq)]
pub struct Fields {
    /// The flags of the call.
    pub flags: u8,
    /// The usage count.
    pub cnt: u32,
    /// The disable depth.
    pub dep: u32,
    /// Whether runtime power management is allowed.
    pub auto_on: bool,
    /// Whether the work item is queued.
    pub pending: bool,
    /// The children that count.
    pub child: u32,
}

/// A change of status, as a `pm_status` line names it.
#[derive(Clone, Copy, Debug, PartialEq, Eq)]
pub enum Word {
    Active,
    Resuming,
    Suspended,
    /// Suspended, and a deferred resume follows at once.
    Deferred,
    /// Set by `set_active`.
    ForcedActive,
    /// Set by `set_suspended`.
    ForcedSuspended,
}

/// What a `pm_work` line tells.
#[derive(Clone, Copy, PartialEq, Eq)]
pub enum WorkAct {
    /// The work item is queued with this request, which isn't `Nothing`.
    Queue(Req),
    /// A resume waits for the end of a suspend.
    Defer,
    /// The work item begins to carry out this request.
    Run(Req),
}

/// What a `pm_timer` line tells.
#[derive(Clone, Copy, PartialEq, Eq)]
pub enum TimerAct {
    /// The timer is armed for this moment, in milliseconds of the run.
    Arm { at: u64, autosuspends: bool },
    /// The timer fires.
    Fire { autosuspends: bool },
}

/// What one line of a trace tells. The four payload events are the kernel's; the others are this
/// project's own.
#[derive(Clone, Copy, PartialEq, Eq)]
pub enum Event {
    Call {
        command: Command,
    },
    Ret {
        helper: Helper,
        dev: DevId,
        code: i32,
    },
    Get {
        dev: DevId,
        why: Why,
    },
    Put {
        dev: DevId,
        why: Why,
    },
    Usage {
        dev: DevId,
        fields: Fields,
    },
    Idle {
        dev: DevId,
        fields: Fields,
    },
    Suspend {
        dev: DevId,
        fields: Fields,
    },
    Resume {
        dev: DevId,
        fields: Fields,
    },
    Return {
        func: Cb,
        dev: DevId,
        code: i32,
    },
    Wait {
        dev: DevId,
    },
    State {
        dev: DevId,
        word: Word,
    },
    Begin {
        dev: DevId,
        cb: Cb,
    },
    End {
        dev: DevId,
        cb: Cb,
        code: i32,
    },
    Domain {
        dev: DevId,
        up: bool,
        count: u32,
    },
    Work {
        dev: DevId,
        act: WorkAct,
    },
    Timer {
        dev: DevId,
        act: TimerAct,
    },
}

/// One line of a trace: one atomic step of one actor.
#[derive(Clone, Copy, PartialEq, Eq)]
pub struct Line {
    /// Milliseconds since the run began, below 2^63 in a line of a plan.
    pub time: u64,
    pub actor: ActorId,
    pub event: Event,
}
