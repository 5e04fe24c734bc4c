//! Where an actor stands between two lines.
//!
//! The names in brackets are those of the call table in `docs/CALL-TABLE.md`.

ghost use Rattle.std.specs.Prelude.{◌≡◌, [], ◌∷◌};
ghost use Rattle.pm_model.specs.StageRows.{stages_of};

use crate::event::{Command, Event, Helper};
use pm_base::DevId;
use std::marker::Model;

/// A stage of an idle, and the stage after a put.
#[derive(Clone, Copy, PartialEq, Eq, Hash)]
pub enum IdleStage {
    /// [I0]
    Enter { dev: DevId, flags: u8 },
    /// [I1]
    Verdict { dev: DevId, flags: u8 },
    /// [I2] The callback has begun at `since`.
    Running { dev: DevId, flags: u8, since: u64 },
    /// [I3]
    Done { dev: DevId, flags: u8, code: i32 },
    /// [I4]
    Queued { dev: DevId, flags: u8 },
    /// [T] A count on the device was given back.
    AfterPut { dev: DevId, flags: u8 },
}

/// A stage of a suspend.
#[derive(Clone, Copy, PartialEq, Eq, Hash)]
pub enum SuspendStage {
    /// [S0]
    Enter { dev: DevId, flags: u8 },
    /// [S1]
    Verdict { dev: DevId, flags: u8 },
    /// [S1] after its wait line.
    Waiting { dev: DevId, flags: u8 },
    /// [S2] The callback has begun at `since`.
    Running { dev: DevId, flags: u8, since: u64 },
    /// [S3]
    Domain { dev: DevId, flags: u8 },
    /// [S4]
    Links { dev: DevId, flags: u8 },
    /// [S5]
    Deferred { dev: DevId, flags: u8 },
    /// [S6]
    Parent { dev: DevId, flags: u8 },
    /// [S8]
    Done { dev: DevId, flags: u8, code: i32 },
}

/// What a resume is called for.
#[derive(Clone, Copy, PartialEq, Eq, Hash)]
pub enum Purpose {
    /// For the device itself.
    Plain,
    /// For a child that is about to resume.
    Child,
    /// For the consumer of this link, by the link's place in the plan.
    Link(u32),
}

/// A call of resume.
#[derive(Clone, Copy, PartialEq, Eq, Hash)]
pub struct ResumeCall {
    pub dev: DevId,
    pub flags: u8,
    /// The mark held: the count on the parent is taken.
    pub held: bool,
    pub purpose: Purpose,
}

/// A stage of a resume.
#[derive(Clone, Copy, PartialEq, Eq, Hash)]
pub enum ResumeStage {
    /// [R0]
    Enter { call: ResumeCall },
    /// [R1] with its mark tried.
    Verdict { call: ResumeCall, tried: bool },
    /// [R1] after its wait line.
    Waiting { call: ResumeCall, tried: bool },
    /// [R2]
    Links { call: ResumeCall },
    /// [R3] The supplier's resume answered this code.
    Supplied { call: ResumeCall, code: i32 },
    /// [R4]
    Callback { call: ResumeCall },
    /// [R4b] The callback has begun at `since`.
    Running { call: ResumeCall, since: u64 },
    /// [R4c]
    Resumed { call: ResumeCall },
    /// [R5]
    Idle { call: ResumeCall },
    /// [R6]
    Done { call: ResumeCall, code: i32 },
    /// [R7] with its mark held.
    Parent { call: ResumeCall, code: i32 },
    /// [R8]
    Domain { call: ResumeCall, code: i32 },
    /// [R9]
    Unwind { call: ResumeCall, code: i32 },
}

/// A stage of a helper that no control function is, of a work item or of a timer.
#[derive(Clone, Copy, PartialEq, Eq, Hash)]
pub enum HelperStage {
    /// A caller with an empty place, whose script goes on with this command.
    Call {
        command: Command,
    },
    /// A work item with an empty place, whose device is queued.
    Work {
        dev: DevId,
    },
    /// A timer with an empty place, which is armed.
    Timer {
        dev: DevId,
    },
    /// The line after the call's.
    Start {
        command: Command,
    },
    /// After the put line of a put that goes on to suspend.
    PutSuspends {
        command: Command,
    },
    /// `delay`, called at `since`, with its milliseconds.
    Delay {
        ms: i64,
        since: u64,
    },
    /// The helper's return line.
    Ret {
        helper: Helper,
        dev: DevId,
        code: i32,
    },
}

/// A stage of a control function: a helper that changes whether or how a device is managed.
#[derive(Clone, Copy, PartialEq, Eq, Hash)]
pub enum ControlStage {
    /// The line after the call's: [X1] of `disable`, [A1] of `set_active`.
    Start { command: Command },
    /// `disable` has carried out a pending resume.
    DisablePut { dev: DevId },
    /// [X2]
    Disable { dev: DevId },
    /// [X3]
    Disabled { dev: DevId },
    /// `barrier` holds its count, and looks for a pending resume.
    BarrierResume { dev: DevId },
    /// `barrier` looks whether the device is busy; it will answer this code.
    BarrierIdle { dev: DevId, code: i32 },
    /// `barrier` after its wait line.
    BarrierWait { dev: DevId, code: i32 },
    /// [A2]
    ActiveLinks { dev: DevId },
    /// [A4]
    ActiveUnwind { dev: DevId, code: i32 },
    /// `set_suspended` has forced the status; it has tried the suppliers up to this one.
    SuppliersIdle { dev: DevId, last: Option<DevId> },
}

/// A stage that goes on once a call ends, with the call's code.
#[derive(Clone, Copy, PartialEq, Eq, Hash)]
pub enum Await {
    /// Then [S4].
    SuspendLinks { dev: DevId, flags: u8 },
    /// Then [S8] with -11.
    SuspendDeferred { dev: DevId, flags: u8 },
    /// Then [S8] with 0.
    SuspendParent { dev: DevId, flags: u8 },
    /// Then [R1] with its mark tried.
    ResumeParent { call: ResumeCall },
    /// Then [R3] with the code.
    ResumeSupplier { call: ResumeCall, link: u32 },
    /// Then [R6] with 0.
    ResumeIdle { call: ResumeCall },
    /// Then [R9] with the code that is kept.
    ResumeUnwind { call: ResumeCall, code: i32 },
    /// [R7] with its put written: it ends with the code that is kept.
    ResumePut { call: ResumeCall, code: i32 },
    /// Then the helper's return line with the call's code.
    Return { helper: Helper, dev: DevId },
    /// Then the helper's return line with 0.
    ReturnZero { helper: Helper, dev: DevId },
    /// Then the put line of `disable`.
    DisableResume { dev: DevId },
    /// Then `barrier` goes on with code 1.
    BarrierResume { dev: DevId },
    /// Then [A2], or [A4] with the code where the supplier failed.
    ActiveSupplier { dev: DevId, link: u32 },
    /// Then [A4] with the code that is kept.
    ActiveUnwind { dev: DevId, code: i32 },
    /// Then `set_suspended` goes on above this supplier.
    SuppliersIdle { dev: DevId, supplier: DevId },
}

/// A stage of an actor's place.
#[derive(Clone, Copy, PartialEq, Eq, Hash)]
pub enum Stage {
    Idle(IdleStage),
    Suspend(SuspendStage),
    Resume(ResumeStage),
    Helper(HelperStage),
    Control(ControlStage),
    Await(Await),
}

/// No stage, one, or two of which the first writes next.
#[derive(Clone, Copy)]
pub enum StageRow {
    Zero,
    One(Stage),
    Two(Stage, Stage),
}

/// The stages that take the place of one, the next to write first: at most two.
#[derive(Clone, Copy)]
pub struct Stages {
    row: StageRow,
}

impl Model for Stages {
    ghost use Rattle.std.specs.Prelude.{◌≡◌, List, refl};
    ghost use Rattle.pm_model.specs.declared.stage.Stage.{Stage};
    ghost use Rattle.pm_model.specs.declared.stage.StageRow.TheVariants.{Zero, One, Two};

    ghost Value = { List Stage };

    ghost use Rattle.pm_model.specs.StageRows.{stages_of, row_of};

    ghost view = { λ s. stages_of s.row };

    ghost inverse = { λ l. record { row = row_of l } };

    ghost inverse_ok = { λ a h. elim a.row as (λ r. let row : Inside = record { row = r } in let again : Inside = record { row = row_of (stages_of r) } in again ≡ row) [ Zero ↦ refl | One s ↦ refl | Two s t ↦ refl ] };
}

impl Stages {
    /// No stage.
    pub fn none() -> Stages
        ensures { result ≡ [] }
    {
        Stages {
            row: StageRow::Zero,
        }
    }

    /// One stage.
    pub fn one(stage: Stage) -> Stages
        ensures { result ≡ stage ∷ [] }
    {
        Stages {
            row: StageRow::One(stage),
        }
    }

    /// A stage over the one that awaits its end.
    pub fn two(called: Stage, under: Stage) -> Stages
        ensures { result ≡ called ∷ under ∷ [] }
    {
        Stages {
            row: StageRow::Two(called, under),
        }
    }

    /// The stages one by one.
    pub fn row(self) -> StageRow
        ensures { stages_of result ≡ self }
    {
        self.row
    }
}

/// What takes the place of a stage after its line.
#[derive(Clone, Copy)]
pub struct Then {
    /// The stages, the next to write first.
    pub push: Stages,
    /// The code, exactly where the stage ends; then `push` is empty.
    pub back: Option<i32>,
}

/// What a row of the call table changes beside what its event changes of itself, in the table's words.
#[derive(Clone, Copy)]
pub enum Change {
    /// Nothing.
    Same,
    /// No request (`runtime_pm.rst`, section 2).
    CancelRequest {
        dev: DevId,
    },
    /// No timer (`runtime_pm.rst`, section 2).
    Disarm {
        dev: DevId,
    },
    /// *cancel*: no request and no timer (`runtime_pm.rst`, section 2).
    Cancel {
        dev: DevId,
    },
    /// *cancel all*: cancel, and nothing queued (`runtime_pm.rst`, section 4, `pm_runtime_barrier`).
    CancelAll {
        dev: DevId,
    },
    /// *rcancel*: no request, and no timer unless an autosuspend armed it (`runtime_pm.rst`, section 2).
    ResumeCancel {
        dev: DevId,
    },
    /// *marks*: where the plan calls the device busy, last busy is the line's time (this project's own).
    CallbackMarks {
        dev: DevId,
    },
    /// marks; where the code isn't 0, no deferred resume; unless it is EAGAIN or EBUSY, cancel
    /// (`runtime_pm.rst`, section 2).
    SuspendEnded {
        dev: DevId,
        code: i32,
    },
    /// Last busy is the line's time (`runtime_pm.rst`, section 9).
    MarkBusy {
        dev: DevId,
    },
    /// Depth less 1, and at 0 the last status is forgotten (`runtime_pm.rst`, sections 3 and 4).
    Enable {
        dev: DevId,
    },
    /// Depth plus 1 (`runtime_pm.rst`, section 4).
    Disable {
        dev: DevId,
    },
    /// Depth plus 1; cancel all (`runtime_pm.rst`, section 4).
    DisableBusy {
        dev: DevId,
    },
    /// Depth plus 1; cancel all; the last status is kept (`runtime_pm.rst`, sections 3 and 4).
    DisableAtOnce {
        dev: DevId,
    },
    /// The last status is kept: whether it was Active (`runtime_pm.rst`, section 3).
    KeepStatus {
        dev: DevId,
    },
    /// The setting of autosuspend: whether it is in use, and its delay in milliseconds, at most
    /// 1,000,000 from 0 (`runtime_pm.rst`, section 9).
    Set {
        dev: DevId,
        use_auto: bool,
        delay: i64,
    },
    /// Whether the device ignores its children (`ignore_children`, this project's own).
    Ignore {
        dev: DevId,
        ignores: bool,
    },
    /// Whether each link of the pair is present (`link_add` and `link_del`, this project's own).
    Link {
        consumer: DevId,
        supplier: DevId,
        present: bool,
    },
}

/// What an actor may do at a stage.
#[derive(Clone, Copy)]
pub enum Move {
    /// The only event that the call table permits, what the row changes beside it, and what takes the
    /// stage's place.
    Write(Event, Change, Then),
    /// The line is due at this moment.
    Late(u64),
    /// The stage waits on this device.
    Wait(DevId),
}

/// What comes of a code that is handed to a stage.
#[derive(Clone, Copy)]
pub enum Handed {
    /// The stage goes on as this one.
    Goes(Stage),
    /// The stage ends without a line, and hands this code on.
    Back(i32),
}
