//! The lines of resume (`runtime_pm.rst`, sections 2 and 4; `device_link.rst` for the suppliers).
#![tactic(auto)]

ghost use Rattle.std.specs.Prelude.{◌≡◌, ◌+◌, ◌<◌, ◌&&◌, ◌∷◌, ◌^◌, [], if◌then◌else◌, length, not, pos, true};
ghost use Rattle.pm_base.specs.declared.Cb.TheVariants as cb;
ghost use Rattle.pm_base.specs.declared.codes.TheConstants.{EINPROGRESS, NOWAIT};
ghost use Rattle.pm_model.specs.declared.event.Event.TheVariants as event;
ghost use Rattle.pm_model.specs.declared.plan.Plan.{Plan as APlan};
ghost use Rattle.pm_model.specs.declared.event.Word.TheVariants as word;
ghost use Rattle.pm_base.specs.declared.Why.TheVariants as why;
ghost use Rattle.pm_model.specs.declared.stage.Await.TheVariants as await;
ghost use Rattle.pm_model.specs.declared.stage.IdleStage.TheVariants as idle;
ghost use Rattle.pm_model.specs.declared.stage.Change.TheVariants as change;
ghost use Rattle.pm_model.specs.declared.stage.Move.TheVariants as move;
ghost use Rattle.pm_model.specs.declared.stage.ResumeStage.TheVariants as resume;
ghost use Rattle.pm_model.specs.declared.stage.Stage.TheVariants as the_stage;
ghost use Rattle.pm_model.specs.Derived.{begun, first_of, has, is_moving, is_resuming, is_suspending, minds_parent};
ghost use Rattle.pm_model.specs.PlanRows.{has_parent, ms_of, parent_of};
ghost use Rattle.pm_model.specs.ResumeTable.{resume_goes, leaves, resume_begins, resume_domain, resume_ends, resume_links, resume_row, resume_unwinds, resume_verdict, resume_returns};
ghost use Rattle.pm_model.specs.Row.{calls, idles, move_of, resumes, timed, waits};
ghost use Rattle.pm_model.specs.SuspendTable.{may_not_wait};
ghost use Rattle.pm_model.specs.WellFormed.{is_well_formed};
ghost use Rattle.pm_model.specs.World.{due};
ghost use Rattle.pm_device.specs.Parts.{IsFor};

use pm_base::{ASYNC, Cb, DevId, EACCES, EBUSY, EINPROGRESS, EINVAL, NOWAIT, Req, Why};
use pm_device::{
    Parts, back, calls, goes, has, has_domain, has_parent, may_not_wait, ms_of, no_callbacks,
    parent_of, supplier_call,
};
use pm_model::{
    Await, Change, Event, IdleStage, Move, Plan, Purpose, ResumeCall, ResumeStage, Stage, Then,
    Word, WorkAct, is_supplied,
};

// A stage of resume takes the place.
fn resume_goes(stage: ResumeStage) -> Then
    ensures { result ≡ resume_goes stage }
{
    goes(Stage::Resume(stage))
}

// After the return line: the count on the parent is given back where it is held, else the call ends.
#[tactic(auto, unfolding(pm_model::specs::ResumeTable::leaves))]
fn leaves(plan: &Plan, call: ResumeCall, code: i32) -> Then
    requires { call.dev.0 < length plan.now.devices }
    ensures { result ≡ leaves plan.now call code }
{
    if call.held && has_parent(plan, call.dev) {
        resume_goes(ResumeStage::Parent { call, code })
    } else {
        back(code)
    }
}

// The return line.
fn resume_returns(plan: &Plan, call: ResumeCall, code: i32, change: Change, out: &mut Move)
    requires { call.dev.0 < length plan.now.devices }
    ensures { out.new ≡ move_of (resume_returns plan.now call code change) }
{
    *out = Move::Write(
        Event::Return {
            func: Cb::Resume,
            dev: call.dev,
            code,
        },
        change,
        leaves(plan, call, code),
    );
}

// The resume waits for the end of the suspend that is under way, and its caller doesn't.
fn defers(parts: &Parts, dev: DevId, flags: u8) -> bool
    requires { dev.0 < length parts.now.shape.parents }
    ensures { result ≡ (is_suspending parts.now.views dev && may_not_wait flags) }
{
    parts.is_suspending(dev) && may_not_wait(flags)
}

// The same resume is under way, and the caller doesn't wait for it.
fn is_under_way(parts: &Parts, dev: DevId, flags: u8) -> bool
    requires { dev.0 < length parts.now.shape.parents }
    ensures { result ≡ (is_resuming parts.now.views dev && may_not_wait flags) }
{
    parts.is_resuming(dev) && may_not_wait(flags)
}

// No count on the parent is held yet.
fn takes_parent(plan: &Plan, call: ResumeCall) -> bool
    requires { call.dev.0 < length plan.now.devices }
    ensures { result ≡ (has_parent plan.now call.dev && not call.held) }
{
    has_parent(plan, call.dev) && !call.held
}

// The parent is to be resumed, and that hasn't been tried yet.
fn calls_parent(plan: &Plan, parts: &Parts, dev: DevId, tried: bool) -> bool
    requires made_for { IsFor plan.now parts.now.shape }
    requires in_range { dev.0 < length plan.now.devices }
    ensures { result ≡ (minds_parent plan.now parts.now.views dev && not tried) }
{
    parts.minds_parent(plan, dev) && !tried
}

// What the caller of a deferred resume is answered.
fn deferred_code(flags: u8) -> i32
    ensures { result ≡ (if has flags NOWAIT then EINPROGRESS else pos 0) }
{
    if has(flags, NOWAIT) { EINPROGRESS } else { 0 }
}

// R1
#[tactic(auto, unfolding(pm_model::specs::ResumeTable::resume_verdict))]
fn verdict(plan: &Plan, parts: &Parts, call: ResumeCall, tried: bool, out: &mut Move)
    requires made_for { IsFor plan.now parts.now.shape }
    requires in_range { call.dev.0 < length plan.now.devices }
    ensures { out.new ≡ move_of (resume_verdict plan.now parts.now.views call tried) }
{
    let dev = call.dev;
    let flags = call.flags;
    let cancel = Change::ResumeCancel { dev };
    if parts.has_error(dev) {
        resume_returns(plan, call, EINVAL, Change::Same, out);
        return;
    }
    if parts.was_active(dev) {
        resume_returns(plan, call, 1, Change::Same, out);
        return;
    }
    if parts.is_disabled(dev) {
        resume_returns(plan, call, EACCES, Change::Same, out);
        return;
    }
    if parts.is_active(dev) {
        resume_returns(plan, call, 1, cancel, out);
        return;
    }
    if defers(parts, dev, flags) {
        let code = deferred_code(flags);
        *out = Move::Write(
            Event::Work {
                dev,
                act: WorkAct::Defer,
            },
            cancel,
            resume_goes(ResumeStage::Done { call, code }),
        );
        return;
    }
    if is_under_way(parts, dev, flags) {
        resume_returns(plan, call, EINPROGRESS, cancel, out);
        return;
    }
    if parts.is_moving(dev) {
        *out = Move::Write(
            Event::Wait { dev },
            cancel,
            resume_goes(ResumeStage::Waiting { call, tried }),
        );
        return;
    }
    if has(flags, ASYNC) {
        *out = Move::Write(
            Event::Work {
                dev,
                act: WorkAct::Queue(Req::Resume),
            },
            cancel,
            resume_goes(ResumeStage::Done { call, code: 0 }),
        );
        return;
    }
    let parent = parent_of(plan, dev);
    if takes_parent(plan, call) {
        let call = ResumeCall { held: true, ..call };
        *out = Move::Write(
            Event::Get {
                dev: parent,
                why: Why::Child(dev),
            },
            cancel,
            resume_goes(ResumeStage::Verdict { call, tried }),
        );
        return;
    }
    if calls_parent(plan, parts, dev, tried) {
        *out = parts.calls_resume(parent, 0, Purpose::Child, Await::ResumeParent { call });
        return;
    }
    if parts.awaits_parent(plan, dev) {
        resume_returns(plan, call, EBUSY, cancel, out);
        return;
    }
    if no_callbacks(plan, dev) {
        *out = Move::Write(
            Event::State {
                dev,
                word: Word::Active,
            },
            cancel,
            resume_goes(ResumeStage::Idle { call }),
        );
        return;
    }
    *out = Move::Write(
        Event::State {
            dev,
            word: Word::Resuming,
        },
        cancel,
        resume_goes(ResumeStage::Links { call }),
    );
}

// R1 after its wait line.
fn waiting(plan: &Plan, parts: &Parts, call: ResumeCall, tried: bool, out: &mut Move)
    requires made_for { IsFor plan.now parts.now.shape }
    requires in_range { call.dev.0 < length plan.now.devices }
    ensures { out.new ≡ move_of (first_of ((is_moving parts.now.views call.dev, waits call.dev) ∷ []) (resume_verdict plan.now parts.now.views call tried)) }
{
    if parts.is_moving(call.dev) {
        *out = Move::Wait(call.dev);
    } else {
        verdict(plan, parts, call, tried, out);
    }
}

// R4
fn begins(call: ResumeCall, time: u64, out: &mut Move)
    ensures { out.new ≡ move_of (resume_begins call time) }
{
    *out = Move::Write(
        Event::Begin {
            dev: call.dev,
            cb: Cb::Resume,
        },
        Change::Same,
        resume_goes(ResumeStage::Running { call, since: time }),
    );
}

// R2
#[tactic(auto, unfolding(pm_model::specs::ResumeTable::resume_links))]
fn links(plan: &Plan, parts: &Parts, call: ResumeCall, time: u64, out: &mut Move)
    requires made_for { IsFor plan.now parts.now.shape }
    requires in_range { call.dev.0 < length plan.now.devices }
    ensures { out.new ≡ move_of (resume_links plan.now parts.now.views call time) }
{
    let dev = call.dev;
    match parts.first_free(plan, dev) {
        Some((link, supplier)) => {
            *out = Move::Write(
                Event::Get {
                    dev: supplier,
                    why: Why::Link(dev),
                },
                Change::Same,
                calls(
                    supplier_call(link, supplier),
                    Await::ResumeSupplier { call, link },
                ),
            );
        }
        None => {
            if has_domain(plan, dev) {
                *out = Move::Write(
                    Event::Domain {
                        dev,
                        up: true,
                        count: parts.up_count(plan, dev),
                    },
                    Change::Same,
                    resume_goes(ResumeStage::Callback { call }),
                );
            } else {
                begins(call, time, out);
            }
        }
    }
}

// R9
#[tactic(auto, unfolding(pm_model::specs::ResumeTable::resume_unwinds))]
fn unwinds(plan: &Plan, parts: &Parts, call: ResumeCall, code: i32, out: &mut Move)
    requires made_for { IsFor plan.now parts.now.shape }
    requires in_range { call.dev.0 < length plan.now.devices }
    ensures { out.new ≡ move_of (resume_unwinds plan.now parts.now.views call code) }
{
    let dev = call.dev;
    match parts.first_held(plan, dev) {
        Some((_, supplier)) => {
            *out = Move::Write(
                Event::Put {
                    dev: supplier,
                    why: Why::Link(dev),
                },
                Change::Same,
                calls(
                    Stage::Idle(IdleStage::AfterPut {
                        dev: supplier,
                        flags: 5,
                    }),
                    Await::ResumeUnwind { call, code },
                ),
            );
        }
        None => {
            *out = Move::Write(
                Event::State {
                    dev,
                    word: Word::Suspended,
                },
                Change::Same,
                resume_goes(ResumeStage::Done { call, code }),
            );
        }
    }
}

// R8
#[tactic(auto, unfolding(pm_model::specs::ResumeTable::resume_domain))]
fn domain(plan: &Plan, parts: &Parts, call: ResumeCall, code: i32, out: &mut Move)
    requires made_for { IsFor plan.now parts.now.shape }
    requires in_range { call.dev.0 < length plan.now.devices }
    ensures { out.new ≡ move_of (resume_domain plan.now parts.now.views call code) }
{
    let dev = call.dev;
    if has_domain(plan, dev) {
        *out = Move::Write(
            Event::Domain {
                dev,
                up: false,
                count: parts.down_count(plan, dev),
            },
            Change::Same,
            resume_goes(ResumeStage::Unwind { call, code }),
        );
        return;
    }
    unwinds(plan, parts, call, code, out);
}

// R3
fn supplied(plan: &Plan, parts: &Parts, call: ResumeCall, code: i32, time: u64, out: &mut Move)
    requires made_for { IsFor plan.now parts.now.shape }
    requires in_range { call.dev.0 < length plan.now.devices }
    ensures { out.new ≡ move_of (resume_row plan.now parts.now.views (resume.Supplied call code) time) }
{
    if is_supplied(code) {
        links(plan, parts, call, time, out);
    } else {
        unwinds(plan, parts, call, code, out);
    }
}

// R4b
#[tactic(auto, unfolding(pm_model::specs::ResumeTable::resume_ends))]
fn ends(plan: &Plan, parts: &Parts, call: ResumeCall, out: &mut Move)
    requires made_for { IsFor plan.now parts.now.shape }
    requires in_range { call.dev.0 < length plan.now.devices }
    requires begun { 0 < begun parts.now.views cb.Resume call.dev }
    ensures { out.new ≡ move_of (resume_ends plan.now parts.now.views call) }
{
    let dev = call.dev;
    let code = parts.callback_code(plan, Cb::Resume, dev);
    let ended = Event::End {
        dev,
        cb: Cb::Resume,
        code,
    };
    if code == 0 {
        *out = Move::Write(
            ended,
            Change::Same,
            resume_goes(ResumeStage::Resumed { call }),
        );
    } else {
        *out = Move::Write(
            ended,
            Change::Cancel { dev },
            resume_goes(ResumeStage::Domain { call, code }),
        );
    }
}

// R4b, once its callback's time has passed.
fn running(plan: &Plan, parts: &Parts, call: ResumeCall, since: u64, time: u64, out: &mut Move)
    requires made_for { IsFor plan.now parts.now.shape }
    requires in_range { call.dev.0 < length plan.now.devices }
    requires begun { 0 < begun parts.now.views cb.Resume call.dev }
    requires reckons { since + ms_of plan.now cb.Resume call.dev < 2 ^ 64 }
    ensures { out.new ≡ timed (since + ms_of plan.now cb.Resume call.dev) time (resume_ends plan.now parts.now.views call) }
{
    let due = since + u64::from(ms_of(plan, Cb::Resume, call.dev));
    if time < due {
        *out = Move::Late(due);
    } else {
        ends(plan, parts, call, out);
    }
}

// R7
fn gives_parent(plan: &Plan, call: ResumeCall, code: i32, out: &mut Move)
    requires { call.dev.0 < length plan.now.devices }
    ensures { out.new ≡ move.Write (event.Put (parent_of plan.now call.dev) (why.Child call.dev)) change.Same (calls (the_stage.Idle (idle.AfterPut (parent_of plan.now call.dev) 5)) (await.ResumePut call code)) }
{
    let parent = parent_of(plan, call.dev);
    *out = Move::Write(
        Event::Put {
            dev: parent,
            why: Why::Child(call.dev),
        },
        Change::Same,
        calls(
            Stage::Idle(IdleStage::AfterPut {
                dev: parent,
                flags: 5,
            }),
            Await::ResumePut { call, code },
        ),
    );
}

// R4c
fn resumed(call: ResumeCall, out: &mut Move)
    ensures { out.new ≡ move.Write (event.State call.dev word.Active) change.Same (resume_goes (resume.Idle call)) }
{
    *out = Move::Write(
        Event::State {
            dev: call.dev,
            word: Word::Active,
        },
        Change::Same,
        resume_goes(ResumeStage::Idle { call }),
    );
}

// The first line of a resume.
fn enters(parts: &Parts, call: ResumeCall, out: &mut Move)
    requires { call.dev.0 < length parts.now.shape.parents }
    ensures { (plan : APlan) → IsFor plan parts.now.shape → out.new ≡ move_of (resumes plan parts.now.views call.dev call.flags call.purpose []) }
{
    *out = parts.resumes(call.dev, call.flags, call.purpose);
}

// R5
fn calls_idle(parts: &Parts, call: ResumeCall, out: &mut Move)
    requires { call.dev.0 < length parts.now.shape.parents }
    ensures { (plan : APlan) → IsFor plan parts.now.shape → out.new ≡ move_of (idles plan parts.now.views call.dev 1 change.Same ((the_stage.Await (await.ResumeIdle call)) ∷ [])) }
{
    *out = parts.calls_idle(call.dev, 1, Change::Same, Await::ResumeIdle { call });
}

/// The only move at a stage of resume: its line, with what takes the stage's place; or the moment at
/// which its line is due, where that is later than `time` (milliseconds of the run); or the device for
/// which it waits. It takes no memory.
pub fn next(plan: &Plan, parts: &Parts, stage: ResumeStage, time: u64) -> Move
    requires made_for { IsFor plan.now parts.now.shape }
    requires well_formed { is_well_formed plan.now parts.now.views (the_stage.Resume stage) ≡ true }
    ensures { result ≡ timed (due plan.now parts.now.views (the_stage.Resume stage)) time (resume_row plan.now parts.now.views stage time) }
{
    let mut out = Move::Late(time);
    write_next(plan, parts, stage, time, &mut out);
    out
}

/// Puts what `next` answers in `out`, which its caller keeps, since a move is large. It takes no
/// memory.
#[inline(always)]
pub fn write_next(plan: &Plan, parts: &Parts, stage: ResumeStage, time: u64, out: &mut Move)
    requires made_for { IsFor plan.now parts.now.shape }
    requires well_formed { is_well_formed plan.now parts.now.views (the_stage.Resume stage) ≡ true }
    ensures { out.new ≡ timed (due plan.now parts.now.views (the_stage.Resume stage)) time (resume_row plan.now parts.now.views stage time) }
{
    match stage {
        ResumeStage::Enter { call } => {
            enters(parts, call, out);
        }
        ResumeStage::Verdict { call, tried } => {
            verdict(plan, parts, call, tried, out);
        }
        ResumeStage::Waiting { call, tried } => {
            waiting(plan, parts, call, tried, out);
        }
        ResumeStage::Links { call } => {
            links(plan, parts, call, time, out);
        }
        ResumeStage::Supplied { call, code } => {
            supplied(plan, parts, call, code, time, out);
        }
        ResumeStage::Callback { call } => {
            begins(call, time, out);
        }
        ResumeStage::Running { call, since } => {
            running(plan, parts, call, since, time, out);
        }
        ResumeStage::Resumed { call } => {
            resumed(call, out);
        }
        ResumeStage::Idle { call } => {
            calls_idle(parts, call, out);
        }
        ResumeStage::Done { call, code } => {
            resume_returns(plan, call, code, Change::Same, out);
        }
        ResumeStage::Parent { call, code } => {
            gives_parent(plan, call, code, out);
        }
        ResumeStage::Domain { call, code } => {
            domain(plan, parts, call, code, out);
        }
        ResumeStage::Unwind { call, code } => {
            unwinds(plan, parts, call, code, out);
        }
    }
}
