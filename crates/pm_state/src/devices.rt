//! The device of a stage.

ghost use Rattle.std.specs.Prelude.{◌≡◌};
ghost use Rattle.pm_model.specs.WellFormed.{await_device, called_for, control_device, device_of, helper_device, idle_device, resume_device, suspend_device};

use pm_base::DevId;
use pm_linetext::takes_device;
use pm_model::{
    Await, ControlStage, Helper, HelperStage, IdleStage, ResumeStage, Stage, SuspendStage,
};

// The device of a stage of idle.
fn idle_device(stage: &IdleStage) -> DevId
    ensures { result ≡ idle_device stage.now }
{
    match stage {
        IdleStage::Enter { dev, .. }
        | IdleStage::Verdict { dev, .. }
        | IdleStage::Running { dev, .. }
        | IdleStage::Done { dev, .. }
        | IdleStage::Queued { dev, .. }
        | IdleStage::AfterPut { dev, .. } => *dev,
    }
}

// The device of a stage of suspend.
fn suspend_device(stage: &SuspendStage) -> DevId
    ensures { result ≡ suspend_device stage.now }
{
    match stage {
        SuspendStage::Enter { dev, .. }
        | SuspendStage::Verdict { dev, .. }
        | SuspendStage::Waiting { dev, .. }
        | SuspendStage::Running { dev, .. }
        | SuspendStage::Domain { dev, .. }
        | SuspendStage::Links { dev, .. }
        | SuspendStage::Deferred { dev, .. }
        | SuspendStage::Parent { dev, .. }
        | SuspendStage::Done { dev, .. } => *dev,
    }
}

// The device of a stage of resume.
fn resume_device(stage: &ResumeStage) -> DevId
    ensures { result ≡ resume_device stage.now }
{
    match stage {
        ResumeStage::Enter { call }
        | ResumeStage::Verdict { call, .. }
        | ResumeStage::Waiting { call, .. }
        | ResumeStage::Links { call }
        | ResumeStage::Supplied { call, .. }
        | ResumeStage::Callback { call }
        | ResumeStage::Running { call, .. }
        | ResumeStage::Resumed { call }
        | ResumeStage::Idle { call }
        | ResumeStage::Done { call, .. }
        | ResumeStage::Parent { call, .. }
        | ResumeStage::Domain { call, .. }
        | ResumeStage::Unwind { call, .. } => call.dev,
    }
}

// The device of a stage of a control function.
fn control_device(stage: &ControlStage) -> DevId
    ensures { result ≡ control_device stage.now }
{
    match stage {
        ControlStage::Start { command } => command.dev,
        ControlStage::DisablePut { dev }
        | ControlStage::Disable { dev }
        | ControlStage::Disabled { dev }
        | ControlStage::BarrierResume { dev }
        | ControlStage::BarrierIdle { dev, .. }
        | ControlStage::BarrierWait { dev, .. }
        | ControlStage::ActiveLinks { dev }
        | ControlStage::ActiveUnwind { dev, .. }
        | ControlStage::SuppliersIdle { dev, .. } => *dev,
    }
}

// The device for which a helper is called; a delay has none.
fn called_for(helper: Helper, dev: DevId) -> Option<DevId>
    ensures { result ≡ called_for helper dev }
{
    if takes_device(helper) {
        Some(dev)
    } else {
        None
    }
}

// The device of a stage of a helper, of a work item or of a timer.
fn helper_device(stage: &HelperStage) -> Option<DevId>
    ensures { result ≡ helper_device stage.now }
{
    match stage {
        HelperStage::Call { command } => called_for(command.helper, command.dev),
        HelperStage::Work { dev } | HelperStage::Timer { dev } => Some(*dev),
        HelperStage::Start { command } | HelperStage::PutSuspends { command } => Some(command.dev),
        HelperStage::Delay { .. } => None,
        HelperStage::Ret { helper, dev, .. } => called_for(*helper, *dev),
    }
}

// The device of a stage under a call.
fn await_device(stage: &Await) -> Option<DevId>
    ensures { result ≡ await_device stage.now }
{
    match stage {
        Await::SuspendLinks { dev, .. }
        | Await::SuspendDeferred { dev, .. }
        | Await::SuspendParent { dev, .. }
        | Await::DisableResume { dev }
        | Await::BarrierResume { dev }
        | Await::ActiveSupplier { dev, .. }
        | Await::ActiveUnwind { dev, .. }
        | Await::SuppliersIdle { dev, .. } => Some(*dev),
        Await::ResumeParent { call }
        | Await::ResumeSupplier { call, .. }
        | Await::ResumeIdle { call }
        | Await::ResumeUnwind { call, .. }
        | Await::ResumePut { call, .. } => Some(call.dev),
        Await::Return { helper, dev } | Await::ReturnZero { helper, dev } => called_for(
            *helper, *dev,
        ),
    }
}

/// The device of a stage; a delay has none.
pub fn device_of(stage: &Stage) -> Option<DevId>
    ensures { result ≡ device_of stage.now }
{
    match stage {
        Stage::Idle(stage) => Some(idle_device(stage)),
        Stage::Suspend(stage) => Some(suspend_device(stage)),
        Stage::Resume(stage) => Some(resume_device(stage)),
        Stage::Helper(stage) => helper_device(stage),
        Stage::Control(stage) => Some(control_device(stage)),
        Stage::Await(stage) => await_device(stage),
    }
}
