//! Where a stage goes on after a call.

ghost use Rattle.std.specs.Prelude.{◌≡◌};
ghost use Rattle.pm_model.specs.Handing.{take_code};
ghost use Rattle.pm_model.specs.ResumeTable.{is_supplied};

use crate::stage::{Await, ControlStage, Handed, HelperStage, ResumeStage, Stage, SuspendStage};
use pm_base::{EACCES, EAGAIN};

/// Whether a supplier whose resume answered this code is up, or disabled.
pub fn is_supplied(code: i32) -> bool
    ensures { result ≡ is_supplied code }
{
    code == 0 || code == 1 || code == EACCES
}

/// Where a stage goes on after a call that answered this code. It takes no memory.
#[tactic(auto, unfolding(crate::specs::Handing::take_code))]
pub fn take_code(stage: Await, code: i32) -> Handed
    ensures { result ≡ take_code stage code }
{
    let next = match stage {
        Await::SuspendLinks { dev, flags } => Stage::Suspend(SuspendStage::Links { dev, flags }),
        Await::SuspendDeferred { dev, flags } => Stage::Suspend(SuspendStage::Done {
            dev,
            flags,
            code: EAGAIN,
        }),
        Await::SuspendParent { dev, flags } => Stage::Suspend(SuspendStage::Done {
            dev,
            flags,
            code: 0,
        }),
        Await::ResumeParent { call } => Stage::Resume(ResumeStage::Verdict { call, tried: true }),
        Await::ResumeSupplier { call, .. } => Stage::Resume(ResumeStage::Supplied { call, code }),
        Await::ResumeIdle { call } => Stage::Resume(ResumeStage::Done { call, code: 0 }),
        Await::ResumeUnwind { call, code } => Stage::Resume(ResumeStage::Unwind { call, code }),
        Await::ResumePut { code, .. } => return Handed::Back(code),
        Await::Return { helper, dev } => Stage::Helper(HelperStage::Ret { helper, dev, code }),
        Await::ReturnZero { helper, dev } => Stage::Helper(HelperStage::Ret {
            helper,
            dev,
            code: 0,
        }),
        Await::DisableResume { dev } => Stage::Control(ControlStage::DisablePut { dev }),
        Await::BarrierResume { dev } => Stage::Control(ControlStage::BarrierIdle { dev, code: 1 }),
        Await::ActiveSupplier { dev, .. } => Stage::Control(if is_supplied(code) {
            ControlStage::ActiveLinks { dev }
        } else {
            ControlStage::ActiveUnwind { dev, code }
        }),
        Await::ActiveUnwind { dev, code } => Stage::Control(ControlStage::ActiveUnwind {
            dev,
            code,
        }),
        Await::SuppliersIdle { dev, supplier } => Stage::Control(ControlStage::SuppliersIdle {
            dev,
            last: Some(supplier),
        }),
    };
    Handed::Goes(next)
}
