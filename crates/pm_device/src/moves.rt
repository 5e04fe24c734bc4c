//! The moves of the call table, in its own words: what takes the place of a stage, and the first
//! lines of idle, of suspend and of resume (this project's own).

ghost use Rattle.std.specs.Prelude.{◌≡◌, ◌<◌, ◌∷◌, [], false, length};
ghost use Rattle.pm_model.specs.declared.event.Event.TheVariants as event;
ghost use Rattle.pm_model.specs.declared.plan.Plan.{Plan as APlan};
ghost use Rattle.pm_model.specs.declared.stage.Change.TheVariants.{Same};
ghost use Rattle.pm_model.specs.declared.stage.Move.TheVariants as move;
ghost use Rattle.pm_model.specs.declared.stage.ResumeStage.TheVariants as resume;
ghost use Rattle.pm_model.specs.declared.stage.Stage.TheVariants as the_stage;
ghost use Rattle.pm_model.specs.HelperTable.{then_returns, to_resume};
ghost use Rattle.pm_model.specs.ResumeTable.{resumes_supplier};
ghost use Rattle.pm_model.specs.Row.{back, calls, goes, idles, move_of, resumes, suspends};
ghost use Rattle.pm_device.specs.Parts.{IsFor};

use crate::Parts;
use pm_base::{Cb, DevId};
use pm_model::{
    Await, Change, Event, Helper, HelperStage, IdleStage, Move, Purpose, ResumeCall, ResumeStage,
    Stage, Stages, SuspendStage, Then,
};

/// The stage gives way to this one.
pub fn goes(stage: Stage) -> Then
    ensures { result ≡ goes stage }
{
    Then {
        push: Stages::one(stage),
        back: None,
    }
}

/// A called stage, over the one that awaits its end.
pub fn calls(called: Stage, under: Await) -> Then
    ensures { result ≡ calls called under }
{
    Then {
        push: Stages::two(called, Stage::Await(under)),
        back: None,
    }
}

/// The stage ends with this code.
pub fn back(code: i32) -> Then
    ensures { result ≡ back code }
{
    Then {
        push: Stages::none(),
        back: Some(code),
    }
}

/// A return line, after which the call ends with its code.
pub fn call_returns(func: Cb, dev: DevId, code: i32, change: Change) -> Move
    ensures { result ≡ move.Write (event.Return func dev code) change (back code) }
{
    Move::Write(Event::Return { func, dev, code }, change, back(code))
}

/// The return line of a helper, after which its actor's place is empty.
pub fn helper_returns(helper: Helper, dev: DevId, code: i32, change: Change) -> Move
    ensures { result ≡ move.Write (event.Ret helper dev code) change (back code) }
{
    Move::Write(Event::Ret { helper, dev, code }, change, back(code))
}

/// The return line of a helper comes next.
pub fn then_returns(helper: Helper, dev: DevId, code: i32) -> Then
    ensures { result ≡ then_returns helper dev code }
{
    goes(Stage::Helper(HelperStage::Ret { helper, dev, code }))
}

/// The first stage of a resume for the device itself.
pub fn to_resume(dev: DevId, flags: u8) -> Stage
    ensures { result ≡ to_resume dev flags }
{
    Stage::Resume(ResumeStage::Enter {
        call: ResumeCall {
            dev,
            flags,
            held: false,
            purpose: Purpose::Plain,
        },
    })
}

/// The first stage of a resume of a supplier, for the link of this number.
pub fn supplier_call(link: u32, supplier: DevId) -> Stage
    ensures { result ≡ resumes_supplier (link, supplier) }
{
    Stage::Resume(ResumeStage::Enter {
        call: ResumeCall {
            dev: supplier,
            flags: 4,
            held: false,
            purpose: Purpose::Link(link),
        },
    })
}

impl Parts {
    /// The first line of an idle, which takes the place of the stage.
    pub fn idles(&self, dev: DevId, flags: u8) -> Move
        requires { dev.0 < length self.now.shape.parents }
        ensures { (plan : APlan) → IsFor plan self.now.shape → result ≡ move_of (idles plan self.now.views dev flags Same []) }
    {
        let stage = Stage::Idle(IdleStage::Verdict { dev, flags });
        Move::Write(
            Event::Idle {
                dev,
                fields: self.fields(dev, flags),
            },
            Change::Same,
            goes(stage),
        )
    }

    /// The first line of an idle, called over the stage that awaits its end.
    pub fn calls_idle(&self, dev: DevId, flags: u8, change: Change, under: Await) -> Move
        requires { dev.0 < length self.now.shape.parents }
        ensures { (plan : APlan) → IsFor plan self.now.shape → result ≡ move_of (idles plan self.now.views dev flags change (the_stage.Await under ∷ [])) }
    {
        let stage = Stage::Idle(IdleStage::Verdict { dev, flags });
        Move::Write(
            Event::Idle {
                dev,
                fields: self.fields(dev, flags),
            },
            change,
            calls(stage, under),
        )
    }

    /// The first line of a suspend, which takes the place of the stage.
    pub fn suspends(&self, dev: DevId, flags: u8) -> Move
        requires { dev.0 < length self.now.shape.parents }
        ensures { (plan : APlan) → IsFor plan self.now.shape → result ≡ move_of (suspends plan self.now.views dev flags []) }
    {
        let stage = Stage::Suspend(SuspendStage::Verdict { dev, flags });
        Move::Write(
            Event::Suspend {
                dev,
                fields: self.fields(dev, flags),
            },
            Change::Same,
            goes(stage),
        )
    }

    /// The first line of a suspend, called over the stage that awaits its end.
    pub fn calls_suspend(&self, dev: DevId, flags: u8, under: Await) -> Move
        requires { dev.0 < length self.now.shape.parents }
        ensures { (plan : APlan) → IsFor plan self.now.shape → result ≡ move_of (suspends plan self.now.views dev flags (the_stage.Await under ∷ [])) }
    {
        let stage = Stage::Suspend(SuspendStage::Verdict { dev, flags });
        Move::Write(
            Event::Suspend {
                dev,
                fields: self.fields(dev, flags),
            },
            Change::Same,
            calls(stage, under),
        )
    }

    /// The first line of a resume, which takes the place of the stage.
    pub fn resumes(&self, dev: DevId, flags: u8, purpose: Purpose) -> Move
        requires { dev.0 < length self.now.shape.parents }
        ensures { (plan : APlan) → IsFor plan self.now.shape → result ≡ move_of (resumes plan self.now.views dev flags purpose []) }
    {
        let stage = Stage::Resume(first_of_resume(dev, flags, purpose));
        Move::Write(
            Event::Resume {
                dev,
                fields: self.fields(dev, flags),
            },
            Change::Same,
            goes(stage),
        )
    }

    /// The first line of a resume, called over the stage that awaits its end.
    pub fn calls_resume(&self, dev: DevId, flags: u8, purpose: Purpose, under: Await) -> Move
        requires { dev.0 < length self.now.shape.parents }
        ensures { (plan : APlan) → IsFor plan self.now.shape → result ≡ move_of (resumes plan self.now.views dev flags purpose (the_stage.Await under ∷ [])) }
    {
        let stage = Stage::Resume(first_of_resume(dev, flags, purpose));
        Move::Write(
            Event::Resume {
                dev,
                fields: self.fields(dev, flags),
            },
            Change::Same,
            calls(stage, under),
        )
    }
}

// The stage of a resume after its first line.
fn first_of_resume(dev: DevId, flags: u8, purpose: Purpose) -> ResumeStage
    ensures { result ≡ resume.Verdict (record { dev = dev; flags = flags; held = false; purpose = purpose }) false }
{
    let call = ResumeCall {
        dev,
        flags,
        held: false,
        purpose,
    };
    ResumeStage::Verdict { call, tried: false }
}
