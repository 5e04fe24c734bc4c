//! Requests of three devices.

ghost use Rattle.std.specs.Prelude.{◌≡◌, length};

use pm_base::{DevId, Req};
use pm_planread::PlanFault;
use pm_request::Requests;
use std::alloc::Global;

/// What is done with the requests of a device, or asked of them with what they must answer.
#[derive(Clone, Copy)]
pub enum Step {
    Place(Req),
    Defer,
    Cancel,
    Clear,
    // What is asked of a queued device.
    Run(Req),
    Queued(bool),
    Request(Req),
    Deferred(bool),
}

use Step::*;

const A: DevId = DevId(0);

const B: DevId = DevId(2);

/// What is shown, and the steps in turn.
pub static CASES: [(&str, &[(DevId, Step)]); 1] = cases! {
    "requests, a request is placed, run and cancelled" => {
        (A, Place(Req::Idle)); (B, Place(Req::Autosuspend)); (B, Defer); (A, Cancel);
        (A, Queued(true)); (A, Request(Req::Nothing)); (A, Deferred(false));
        (B, Deferred(true)); (B, Queued(true)); (B, Run(Req::Autosuspend)); (B, Queued(false));
        (B, Request(Req::Nothing)); (A, Place(Req::Resume)); (A, Clear); (A, Queued(false));
        (A, Request(Req::Nothing));
    }
};

/// Takes a step, and says whether it could be taken and answered as it must.
fn takes(requests: &mut Requests, dev: DevId, step: Step) -> bool
    requires { length requests.old ≡ 3 }
    ensures { length requests.new ≡ 3 }
{
    if dev.0 >= 3 {
        return false;
    }
    match step {
        Place(req) => requests.place(dev, req),
        Defer => requests.set_deferred(dev, true),
        Cancel => requests.cancel(dev),
        Clear => requests.clear(dev),
        Run(req) if requests.queued(dev) => return requests.run(dev) == req,
        Run(_) => return false,
        Queued(is_queued) => return requests.queued(dev) == is_queued,
        Request(req) => return requests.request(dev) == req,
        Deferred(is_deferred) => return requests.deferred(dev) == is_deferred,
    }
    true
}

/// Whether the requests take the steps.
pub fn shows(alloc: Global, rows: &[(DevId, Step)]) -> Result<bool, PlanFault> {
    let mut requests = Requests::fresh(alloc, 3)?;
    let mut is_shown = true;
    for (dev, step) in rows {
        is_shown &= takes(&mut requests, *dev, *step);
    }
    Ok(is_shown)
}
