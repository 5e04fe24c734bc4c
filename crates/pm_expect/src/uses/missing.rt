//! What a device lacks to be used.

ghost use Rattle.std.specs.Prelude.{◌≡◌, ◌<◌, length};
ghost use Rattle.pm_base.specs.declared.DevId.{DevId};
ghost use Rattle.pm_device.specs.Parts.{IsFor};
ghost use Rattle.pm_model.specs.declared.plan.Plan.{Plan as ThePlan};
ghost use Rattle.pm_model.specs.History.{History};
ghost use Rattle.pm_model.specs.Lawful.{IsLawful};
ghost use Rattle.pm_model.specs.World.{world};
ghost use Rattle.pm_expect.specs.uses.Lacks.{lack_now, lack_of};

use crate::verdicts::Lack;
use pm_base::DevId;
use pm_device::Parts;
use pm_laws::safe::runs_are_safe;
use pm_model::Plan;
use pm_safety::dependencies::off_domain;

/// A line at which a device lacks something, and what.
#[derive(Clone, Copy, PartialEq, Eq)]
pub struct Missed {
    /// Counted from 1.
    pub line: u32,
    pub lack: Lack,
}

/// What a device lacks, by the counters: to be Active, or a domain that is on.
pub(crate) fn lack_now(parts: &Parts, plan: &Plan, dev: DevId) -> Option<Lack>
    requires made_for { IsFor plan.now parts.now.shape }
    requires in_range { dev.0 < length plan.now.devices }
    ensures { result ≡ lack_now plan.now parts.now.views dev }
{
    if !parts.is_active(dev) {
        return Some(Lack::Inactive {
            status: parts.device(dev).status,
        });
    }
    match off_domain(parts, plan, dev) {
        Some(domain) => Some(Lack::Domain { domain }),
        None => None,
    }
}

/// In a lawful run a device that is Active lacks no parent and no supplier: each of them is Active, or the device is
/// excused from it (`runtime_pm.rst`, section 2; `device_link.rst`).
pub fn excused_bonds_lack_nothing()
    ensures { (plan : ThePlan) (h : History) (d : DevId) → IsLawful plan h → d.0 < length plan.devices → lack_of plan h d ≡ lack_now plan (world plan h).views d }
{
    runs_are_safe();
}
