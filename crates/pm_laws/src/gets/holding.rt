//! Kept: a device stays Active while a `get_sync` that returned 0 or 1 binds it.

ghost use Rattle.std.specs.Prelude.{◌≡◌, true};
ghost use Rattle.pm_base.specs.declared.ActorId.{ActorId};
ghost use Rattle.pm_base.specs.declared.DevId.{DevId};
ghost use Rattle.pm_model.specs.declared.plan.Plan.{Plan};
ghost use Rattle.pm_model.specs.Derived.{is_active};
ghost use Rattle.pm_model.specs.History.{History};
ghost use Rattle.pm_model.specs.Lawful.{IsLawful};
ghost use Rattle.pm_model.specs.Promises.{holds_count, is_kept};
ghost use Rattle.pm_model.specs.World.{place, world};
ghost use Rattle.pm_laws.specs.gets.Answered.{is_answered};

/// Where a resume of a device by a caller's `get_sync` is done and the `get_sync` is to return 0 or 1, the device is
/// Active, while no line has let go of the count that the caller took (this project's own).
pub fn answers_hold()
    ensures { (plan : Plan) (h : History) (a : ActorId) (d : DevId) → IsLawful plan h → is_answered d (place (world plan h) a) ≡ true → holds_count plan d a h ≡ true → is_active (world plan h).views d ≡ true }
{}

/// After every prefix of a lawful list each device is Active that a `get_sync` binds: one that returned 0 or 1, where since
/// its count was taken the callers' counts on the device never all were given back and no line forced its status
/// (this project's own).
pub fn kept()
    ensures { (plan : Plan) (h : History) → IsLawful plan h → is_kept plan h ≡ true }
{}
