//! Where an observation is at home.

ghost use Rattle.std.specs.Prelude.{◌≡◌, ◌++◌, OnOk, length, nat_le};
ghost use Rattle.std.specs.List.{list_any, range_with_len};
ghost use Rattle.pm_outcomes.specs.islands.Homes.{at_home, has_rest, home};
ghost use Rattle.pm_islands.specs.Numbers.{island_in};
ghost use Rattle.pm_model.specs.Islands.{the_caller, the_device};

use crate::list::{Observation, Outcome};
use pm_base::{ActorId, DevId, NoMemory};
use pm_islands::IslandNumbers;
use pm_model::Plan;

// The number of a caller's island, or how many islands there are where it isn't the plan's.
fn caller_home(numbers: &IslandNumbers, caller: u32) -> u32
    ensures { result ≡ island_in numbers.now (the_caller caller) }
{
    numbers
        .island_of(ActorId::Caller(caller))
        .unwrap_or(numbers.count())
}

// The number of a device's island, or how many islands there are where no caller is connected with it.
fn device_home(numbers: &IslandNumbers, dev: DevId) -> u32
    ensures { result ≡ island_in numbers.now (the_device dev.0) }
{
    numbers.island_of_device(dev).unwrap_or(numbers.count())
}

/// The number of the island where an observation is at home, or how many islands there are where it has none.
pub fn home_of(numbers: &IslandNumbers, observation: &Observation) -> u32
    ensures { result ≡ home (island_in numbers.now) observation.now }
{
    match observation {
        Observation::Return(returned) => caller_home(numbers, returned.caller),
        Observation::End(left) => device_home(numbers, left.device),
    }
}

/// Puts those of the outcomes that are at home on an island behind those that are there.
pub fn push_own(
    observations: &mut Vec<Outcome>,
    outcomes: &[Outcome],
    numbers: &IslandNumbers,
    island: u32,
) -> Result<(), NoMemory>
    ensures { OnOk result (observations.new.items ≡ observations.old.items ++ at_home (island_in numbers.now) island outcomes.now) }
{
    for outcome in outcomes {
        if home_of(numbers, &outcome.observation) == island {
            observations.push(*outcome)?;
        }
    }
    Ok(())
}

// Whether a device has no island.
fn is_loose(numbers: &IslandNumbers, dev: DevId) -> bool
    ensures { result ≡ nat_le numbers.now.count (island_in numbers.now (the_device dev.0)) }
{
    device_home(numbers, dev) >= numbers.count()
}

// Whether some device has no island.
fn has_loose(plan: &Plan, numbers: &IslandNumbers) -> bool
    ensures { result ≡ list_any (λ d. nat_le numbers.now.count (island_in numbers.now (the_device d))) (range_with_len 0 (length plan.now.devices)) }
{
    for device in 0..plan.devices.len() {
        if is_loose(numbers, DevId(device as u32)) {
            return true;
        }
    }
    false
}

/// Whether some device has no island, or there is none.
pub fn has_rest(plan: &Plan, numbers: &IslandNumbers) -> bool
    ensures { result ≡ has_rest plan.now (island_in numbers.now) numbers.now.count }
{
    numbers.count() == 0 || has_loose(plan, numbers)
}
