//! For how many open stages places have room.

ghost use Rattle.std.specs.Prelude.{ℕ, ◌≡◌, ◌+◌, ◌-◌, ◌≤◌, ◌<◌, ◌^◌, length, map, max, true};
ghost use Rattle.pm_model.specs.PlanRows.{parent};
ghost use Rattle.pm_base.specs.declared.DevId.{DevId as ADevId};
ghost use Rattle.pm_laws.specs.stacks.Depth.{longest_chain, longest_of};
ghost use Rattle.pm_driver_search.specs.Standing.{added_by};
ghost use Rattle.pm_state.specs.Places.{HasRoom};

use pm_base::DevId;
use pm_model::{Plan, Stage, StageRow, Then};
use pm_state::few;

// The parent of a device.
#[tactic(auto, unfolding(pm_model::specs::PlanRows::parent))]
fn parent_of(plan: &Plan, dev: DevId) -> Option<DevId>
    ensures { result ≡ parent plan.now dev }
{
    match plan.devices.as_slice().get(dev.0 as usize) {
        Some(row) => row.parent,
        None => None,
    }
}

// How many devices stand on some chain from a device by parents and suppliers, of at most so many steps.
#[tactic(auto, using(crate::proofs::RoomLemmas::by_parent, crate::proofs::RoomLemmas::by_none, crate::proofs::RoomLemmas::by_link))]
fn chain_from(plan: &Plan, steps: u32, dev: DevId) -> u32
    requires { steps < 2 ^ 31 }
    ensures low { result ≤ longest_of plan.now steps dev }
    ensures few { result ≤ steps + 1 }
{
    if steps == 0 {
        return 1;
    }
    let mut most = match parent_of(plan, dev) {
        Some(parent) => chain_from(plan, steps - 1, parent),
        None => 0,
    };
    for link in plan.links.as_slice() {
        if link.consumer == dev && link.pm_runtime {
            most = most.max(chain_from(plan, steps - 1, link.supplier));
        }
    }
    1 + most
}

// Three more than devices stand on some chain.
#[tactic(auto, unfolding(pm_laws::specs::stacks::Depth::longest_chain))]
fn room_of(plan: &Plan, dev: DevId) -> usize
    ensures { result ≤ longest_chain plan.now dev + 3 }
{
    few(plan);
    let steps = plan.devices.len() as u32;
    chain_from(plan, steps, dev) as usize + 3
}

fn larger(one: usize, other: usize) -> usize
    ensures { result ≡ max one other }
{
    if one < other { other } else { one }
}

/// For how many open stages each place of a run of the plan has room, at least.
pub fn least_room(plan: &Plan) -> usize
    ensures { (room : ℕ) → ((d : ADevId) → longest_chain plan.now d + 3 ≤ room) → result ≤ room }
{
    few(plan);
    let mut room = 0;
    for dev in 0..plan.devices.len() {
        room = larger(room, room_of(plan, DevId(dev as u32)));
    }
    larger(room, room_of(plan, DevId(0)))
}

// Whether there is room for the stages of a place.
fn is_within(place: &Vec<Stage>, room: usize) -> bool
    ensures { result ≡ true → length place.now.items ≤ room }
{
    place.len() <= room
}

/// Whether there is room for the stages of each of these places.
pub fn have_room(places: &[Vec<Stage>], room: usize) -> bool
    ensures { result ≡ true → HasRoom room (map (λ v. v.items) places.now) }
{
    for place in places {
        if !is_within(place, room) {
            return false;
        }
    }
    true
}

// How many stages take the place of one.
fn pushed(then: &Then) -> usize
    ensures count { result ≡ length then.now.push }
    ensures few { result ≤ 2 }
{
    match then.push.row() {
        StageRow::Zero => 0,
        StageRow::One(_) => 1,
        StageRow::Two(_, _) => 2,
    }
}

// How many stages a line of a place's upper stage adds to those below it.
fn added_by(then: &Then) -> usize
    ensures count { result ≡ added_by then.now }
    ensures few { result ≤ 2 }
{
    if then.back.is_some() { 0 } else { pushed(then) }
}

/// Whether a place has room for what takes the place of its upper stage, of so many.
pub fn fits(stages: usize, then: &Then, room: usize) -> bool
    ensures { result ≡ true → (stages - 1) + added_by then.now ≤ room }
{
    let below = stages.saturating_sub(1);
    let more = added_by(then);
    below <= room && more <= room - below
}
