//! What is wrong with the words of callers, and what they are.

ghost use Rattle.std.specs.Prelude.{◌≡◌, ◌<◌, ◌≤◌, IfOk, IfSome, length, map, position};
ghost use Rattle.std.specs.Option.{option_copied};
ghost use Rattle.pm_driver_read.specs.Keys.{after_mark, after_name, bound_to, bus_in, bus_of, core_of, has_times, is_alone, is_colon, is_lost_after, is_stranger, key_fault, keys_fault, names_fault, parent_of, role_in, role_of, suppliers_of, supplies, turns_of, words_fault, wrong_binds, wrong_bus, wrong_role};
ghost use Rattle.pm_driver_read.specs.Core.{core_suppliers};
ghost use Rattle.pm_model.specs.NamedList.{place_named};

use crate::around::{Bus, Core};
use crate::driver::Role;
use crate::refusal::{KeyFault, KeyRefusal, KeyWhy};
use crate::words::CallerWords;
use pm_base::{DevId, NoMemory};
use pm_model::{DeviceList, Items, LinkRow, Plan};
use pm_planread::tree::Text;
use std::alloc::Global;

/// The turns of a caller, at most.
pub const MAX_TURNS: u32 = 1_000;

/// The role that a word is.
#[tactic(auto, unfolding(crate::specs::Keys::role_of))]
fn role_of(text: &[u8]) -> Option<Role>
    ensures { result ≡ role_of text.now }
{
    if text == b"probe".as_slice() {
        Some(Role::Probe)
    } else if text == b"remove".as_slice() {
        Some(Role::Remove)
    } else if text == b"shutdown".as_slice() {
        Some(Role::Shutdown)
    } else {
        None
    }
}

/// The bus that a word is.
#[tactic(auto, unfolding(crate::specs::Keys::bus_of))]
fn bus_of(text: &[u8]) -> Option<Bus>
    ensures { result ≡ bus_of text.now }
{
    if text == b"amba".as_slice() {
        Some(Bus::Amba)
    } else if text == b"pci".as_slice() {
        Some(Bus::Pci)
    } else {
        None
    }
}

/// Whether a caller runs its script a number of times that it may.
fn has_times(times: Option<i64>) -> bool
    ensures { result ≡ has_times times }
{
    match times {
        Some(count) => 1 <= count && count <= i64::from(MAX_TURNS),
        None => true,
    }
}

/// How often a caller runs its script.
pub(crate) fn turns_of(times: Option<i64>) -> u32
    ensures { result ≡ turns_of times }
{
    match times {
        Some(count) => if 1 <= count && count <= i64::from(MAX_TURNS) {
            count as u32
        } else {
            1
        },
        None => 1,
    }
}

fn wrong_role(role: &Option<Text>) -> bool
    ensures { result ≡ wrong_role role.now }
{
    match role {
        Some(text) => role_of(text.as_slice()).is_none(),
        None => false,
    }
}

fn wrong_bus(bus: &Option<Text>) -> bool
    ensures { result ≡ wrong_bus bus.now }
{
    match bus {
        Some(text) => bus_of(text.as_slice()).is_none(),
        None => false,
    }
}

fn wrong_binds(binds: &Option<Text>, devices: &DeviceList) -> bool
    ensures { result ≡ wrong_binds (map (λ row. row.name) devices.now) binds.now }
{
    match binds {
        Some(text) => devices.find(text.as_slice()).is_none(),
        None => false,
    }
}

/// Whether a key stands without the one that it needs: `binds` without `role`, or `bus` without `binds`.
fn is_alone(words: &CallerWords) -> bool
    ensures { result ≡ is_alone words.now }
{
    if words.binds.is_some() {
        words.role.is_none()
    } else {
        words.bus.is_some()
    }
}

/// The place of a caller of this name.
pub(crate) fn caller_named(callers: &[CallerWords], name: &[u8]) -> Option<usize>
    ensures place { result ≡ place_named name.now (map (λ c. c.name) callers.now) }
    ensures within { IfSome result (λ place. place < length callers.now) }
{
    for (place, caller) in callers.iter().enumerate() {
        if name == caller.name.as_slice() {
            return Some(place);
        }
    }
    None
}

/// What stands before the first colon, which parts a caller from its mark.
pub(crate) fn after_name(text: &[u8]) -> &[u8]
    ensures { result.now ≡ after_name text.now }
{
    match colon_at(text) {
        Some(at) => text.split_at(at).0,
        None => text,
    }
}

/// What stands behind it.
pub(crate) fn after_mark(text: &[u8]) -> Option<&[u8]>
    ensures { option_copied result ≡ after_mark text.now }
{
    let at = colon_at(text)?;
    Some(text.split_at(at + 1).1)
}

fn colon_at(text: &[u8]) -> Option<usize>
    ensures { result ≡ position is_colon text.now }
{
    for (at, byte) in text.iter().enumerate() {
        if *byte == b':' {
            return Some(at);
        }
    }
    None
}

/// The first name that isn't a caller's.
fn first_stranger(callers: &[CallerWords], names: &[Text]) -> Option<usize>
    ensures { result ≡ position (is_stranger (map (λ c. c.name) callers.now)) names.now }
{
    for (at, name) in names.iter().enumerate() {
        if caller_named(callers, name.as_slice()).is_none() {
            return Some(at);
        }
    }
    None
}

/// Whether a text names no caller to begin after.
#[tactic(auto, unfolding(crate::specs::Keys::is_lost_after))]
fn is_lost_after(callers: &[CallerWords], text: &[u8]) -> bool
    ensures { result ≡ is_lost_after (map (λ c. c.name) callers.now) text.now }
{
    caller_named(callers, after_name(text)).is_none()
}

/// The first that names no caller to begin after.
fn first_lost(callers: &[CallerWords], texts: &[Text]) -> Option<usize>
    ensures { result ≡ position (is_lost_after (map (λ c. c.name) callers.now)) texts.now }
{
    for (at, text) in texts.iter().enumerate() {
        if is_lost_after(callers, text.as_slice()) {
            return Some(at);
        }
    }
    None
}

/// A fault of a key.
fn key_fault(why: KeyWhy) -> Option<KeyFault>
    ensures { result ≡ key_fault why }
{
    Some(KeyFault { why, part: 0 })
}

/// What is wrong with the names of callers that a caller's words have.
fn names_fault(callers: &[CallerWords], words: &CallerWords) -> Option<KeyFault>
    ensures { result ≡ names_fault (map (λ c. c.name) callers.now) words.now }
{
    if let Some(part) = first_stranger(callers, words.adopts.as_slice()) {
        return Some(KeyFault {
            why: KeyWhy::Adopts,
            part,
        });
    }
    match first_lost(callers, words.after.as_slice()) {
        Some(part) => Some(KeyFault {
            why: KeyWhy::After,
            part,
        }),
        None => None,
    }
}

/// What is wrong with the words of a caller.
#[tactic(auto, unfolding(crate::specs::Keys::words_fault))]
pub(crate) fn words_fault(
    devices: &DeviceList,
    callers: &[CallerWords],
    words: &CallerWords,
) -> Option<KeyFault>
    ensures { result ≡ words_fault (map (λ row. row.name) devices.now) (map (λ c. c.name) callers.now) words.now }
{
    if !has_times(words.times) {
        key_fault(KeyWhy::Times)
    } else if wrong_role(&words.role) {
        key_fault(KeyWhy::Role)
    } else if wrong_bus(&words.bus) {
        key_fault(KeyWhy::Bus)
    } else if wrong_binds(&words.binds, devices) {
        key_fault(KeyWhy::Binds)
    } else if is_alone(words) {
        key_fault(KeyWhy::Alone)
    } else {
        names_fault(callers, words)
    }
}

/// The first caller whose words are wrong.
pub(crate) fn keys_fault(devices: &DeviceList, callers: &[CallerWords]) -> Option<KeyRefusal>
    ensures { result ≡ keys_fault (map (λ row. row.name) devices.now) (map (λ c. c.name) callers.now) 0 callers.now }
{
    for (caller, words) in callers.iter().enumerate() {
        if let Some(fault) = words_fault(devices, callers, words) {
            return Some(KeyRefusal {
                why: fault.why,
                caller,
                part: fault.part,
            });
        }
    }
    None
}

/// Whether a link resumes the supplier of a device, from the begin on.
fn supplies(dev: DevId, link: &LinkRow) -> bool
    ensures { result ≡ supplies dev link.now }
{
    link.consumer == dev && link.pm_runtime && !link.later
}

/// The suppliers of a device by links that resume them.
fn suppliers_of(alloc: Global, dev: DevId, links: &[LinkRow]) -> Result<Vec<DevId>, NoMemory>
    ensures all { IfOk result (λ v. v.items ≡ suppliers_of dev links.now) }
    ensures few { IfOk result (λ v. length v.items ≤ length links.now) }
{
    let mut suppliers = Vec::new(alloc);
    for link in links {
        if supplies(dev, link) {
            suppliers.push(link.supplier)?;
        }
    }
    Ok(suppliers)
}

/// The parent of a device.
fn parent_of(plan: &Plan, dev: DevId) -> Option<DevId>
    ensures { result ≡ parent_of plan.now.devices dev }
{
    match plan.devices.get(dev.0 as usize) {
        Some(row) => row.parent,
        None => None,
    }
}

/// The device that a caller binds.
pub(crate) fn bound_to(plan: &Plan, binds: &Option<Text>) -> Option<DevId>
    ensures { result ≡ bound_to plan.now.devices binds.now }
{
    let Some(text) = binds else {
        return None;
    };
    match plan.devices.find(text.as_slice()) {
        Some(place) => Some(DevId(place as u32)),
        None => None,
    }
}

/// The role of a caller.
pub(crate) fn role_in(words: &CallerWords) -> Option<Role>
    ensures { result ≡ role_in words.now }
{
    match &words.role {
        Some(text) => role_of(text.as_slice()),
        None => None,
    }
}

/// The bus of a caller.
fn bus_in(words: &CallerWords) -> Option<Bus>
    ensures { result ≡ bus_in words.now }
{
    match &words.bus {
        Some(text) => bus_of(text.as_slice()),
        None => None,
    }
}

/// The driver core's calls around a caller, where it binds a device.
pub(crate) fn core_of(
    alloc: Global,
    plan: &Plan,
    words: &CallerWords,
) -> Result<Option<Core>, NoMemory>
    requires { length plan.now.links ≤ 1024 }
    ensures core { IfOk result (λ core. core ≡ core_of plan.now.devices plan.now.links words.now) }
    ensures few { IfOk result (λ core. core_suppliers core ≤ 1024) }
{
    let Some(role) = role_in(words) else {
        return Ok(None);
    };
    let Some(dev) = bound_to(plan, &words.binds) else {
        return Ok(None);
    };
    Ok(Some(Core {
        role,
        dev,
        bus: bus_in(words),
        suppliers: Items::new(suppliers_of(alloc, dev, plan.links.as_slice())?),
        parent: parent_of(plan, dev),
    }))
}
