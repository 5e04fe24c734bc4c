//! All views are set at once, so that a run stands elsewhere.

ghost use Rattle.std.specs.Prelude.{◌≡◌, ◌<◌, All, false, length, slice_set};
ghost use Rattle.pm_link.specs.Links.{bit_at};
ghost use Rattle.pm_device.specs.Filling.{CanBe, views_of};
ghost use Rattle.pm_device.specs.Parts.{IsFor, IsInTime};

use crate::Parts;
use pm_base::{Armed, DevId, Pending};
use pm_link::Links;
use pm_model::{Device, Plan};
use pm_timer::Timers;

// The timer of a device is armed as this one is, or disarmed.
fn set_timer(timers: &mut Timers, dev: DevId, timer: Option<Armed>)
    requires { dev.0 < length timers.old }
    ensures { timers.new ≡ slice_set timers.old dev.0 timer }
{
    match timer {
        Some(armed) => timers.arm(dev, armed.deadline, armed.autosuspends),
        None => timers.disarm(dev),
    }
}

// The timer of each device is.
fn set_timers(timers: &mut Timers, plan: &Plan, all: &[Option<Armed>])
    requires each { length timers.old ≡ length plan.now.devices }
    requires as_many { length all.now ≡ length plan.now.devices }
    ensures { timers.new ≡ all.now }
{
    for device in 0..plan.devices.len() {
        set_timer(timers, DevId(device as u32), all[device]);
    }
}

// A link is free.
#[tactic(auto, using(crate::proofs::FillLemmas::bit_kept))]
fn free_link(links: &mut Links, link: usize)
    requires { link < length links.old.held }
    ensures { links.new ≡ record links.old { held = slice_set links.old.held link false } }
{
    if links.held(link) {
        links.give(link);
    }
}

// A free link is held, or stays free.
#[tactic(auto, using(crate::proofs::FillLemmas::bit_kept))]
fn hold_link(links: &mut Links, link: usize, held: bool)
    requires in_range { link < length links.old.held }
    requires free { bit_at links.old.held link ≡ false }
    ensures { links.new ≡ record links.old { held = slice_set links.old.held link held } }
{
    if held {
        links.take(link);
    }
}

// A free link is present or absent.
#[tactic(auto, using(crate::proofs::FillLemmas::bit_kept))]
fn place_link(links: &mut Links, link: usize, present: bool)
    requires in_range { link < length links.old.present }
    requires free { bit_at links.old.held link ≡ false }
    ensures { links.new ≡ record links.old { present = slice_set links.old.present link present } }
{
    if links.present(link) {
        if !present {
            links.remove(link);
        }
    } else if present {
        links.add(link);
    }
}

// A link is held or free, and present or absent, whatever it was. Only one that is free is removed, so it is freed
// first.
#[tactic(auto, using(crate::proofs::FillLemmas::bit_freed, crate::proofs::FillLemmas::set_again))]
fn renew_link(links: &mut Links, link: usize, held: bool, present: bool)
    requires in_held { link < length links.old.held }
    requires in_present { link < length links.old.present }
    ensures { links.new ≡ record links.old { held = slice_set links.old.held link held; present = slice_set links.old.present link present } }
{
    free_link(links, link);
    place_link(links, link, present);
    hold_link(links, link, held);
}

// The same, where it isn't so already.
#[tactic(auto, using(crate::proofs::FillLemmas::bit_kept))]
fn set_link(links: &mut Links, link: usize, held: bool, present: bool)
    requires in_held { link < length links.old.held }
    requires in_present { link < length links.old.present }
    ensures { links.new ≡ record links.old { held = slice_set links.old.held link held; present = slice_set links.old.present link present } }
{
    if links.held(link) == held && links.present(link) == present {
        return;
    }
    renew_link(links, link, held, present);
}

// Each link is.
fn set_links(links: &mut Links, held: &[bool], present: &[bool])
    requires held { length held.now ≡ length links.old.held }
    requires present { length present.now ≡ length links.old.present }
    requires alike { length present.now ≡ length held.now }
    ensures { links.new ≡ record links.old { held = held.now; present = present.now } }
{
    for link in 0..held.len() {
        set_link(links, link, held[link], present[link]);
    }
}

impl Parts {
    // The views of each device change.
    fn set_devices(&mut self, plan: &Plan, devices: &[Device])
        requires made_for { IsFor plan.now self.old.shape }
        requires as_many { length devices.now ≡ length self.old.views.devices }
        requires in_time { All IsInTime devices.now }
        ensures { self.new ≡ record self.old { views = record self.old.views { devices = devices.now } } }
    {
        let _ = &self.devices;
        for device in 0..plan.devices.len() {
            self.set_device(DevId(device as u32), devices[device]);
        }
    }

    /// The views become these. It takes no memory, and few steps for an entry that stays.
    pub fn fill(
        &mut self,
        plan: &Plan,
        devices: &[Device],
        pending: &[Pending],
        timers: &[Option<Armed>],
        on: &[bool],
        held: &[bool],
        present: &[bool],
    )
        requires made_for { IsFor plan.now self.old.shape }
        requires can { CanBe self.old.views (views_of devices.now pending.now timers.now on.now held.now present.now) }
        ensures { self.new ≡ record self.old { views = views_of devices.now pending.now timers.now on.now held.now present.now } }
    {
        self.set_devices(plan, devices);
        self.requests.fill(pending);
        set_timers(&mut self.timers, plan, timers);
        self.domains.fill(plan, on);
        set_links(&mut self.links, held, present);
    }
}
