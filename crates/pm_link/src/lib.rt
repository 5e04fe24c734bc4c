//! The links of a plan, and which of them are held and present (`device_link.rst`).
#![tactic(auto)]

ghost use Rattle.std.specs.Prelude.{◌≡◌, ◌<◌, ℕ, Bool, List, true, false, length, map, not, option_map, position, slice_set, IfOk, IfSome};
ghost use Rattle.std.specs.Option.{option_map_or};
ghost use Rattle.pm_model.specs.Changes.{at_pair};
ghost use Rattle.pm_model.specs.ControlTable.{is_pair_in, may_be_absent};
ghost use Rattle.pm_model.specs.Derived.{first_free, first_held, next_supplier};
ghost use Rattle.pm_model.specs.Events.{frees_links};
ghost use Rattle.pm_model.specs.PlanRows.{is_of_pair};
ghost use Rattle.pm_model.specs.Views.{Views};
ghost use Rattle.pm_link.specs.LinkOrder.{IsFirst};
ghost use Rattle.pm_link.specs.Links.{IsPlace, SetsPair, bit_at, fresh_links, row_at, with_supplier};
ghost use Rattle.pm_link.specs.Wanted.{is_taken_at, is_wanted_at};

mod marks;
mod order;
mod search;

use marks::{Marks, is_live};
use order::{link_order, ranks, starts};
use pm_base::{DevId, NoMemory};
use pm_model::{LinkRow, Plan};
use search::{Want, first_wanted};
use std::alloc::{AllocError, Global};
use std::marker::Model;

/// Which links are held and which are present. Contracts see the links of the plan for which it was
/// made, and both lists in the plan's order.
#[derive(Drop)]
pub struct Links {
    rows: Vec<LinkRow>,
    // The places of the links, sorted by consumer and then by supplier.
    order: Vec<u32>,
    // Where the links of each device begin in that order.
    starts: Vec<usize>,
    // The place of each link in it.
    ranks: Vec<usize>,
    held: Vec<bool>,
    present: Vec<bool>,
    // The same by the order, in which the first one is found without a walk.
    marks: Marks,
}

impl Model for Links {
    ghost use Rattle.pm_link.specs.Links.{LinkViews};
    ghost use Rattle.pm_link.specs.Marked.{IsKept};

    ghost Value = { LinkViews };

    ghost view = { λ l. record { rows = l.rows.items; held = l.held.items; present = l.present.items } };

    ghost invariant = { λ l. IsKept l.rows.items l.order.items l.starts.items l.ranks.items l.held.items l.present.items l.marks };
}

// No link is held.
fn all_free(alloc: Global, rows: &[LinkRow]) -> Result<Vec<bool>, AllocError>
    ensures { IfOk result (λ v. v.items ≡ map (λ row. false) rows.now) }
{
    rows.iter().map(|_| false).collect(alloc)
}

// Each link is present but those that are added later.
fn those_present(alloc: Global, rows: &[LinkRow]) -> Result<Vec<bool>, AllocError>
    ensures { IfOk result (λ v. v.items ≡ map (λ row. not row.later) rows.now) }
{
    rows.iter().map(|row| !row.later).collect(alloc)
}

impl Links {
    /// The links of a plan before any line. Fails where memory runs out.
    pub fn fresh(alloc: Global, plan: &Plan) -> Result<Links, NoMemory>
        ensures { IfOk result (λ links. links ≡ fresh_links plan.now) }
    {
        let rows = plan.links.as_slice();
        let order = link_order(alloc, rows)?;
        let starts = starts(alloc, rows, &order, plan.devices.len())?;
        let ranks = ranks(alloc, rows, &order)?;
        let marks = Marks::fresh(alloc, rows, &order)?;
        Ok(Links {
            rows: Vec::from_slice(alloc, rows)?,
            order,
            starts,
            ranks,
            held: all_free(alloc, rows)?,
            present: those_present(alloc, rows)?,
            marks,
        })
    }

    /// Whether a link, by its place in the plan, is held.
    pub fn held(&self, link: usize) -> bool
        requires { link < length self.now.held }
        ensures { result ≡ bit_at self.now.held link }
    {
        self.held[link]
    }

    /// Whether a link is present.
    pub fn present(&self, link: usize) -> bool
        requires { link < length self.now.present }
        ensures { result ≡ bit_at self.now.present link }
    {
        self.present[link]
    }

    // A link becomes held or free.
    fn put_held(&mut self, link: usize, held: bool)
        requires { link < length self.old.held }
        ensures { self.new ≡ record self.old { held = slice_set self.old.held link held } }
    {
        self.held[link] = held;
        let live = is_live(self.rows[link], self.present[link]);
        self.marks.note(self.ranks[link], live, held);
    }

    // A link becomes present or absent.
    fn put_present(&mut self, link: usize, present: bool)
        requires { link < length self.old.present }
        ensures { self.new ≡ record self.old { present = slice_set self.old.present link present } }
    {
        self.present[link] = present;
        let live = is_live(self.rows[link], present);
        self.marks.note(self.ranks[link], live, self.held[link]);
    }

    /// Holds a link that is free.
    pub fn take(&mut self, link: usize)
        requires in_range { link < length self.old.held }
        requires free { bit_at self.old.held link ≡ false }
        ensures { self.new ≡ record self.old { held = slice_set self.old.held link true } }
    {
        self.put_held(link, true);
    }

    /// Gives back a link that is held.
    pub fn give(&mut self, link: usize)
        requires in_range { link < length self.old.held }
        requires held { bit_at self.old.held link ≡ true }
        ensures { self.new ≡ record self.old { held = slice_set self.old.held link false } }
    {
        self.put_held(link, false);
    }

    /// Adds a link that isn't present.
    pub fn add(&mut self, link: usize)
        requires in_range { link < length self.old.present }
        requires absent { bit_at self.old.present link ≡ false }
        ensures { self.new ≡ record self.old { present = slice_set self.old.present link true } }
    {
        self.put_present(link, true);
    }

    /// Removes a link that is present and free.
    pub fn remove(&mut self, link: usize)
        requires in_range { link < length self.old.present }
        requires present { bit_at self.old.present link ≡ true }
        requires free { bit_at self.old.held link ≡ false }
        ensures { self.new ≡ record self.old { present = slice_set self.old.present link false } }
    {
        self.put_present(link, false);
    }

    // The first link of a consumer that is looked for.
    fn first(&self, plan: &Plan, dev: DevId, want: Want) -> Option<usize>
        requires { self.now.rows ≡ plan.now.links }
        ensures first { IsFirst (is_wanted_at want dev plan.now.links self.now.held self.now.present) plan.now.links result }
        ensures held_len { length self.now.held ≡ length plan.now.links }
        ensures present_len { length self.now.present ≡ length plan.now.links }
    {
        let rows = plan.links.as_slice();
        first_wanted(want, dev, rows, &self.order, &self.starts, &self.marks)
    }

    /// The held link of a consumer that has the least supplier, of those that are present and have
    /// `DL_FLAG_PM_RUNTIME`. It looks at few of that consumer's links, as do the next four.
    pub fn first_held(&self, plan: &Plan, dev: DevId) -> Option<usize>
        requires made_for { self.now.rows ≡ plan.now.links }
        ensures in_range { IfSome result (IsPlace self.now) }
        ensures held { IfSome result (λ link. bit_at self.now.held link ≡ true) }
        ensures bits_set { IfSome result (λ link. SetsPair plan.now dev (row_at plan.now.links link).supplier link) }
        ensures first { (v : Views) → v.held ≡ self.now.held → v.present ≡ self.now.present → first_held plan.now v dev ≡ option_map (with_supplier plan.now.links) result }
    {
        self.first(plan, dev, Want::Held)
    }

    /// The one that isn't held and has the least supplier.
    pub fn first_free(&self, plan: &Plan, dev: DevId) -> Option<usize>
        requires made_for { self.now.rows ≡ plan.now.links }
        ensures in_range { IfSome result (IsPlace self.now) }
        ensures free { IfSome result (λ link. bit_at self.now.held link ≡ false) }
        ensures bits_set { IfSome result (λ link. SetsPair plan.now dev (row_at plan.now.links link).supplier link) }
        ensures first { (v : Views) → v.held ≡ self.now.held → v.present ≡ self.now.present → first_free plan.now v dev ≡ option_map (with_supplier plan.now.links) result }
    {
        self.first(plan, dev, Want::Free)
    }

    /// The one, held or not, that has the least supplier behind the last one.
    pub fn next_supplier(&self, plan: &Plan, dev: DevId, last: Option<DevId>) -> Option<usize>
        requires made_for { self.now.rows ≡ plan.now.links }
        ensures in_range { IfSome result (IsPlace self.now) }
        ensures first { (v : Views) → v.held ≡ self.now.held → v.present ≡ self.now.present → next_supplier plan.now v dev last ≡ option_map (with_supplier plan.now.links) result }
    {
        self.first(plan, dev, Want::Above(last))
    }

    /// The link from a consumer to a supplier, present or not, whatever its flags. A plan has at most
    /// one.
    pub fn find(&self, plan: &Plan, consumer: DevId, supplier: DevId) -> Option<usize>
        requires made_for { self.now.rows ≡ plan.now.links }
        ensures found { result ≡ position (is_of_pair consumer supplier) plan.now.links }
        ensures in_range { IfSome result (IsPlace self.now) }

        // What is said of the pair is said of that link.
        ensures bits_set { (bits : List Bool) (b : Bool) → length bits ≡ length plan.now.links → at_pair plan.now consumer supplier b bits ≡ option_map_or (λ link. slice_set bits link b) result bits }
        ensures bits_read { (bits : List Bool) → length bits ≡ length plan.now.links → is_pair_in plan.now consumer supplier bits ≡ option_map_or (bit_at bits) result false }
        ensures later { may_be_absent plan.now consumer supplier ≡ option_map_or (λ link. (row_at plan.now.links link).later) result false }
        ensures held_len { length self.now.held ≡ length plan.now.links }
        ensures present_len { length self.now.present ≡ length plan.now.links }
    {
        self.first(plan, consumer, Want::To(supplier))
    }

    /// The held link of a consumer that has the least supplier, present or not and whatever its flags.
    pub fn first_taken(&self, plan: &Plan, dev: DevId) -> Option<usize>
        requires made_for { self.now.rows ≡ plan.now.links }
        ensures in_range { IfSome result (IsPlace self.now) }
        ensures first { IsFirst (is_taken_at dev plan.now.links self.now.held) plan.now.links result }
        ensures held_len { length self.now.held ≡ length plan.now.links }
    {
        self.first(plan, dev, Want::Taken)
    }

    /// The link of a pair becomes held or free, if there is one.
    pub fn set_held(&mut self, plan: &Plan, consumer: DevId, supplier: DevId, held: bool)
        requires made_for { self.old.rows ≡ plan.now.links }
        ensures { self.new ≡ record self.old { held = at_pair plan.now consumer supplier held self.old.held } }
    {
        if let Some(link) = self.find(plan, consumer, supplier) {
            self.put_held(link, held);
        }
    }

    /// The link of a pair becomes present or absent, if there is one.
    pub fn set_present(&mut self, plan: &Plan, consumer: DevId, supplier: DevId, present: bool)
        requires made_for { self.old.rows ≡ plan.now.links }
        ensures { self.new ≡ record self.old { present = at_pair plan.now consumer supplier present self.old.present } }
    {
        if let Some(link) = self.find(plan, consumer, supplier) {
            self.put_present(link, present);
        }
    }

    /// Whether the link of a pair is held.
    pub fn is_held(&self, plan: &Plan, consumer: DevId, supplier: DevId) -> bool
        requires made_for { self.now.rows ≡ plan.now.links }
        ensures { result ≡ is_pair_in plan.now consumer supplier self.now.held }
    {
        match self.find(plan, consumer, supplier) {
            Some(link) => self.held(link),
            None => false,
        }
    }

    /// Whether the link of a pair is present.
    pub fn is_present(&self, plan: &Plan, consumer: DevId, supplier: DevId) -> bool
        requires made_for { self.now.rows ≡ plan.now.links }
        ensures { result ≡ is_pair_in plan.now consumer supplier self.now.present }
    {
        match self.find(plan, consumer, supplier) {
            Some(link) => self.present(link),
            None => false,
        }
    }

    /// Whether the link of a pair begins absent.
    pub fn may_be_absent(&self, plan: &Plan, consumer: DevId, supplier: DevId) -> bool
        requires made_for { self.now.rows ≡ plan.now.links }
        ensures { result ≡ may_be_absent plan.now consumer supplier }
    {
        match self.find(plan, consumer, supplier) {
            Some(link) => plan.links.as_slice()[link].later,
            None => false,
        }
    }

    /// Gives back every held link of a consumer.
    pub fn free_all(&mut self, plan: &Plan, consumer: DevId)
        requires made_for { self.old.rows ≡ plan.now.links }
        ensures held_alone { self.new ≡ record self.old { held = self.new.held } }
        ensures freed { (v : Views) → v.held ≡ self.old.held → self.new.held ≡ (frees_links plan.now consumer v).held }
    {
        while let Some(link) = self.first_taken(plan, consumer) {
            self.put_held(link, false);
        }
    }
}
