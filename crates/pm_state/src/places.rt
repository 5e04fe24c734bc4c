//! The places of some actors.

ghost use Rattle.std.specs.Prelude.{◌≡◌, ◌<◌, ◌≤◌, ◌+◌, ◌^◌, ◌++◌, [], drop, length, map, replicate, slice_index_or, slice_set, take, IfOk, None};
ghost use Rattle.std.specs.List.{list_all};
ghost use Rattle.std.specs.Option.{option_copied};
ghost use Rattle.pm_model.specs.Handing.{after_code, after_then};
ghost use Rattle.pm_model.specs.Lawful.{is_empty_place};
ghost use Rattle.pm_model.specs.StageRows.{stages_of};
ghost use Rattle.pm_model.specs.World.{top};
ghost use Rattle.pm_state.specs.Places.{HasRoom, are_none};

use crate::piles::Piles;
use pm_base::NoMemory;
use pm_model::{Handed, Stage, StageRow, Then, take_code};
use std::alloc::{AllocError, Global};
use std::marker::Model;

/// The open stages of some actors, each the one that writes next first, and for how many each of their
/// places has room. All memory is taken when they are made, and only what stages stand in is written.
#[derive(Drop)]
pub struct Places {
    // The stage of each that writes next. It stands here and not with those below it, since mostly it alone is read and
    // replaced.
    tops: Vec<Option<Stage>>,
    // Those below it.
    below: Piles,
}

impl Model for Places {
    ghost use Rattle.pm_state.specs.Places.{AreTopped, Stacks, all_over};

    ghost Value = { Stacks };

    ghost view = { λ p. record { stages = all_over p.tops.items p.below.stages; room = p.below.room } };

    ghost invariant = { λ p. AreTopped p.tops.items p.below.stages };
}

// Hands a code down the stages of a pile until one goes on, and answers that one.
fn hand(below: &mut Piles, actor: usize, code: i32) -> Option<Stage>
    requires { actor < length below.old.stages }
    ensures upper { result ≡ top None (after_code (slice_index_or below.old.stages actor []) code) }
    ensures rest { below.new ≡ record below.old { stages = slice_set below.old.stages actor (drop 1 (after_code (slice_index_or below.old.stages actor []) code)) } }
{
    let mut code = code;
    while let Some(stage) = below.pop(actor) {
        let Stage::Await(awaiting) = stage else {
            return Some(stage);
        };
        match take_code(awaiting, code) {
            Handed::Goes(next) => return Some(next),
            Handed::Back(next) => code = next,
        }
    }
    None
}

// Takes all stages off a pile.
fn clear(below: &mut Piles, actor: usize)
    requires { actor < length below.old.stages }
    ensures { below.new ≡ record below.old { stages = slice_set below.old.stages actor [] } }
{
    while let Some(_) = below.pop(actor) {}
}

// Puts stages on a pile, of which the first is to be the upper one, where there is room for them.
fn put_all(below: &mut Piles, actor: usize, more: &[Stage])
    requires in_range { actor < length below.old.stages }
    requires room { length (more.now ++ slice_index_or below.old.stages actor []) ≤ below.old.room }
    ensures { below.new ≡ record below.old { stages = slice_set below.old.stages actor (more.now ++ slice_index_or below.old.stages actor []) } }
{
    let mut left = more.len();
    while left > 0 {
        left -= 1;
        below.push(actor, more[left]);
    }
}

// A pile becomes all but the first of these, which is answered, where there is room for them.
fn fill_below(below: &mut Piles, actor: usize, stages: &[Stage]) -> Option<Stage>
    requires in_range { actor < length below.old.stages }
    requires room { length stages.now ≤ below.old.room }
    ensures upper { result ≡ top None stages.now }
    ensures rest { below.new ≡ record below.old { stages = slice_set below.old.stages actor (drop 1 stages.now) } }
{
    clear(below, actor);
    let [top, rest @ ..] = stages else {
        return None;
    };
    put_all(below, actor, rest);
    Some(*top)
}

// So many places where no stage is open.
fn no_tops(alloc: Global, actors: usize) -> Result<Vec<Option<Stage>>, NoMemory>
    ensures { IfOk result (λ tops. tops.items ≡ replicate actors None) }
{
    let mut tops = Vec::with_capacity(alloc, actors)?;
    for _ in 0..actors {
        tops.push(None)?;
    }
    Ok(tops)
}

// Whether none of these writes next.
fn are_none(tops: &[Option<Stage>]) -> bool
    ensures { result ≡ are_none tops.now }
{
    tops.iter().all(|top| top.is_none())
}

impl Places {
    /// The places of so many actors, with no open stage, each with room for this many.
    pub fn empty(alloc: Global, actors: usize, room: usize) -> Result<Places, NoMemory>
        ensures { IfOk result (λ places. places ≡ record { stages = replicate actors []; room = room }) }
    {
        Ok(Places {
            tops: no_tops(alloc, actors)?,
            below: Piles::empty(alloc, actors, room)?,
        })
    }

    /// The stage of an actor that writes next; `None` comes exactly where no stage is open at its place.
    #[inline(always)]
    pub fn top(&self, actor: usize) -> Option<&Stage>
        requires { actor < length self.now.stages }
        ensures { option_copied result ≡ top None (slice_index_or self.now.stages actor []) }
    {
        self.tops[actor].as_ref()
    }

    /// A copy of the open stages of an actor, the one that writes next first.
    pub fn copied(&self, alloc: Global, actor: usize) -> Result<Vec<Stage>, AllocError>
        requires { actor < length self.now.stages }
        ensures { IfOk result (λ stages. stages.items ≡ slice_index_or self.now.stages actor []) }
    {
        let mut stages = Vec::new(alloc);
        let Some(top) = self.tops[actor] else {
            return Ok(stages);
        };
        stages.push(top)?;
        self.below.copy_to(actor, &mut stages)?;
        Ok(stages)
    }

    /// Whether no stage is open at any place.
    pub fn all_empty(&self) -> bool
        ensures { result ≡ list_all is_empty_place self.now.stages }
    {
        are_none(&self.tops)
    }

    /// What comes after the line of an actor's top stage takes its place; a code is handed down. Where
    /// no stage is open, what comes after the line begins the stack. It takes no memory.
    #[inline(always)]
    pub fn go(&mut self, actor: usize, then: &Then)
        requires in_range { actor < length self.old.stages }
        requires room { length (after_then then.now (drop 1 (slice_index_or self.old.stages actor []))) ≤ self.old.room }
        ensures { self.new ≡ record self.old { stages = slice_set self.old.stages actor (after_then then.now (drop 1 (slice_index_or self.old.stages actor []))) } }
    {
        match then.back {
            Some(code) => self.hand_down(actor, code),
            None => self.put_row(actor, then.push.row()),
        }
    }

    // A code is handed down the stages below an actor's top one, and the stage that goes on takes its place. Most lines
    // hand none, so this stays out of their way.
    #[inline(never)]
    fn hand_down(&mut self, actor: usize, code: i32)
        requires in_range { actor < length self.old.stages }
        ensures { self.new ≡ record self.old { stages = slice_set self.old.stages actor (after_code (drop 1 (slice_index_or self.old.stages actor [])) code) } }
    {
        self.tops[actor] = hand(&mut self.below, actor, code);
    }

    // A few stages take the place of an actor's top one, if it has one. Each is put where it is to stand.
    #[inline(always)]
    fn put_row(&mut self, actor: usize, row: StageRow)
        requires in_range { actor < length self.old.stages }
        requires room { length (stages_of row ++ drop 1 (slice_index_or self.old.stages actor [])) ≤ self.old.room }
        ensures { self.new ≡ record self.old { stages = slice_set self.old.stages actor (stages_of row ++ drop 1 (slice_index_or self.old.stages actor [])) } }
    {
        match row {
            StageRow::Zero => self.tops[actor] = self.below.pop(actor),
            StageRow::One(stage) => self.tops[actor] = Some(stage),
            StageRow::Two(called, under) => {
                self.below.push(actor, under);
                self.tops[actor] = Some(called);
            }
        }
    }

    // The open stages of an actor become these, the one that writes next first.
    fn put(&mut self, actor: usize, stages: &[Stage])
        requires in_range { actor < length self.old.stages }
        requires room { length stages.now ≤ self.old.room }
        ensures { self.new ≡ record self.old { stages = slice_set self.old.stages actor stages.now } }
    {
        self.tops[actor] = fill_below(&mut self.below, actor, stages);
    }

    /// The open stages of some actors, one after another from this one on, become these, for each the one that writes
    /// next first. It takes no memory.
    pub fn fill(&mut self, from: usize, all: &[Vec<Stage>])
        requires within { from + length all.now ≤ length self.old.stages }
        requires in_range { length self.old.stages < 2 ^ 64 }
        requires room { HasRoom self.old.room (map (λ v. v.items) all.now) }
        ensures rest { self.new ≡ record self.old { stages = self.new.stages } }
        ensures each { length self.new.stages ≡ length self.old.stages }
        ensures before { take from self.new.stages ≡ take from self.old.stages }
        ensures filled { take (length all.now) (drop from self.new.stages) ≡ map (λ v. v.items) all.now }
        ensures behind { drop (from + length all.now) self.new.stages ≡ drop (from + length all.now) self.old.stages }
    {
        for i in 0..all.len() {
            self.put(from + i, all[i].as_slice());
        }
    }
}
