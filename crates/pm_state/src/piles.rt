//! Piles of stages, all kept in one block of memory, of which only as much is written as stages are kept.

ghost use Rattle.std.specs.Prelude.{◌≡◌, ◌<◌, ◌∷◌, ◌++◌, [], drop, length, replicate, slice_index_or, slice_set, IfOk, None, OnOk};
ghost use Rattle.pm_model.specs.World.{top};
ghost use Rattle.pm_state.specs.Piles.{AreKept, stages_from};

use crate::cell::{Cell, Pile};
use pm_base::NoMemory;
use pm_model::Stage;
use slab::Slab;
use std::alloc::{AllocError, Global};
use std::marker::Model;

/// Piles of stages, each the upper one first, and for how many each has room. All memory is taken when they are made.
#[derive(Drop)]
pub struct Piles {
    piles: Vec<Pile>,
    // The stages of all piles.
    cells: Slab<Cell>,
    // For how many stages each pile has room.
    room: usize,
}

impl Model for Piles {
    ghost use Rattle.std.specs.Prelude.{map};
    ghost use Rattle.pm_state.specs.Piles.{ArePiled, stages_of_pile};
    ghost use Rattle.pm_state.specs.Places.{Stacks};

    ghost Value = { Stacks };

    ghost view = { λ p. record { stages = map (stages_of_pile p.cells) p.piles.items; room = p.room } };

    ghost invariant = { λ p. ArePiled p.room p.piles.items p.cells };
}

// So many empty piles.
fn empty_piles(alloc: Global, count: usize) -> Result<Vec<Pile>, NoMemory>
    ensures { IfOk result (λ piles. piles.items ≡ replicate count (record { many = 0; upper = 0 })) }
{
    let pile = Pile { many: 0, upper: 0 };
    Ok(vec![in alloc; pile; count]?)
}

// Appends a copy of the stages of one pile.
fn copy_from(
    cells: &Slab<Cell>,
    owner: usize,
    pile: Pile,
    stages: &mut Vec<Stage>,
) -> Result<(), AllocError>
    requires { AreKept cells.now owner pile.many pile.upper }
    ensures { OnOk result (stages.new.items ≡ stages.old.items ++ stages_from cells.now pile.many pile.upper) }
{
    let mut left = pile.many;
    let mut at = pile.upper;
    while left > 0 {
        let cell = cells[at];
        stages.push(cell.stage)?;
        left -= 1;
        at = cell.below;
    }
    Ok(())
}

impl Piles {
    /// So many empty piles, each with room for this many stages.
    pub fn empty(alloc: Global, count: usize, room: usize) -> Result<Piles, NoMemory>
        ensures { IfOk result (λ piles. piles ≡ record { stages = replicate count []; room = room }) }
    {
        let all = count.checked_mul(room).ok_or(NoMemory)?;
        Ok(Piles {
            piles: empty_piles(alloc, count)?,
            cells: Slab::with_capacity(alloc, all)?,
            room,
        })
    }

    /// Takes the upper stage off a pile; `None` comes exactly where the pile is empty. It takes no memory.
    #[inline(always)]
    pub fn pop(&mut self, actor: usize) -> Option<Stage>
        requires in_range { actor < length self.old.stages }
        ensures upper { result ≡ top None (slice_index_or self.old.stages actor []) }
        ensures rest { self.new ≡ record self.old { stages = slice_set self.old.stages actor (drop 1 (slice_index_or self.old.stages actor [])) } }
    {
        let pile = self.piles[actor];
        if pile.many == 0 {
            return None;
        }
        let cell = self.cells.remove(pile.upper);
        self.piles[actor] = Pile {
            many: pile.many - 1,
            upper: cell.below,
        };
        Some(cell.stage)
    }

    /// Puts a stage on a pile that has room for one more. It takes no memory.
    #[inline(always)]
    pub fn push(&mut self, actor: usize, stage: Stage)
        requires in_range { actor < length self.old.stages }
        requires room { length (slice_index_or self.old.stages actor []) < self.old.room }
        ensures { self.new ≡ record self.old { stages = slice_set self.old.stages actor (stage ∷ slice_index_or self.old.stages actor []) } }
    {
        let pile = self.piles[actor];
        let upper = self.cells.insert_reserved(Cell {
            stage,
            owner: actor,
            under: pile.many,
            below: pile.upper,
        });
        self.piles[actor] = Pile {
            many: pile.many + 1,
            upper,
        };
    }

    /// Appends a copy of the stages of a pile, the upper one first. Fails where memory runs out.
    pub fn copy_to(&self, actor: usize, stages: &mut Vec<Stage>) -> Result<(), AllocError>
        requires { actor < length self.now.stages }
        ensures { OnOk result (stages.new.items ≡ stages.old.items ++ slice_index_or self.now.stages actor []) }
    {
        let pile = self.piles[actor];
        copy_from(&self.cells, actor, pile, stages)
    }
}
