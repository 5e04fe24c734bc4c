//! A desk: a book behind a lock, and the passes to it.

ghost use Rattle.std.specs.Prelude.{◌≡◌, ◌↔◌, ◌<◌, [], false, true, IfErr, IfOk, IfSome, IsNone, Some, length, replicate, slice_get, slice_set};
ghost use Rattle.pm_islands.specs.Blank.{IsBlank};
ghost use Rattle.pm_desk.specs.Slips.{fresh};

use crate::pass::Pass;
use pm_base::NoMemory;
use pm_book::Book;
use pm_hands::Kept;
use pm_islands::blank;
use pm_model::Plan;
use std::alloc::Global;
use std::marker::Model;

/// A plan's book behind a lock, whose scripts begin empty: each call puts a command at the end of its
/// caller's. Contracts see the plan, with every script empty, and which passes were given; what stands behind
/// the lock is known by its type alone, a lawful list of the lines of some plan.
#[derive(Drop)]
pub struct Desk {
    pub(crate) plan: Plan,
    pub(crate) book: Kept,
    // For each caller whether its pass was given.
    pub(crate) given: Vec<bool>,
    pub(crate) alloc: Global,
}

impl Model for Desk {
    ghost use Rattle.std.specs.Prelude.{◌≡◌, length, vec_len};
    ghost use Rattle.pm_desk.specs.Desks.{Counter};

    ghost Value = { Counter };

    ghost view = { λ d. record { plan = d.plan; given = d.given.items } };

    ghost invariant = { λ d. vec_len d.given ≡ length d.plan.callers };
}

/// The book of a plan with every script empty and no lines. Fails where memory runs out.
pub fn fresh_book(alloc: Global, plan: &Plan) -> Result<Book, NoMemory>
    ensures plan { IfOk result (λ book. IsBlank plan.now book.plan) }
    ensures lines { IfOk result (λ book. book.lines ≡ []) }
{
    let plan = blank(alloc, plan)?;
    match Book::start(alloc, plan) {
        Ok(book) => Ok(book),
        Err((_plan, error)) => Err(error),
    }
}

// The desk of a plan.
fn desk_of(alloc: Global, plan: &Plan) -> Result<Desk, NoMemory>
    ensures plan { IfOk result (λ desk. IsBlank plan.now desk.plan) }
    ensures given { IfOk result (λ desk. desk.given ≡ replicate (length plan.now.callers) false) }
{
    let given = vec![in alloc; false; plan.callers.len()]?;
    let book = Kept::new(fresh_book(alloc, plan)?);
    Ok(Desk {
        plan: blank(alloc, plan)?,
        book,
        given,
        alloc,
    })
}

impl Desk {
    /// A desk for the plan with every script made empty, whose passes aren't given yet. Where memory runs
    /// out, the plan is handed back.
    pub fn new(alloc: Global, plan: Plan) -> Result<Desk, (Plan, NoMemory)>
        ensures plan { IfOk result (λ desk. IsBlank plan desk.plan) }
        ensures given { IfOk result (λ desk. desk.given ≡ replicate (length plan.callers) false) }
        ensures err { IfErr result (λ back. back.0 ≡ plan) }
    {
        match desk_of(alloc, &plan) {
            Ok(desk) => Ok(desk),
            Err(error) => Err((plan, error)),
        }
    }

    /// The plan, with every script empty.
    pub fn plan(&self) -> &Plan
        ensures { result.now ≡ self.now.plan }
    {
        &self.plan
    }

    /// The pass of a caller; `None` exactly where it was given before. It takes no memory.
    pub fn pass(&mut self, caller: u32) -> Option<Pass>
        requires { caller < length self.old.plan.callers }
        ensures none { IsNone result ↔ (slice_get self.old.given caller ≡ Some true) }
        ensures pass { IfSome result (λ pass. pass ≡ fresh caller) }
        ensures plan { self.new.plan ≡ self.old.plan }
        ensures given { self.new.given ≡ slice_set self.old.given caller true }
    {
        match self.given.get_mut(caller as usize) {
            Some(given) if !*given => {
                *given = true;
                Some(Pass::fresh(self.alloc, caller))
            }
            _ => None,
        }
    }
}
