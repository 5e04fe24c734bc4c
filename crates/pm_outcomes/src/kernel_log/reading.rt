//! The outcome of the last run that a log tells of.

ghost use Rattle.std.specs.Prelude.{◌≡◌, ◌∷◌, IfOk, List, OnOk, option_map, reverse};
ghost use Rattle.pm_outcomes.specs.kernel_log.Runs.{IsReadOf, outcome_of};
ghost use Rattle.pm_outcomes.specs.declared.kernel_log.tells.Told.{Told as ATold};
ghost use Rattle.pm_outcomes.specs.kernel_log.Tells.{told_line, told_lines};

use crate::kernel_log::lines::{behind_prefix, cut};
use crate::kernel_log::tells::{Tell, Told, told_by};
use pm_model::Plan;
use pm_spans::source::without_return;
use std::alloc::{AllocError, Global};
use std::mem::replace;

/// What a line tells.
fn told_line(plan: &Plan, line: &[u8]) -> Option<Told>
    ensures { result ≡ told_line plan.now line.now }
{
    told_by(plan, behind_prefix(without_return(line))?)
}

/// The outcomes that were read so far.
#[derive(Drop)]
struct Read {
    /// What was told since the last `done`.
    since: Vec<Tell>,
    /// What was told before it, since the one before that.
    last: Option<Vec<Tell>>,
}

impl Read {
    /// Takes what one line more tells.
    fn take(&mut self, alloc: Global, told: Told) -> Result<(), AllocError>
        ensures { OnOk result ((ts : List ATold) → IsReadOf ts self.old → IsReadOf (told ∷ ts) self.new) }
    {
        match told {
            Told::Tells(tell) => self.since.push(tell)?,
            Told::Done => self.last = Some(replace(&mut self.since, Vec::new(alloc))),
        }
        Ok(())
    }
}

/// The outcome of the last run that a log tells of, in the order of its lines: what its lines tell between the last
/// `pm_lab: done` and the one before that. None where there is no such line.
#[tactic(auto, using(crate::proofs::kernel_log::ReadLemmas::starts, crate::proofs::kernel_log::ReadLemmas::skips, crate::proofs::kernel_log::ReadLemmas::takes, crate::proofs::kernel_log::ReadLemmas::ends))]
pub fn outcome_of(alloc: Global, plan: &Plan, log: &[u8]) -> Result<Option<Vec<Tell>>, AllocError>
    ensures { IfOk result (λ found. option_map (λ tells. reverse tells.items) found ≡ outcome_of plan.now log.now) }
{
    let mut read = Read {
        since: Vec::new(alloc),
        last: None,
    };
    let mut rest = Some(log);
    while let Some(text) = rest {
        let (line, behind) = cut(text);
        if let Some(told) = told_line(plan, line) {
            read.take(alloc, told)?;
        }
        rest = behind;
    }
    Ok(read.last)
}
