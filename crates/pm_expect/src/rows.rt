//! What a table expects.

ghost use Rattle.std.specs.Prelude.{◌≡◌, All, map, IfErr, IfOk, Ok, Result};
ghost use Rattle.toml.specs.Data.{Members, as_table};
ghost use Rattle.toml.specs.View.{table_view, view};
ghost use Rattle.pm_model.specs.declared.plan.Plan.{Plan as PlanValue};
ghost use Rattle.pm_expect.specs.Expected.{IsFaultOf, located, refused, row_in, rows_in};
ghost use Rattle.pm_expect.specs.Over.{IsAnswerOver, IsEndOver, IsUseOver};
ghost use Rattle.pm_expect.specs.Rows.{answer_in, end_in, use_in};
ghost use Rattle.pm_expect.specs.declared.refusal.Why.{Why as WhyValue};

use crate::expectation::{Answer, End, Use};
use crate::fields::{
    caller_in, code_in, command_in, device_in, left_in, times_in, usage_in, which_in,
};
use crate::refusal::{Fault, Refusal, Section, Why};
use crate::tree::{capped, known_keys};
use pm_model::Plan;
use std::alloc::Global;
use toml::{Table, Value};

/// What a table of `[[answer]]` expects.
#[tactic(auto, unfolding(crate::specs::Rows::answer_in))]
fn answer_in(plan: &Plan, table: &Table) -> Result<Answer, Why>
    ensures value { result ≡ answer_in plan.now (table_view table.now) }
    ensures over { IfOk result (IsAnswerOver plan.now) }
{
    known_keys(Section::Answer, table)?;
    let caller = caller_in(plan, table)?;
    let command = command_in(plan, table)?;
    let times = times_in(plan, caller, &command)?;
    let which = which_in(times, table)?;
    let code = code_in(table)?;
    Ok(Answer {
        caller,
        command,
        which,
        code,
    })
}

/// What a table of `[[end]]` expects.
#[tactic(auto, unfolding(crate::specs::Rows::end_in))]
fn end_in(plan: &Plan, table: &Table) -> Result<End, Why>
    ensures value { result ≡ end_in plan.now (table_view table.now) }
    ensures over { IfOk result (IsEndOver plan.now) }
{
    known_keys(Section::End, table)?;
    let dev = device_in(plan, table)?;
    let left = left_in(table)?;
    let usage = usage_in(table)?;
    Ok(End { dev, left, usage })
}

/// What a table of `[[use]]` expects.
#[tactic(auto, unfolding(crate::specs::Rows::use_in))]
fn use_in(plan: &Plan, table: &Table) -> Result<Use, Why>
    ensures value { result ≡ use_in plan.now (table_view table.now) }
    ensures over { IfOk result (IsUseOver plan.now) }
{
    known_keys(Section::Use, table)?;
    let dev = device_in(plan, table)?;
    let caller = caller_in(plan, table)?;
    let command = command_in(plan, table)?;
    let _times = times_in(plan, caller, &command)?;
    Ok(Use {
        dev,
        caller,
        command,
    })
}

/// An expectation that a table says.
pub(crate) trait Row: Drop {
    /// What a table says over a plan.
    ghost row_of: { PlanValue → Members → Result Self WhyValue };

    /// The devices and callers that it names are the plan's.
    ghost IsOver: { PlanValue → Self → Type 0 };

    fn row(plan: &Plan, table: &Table) -> Result<Self, Why>
        ensures value { result ≡ row_of plan.now (table_view table.now) }
        ensures over { IfOk result (IsOver plan.now) };
}

impl Row for Answer {
    ghost row_of = { answer_in };

    ghost IsOver = { IsAnswerOver };

    fn row(plan: &Plan, table: &Table) -> Result<Answer, Why> {
        answer_in(plan, table)
    }
}

impl Row for End {
    ghost row_of = { end_in };

    ghost IsOver = { IsEndOver };

    fn row(plan: &Plan, table: &Table) -> Result<End, Why> {
        end_in(plan, table)
    }
}

impl Row for Use {
    ghost row_of = { use_in };

    ghost IsOver = { IsUseOver };

    fn row(plan: &Plan, table: &Table) -> Result<Use, Why> {
        use_in(plan, table)
    }
}

/// What an item expects.
fn row_in<T: Row>(plan: &Plan, item: &Value) -> Result<T, Why>
    ensures value { result ≡ row_in (T.row_of plan.now) (as_table (view item.now)) }
    ensures over { IfOk result (T.IsOver plan.now) }
{
    match item.as_table() {
        Some(table) => T::row(plan, table),
        None => Err(Why::NoTable),
    }
}

/// The refusal of an item of a section.
pub(crate) fn refused(section: Section, item: usize, why: Why) -> Refusal
    ensures { result ≡ refused section item why }
{
    Refusal {
        section,
        item: capped(item),
        why,
    }
}

/// What the item of this number of a section expects.
fn located_row<T: Row>(
    plan: &Plan,
    section: Section,
    number: usize,
    item: &Value,
) -> Result<T, Refusal>
    ensures value { result ≡ located section number (row_in (T.row_of plan.now) (as_table (view item.now))) }
    ensures over { IfOk result (T.IsOver plan.now) }
{
    match row_in(plan, item) {
        Ok(row) => Ok(row),
        Err(why) => Err(refused(section, number, why)),
    }
}

/// What the items of a section expect, in their order; else the first refusal.
pub(crate) fn rows_in<T: Row>(
    alloc: Global,
    plan: &Plan,
    section: Section,
    items: &[Value],
) -> Result<Vec<T>, Fault>
    ensures ok { IfOk result (λ rows. rows_in (T.row_of plan.now) section 0 (map view items.now) ≡ Ok rows.items) }
    ensures over { IfOk result (λ rows. All (T.IsOver plan.now) rows.items) }
    ensures fault { IfErr result (IsFaultOf (rows_in (T.row_of plan.now) section 0 (map view items.now))) }
{
    let mut rows = Vec::with_capacity(alloc, items.len())?;
    for (number, item) in items.iter().enumerate() {
        rows.push(located_row(plan, section, number, item)?)?;
    }
    Ok(rows)
}
