//! Reads what a file expects.

ghost use Rattle.std.specs.Prelude.{◌≡◌, All, IfErr, IfOk, Ok};
ghost use Rattle.toml.specs.View.{table_view};
ghost use Rattle.pm_expect.specs.Expected.{IsFaultOf, expected_in, located, section_in, tree_expects};
ghost use Rattle.pm_expect.specs.Over.{AreOver};
ghost use Rattle.pm_expect.specs.Tables.{known_keys};
ghost use Rattle.pm_expect.specs.declared.refusal.Section.TheVariants.{Top};

use crate::expectation::Expectations;
use crate::refusal::{Fault, Refusal, Section, Why};
use crate::rows::{Row, refused, rows_in};
use crate::tree::{items_in, known_keys};
use pm_model::{Items, Plan};
use pm_planread::tree::document;
use std::alloc::Global;
use toml::Table;

/// Bytes of a file of expectations, at most.
pub const EXPECT_BYTES: usize = 262_144;

/// Tables of a section, at most.
pub const MAX_TABLES: usize = 1_000;

/// What a section expects.
fn section_in<T: Row>(
    alloc: Global,
    plan: &Plan,
    section: Section,
    tree: &Table,
) -> Result<Items<T>, Fault>
    ensures ok { IfOk result (λ rows. section_in (T.row_of plan.now) section (table_view tree.now) ≡ Ok rows) }
    ensures over { IfOk result (λ rows. All (T.IsOver plan.now) rows) }
    ensures fault { IfErr result (IsFaultOf (section_in (T.row_of plan.now) section (table_view tree.now))) }
{
    match items_in(section, tree) {
        Ok(items) => Ok(Items::new(rows_in(alloc, plan, section, items)?)),
        Err(why) => Err(Fault::Refused {
            refusal: refused(section, 0, why),
        }),
    }
}

/// Goes on where the tree has no other keys than the sections.
fn known_sections(tree: &Table) -> Result<(), Refusal>
    ensures { result ≡ located Top 0 (known_keys Top (table_view tree.now)) }
{
    match known_keys(Section::Top, tree) {
        Ok(()) => Ok(()),
        Err(why) => Err(refused(Section::Top, 0, why)),
    }
}

/// What a tree expects of a plan's runs.
#[tactic(auto, unfolding(crate::specs::Expected::tree_expects))]
fn tree_expects(alloc: Global, plan: &Plan, tree: &Table) -> Result<Expectations, Fault>
    ensures ok { IfOk result (λ all. tree_expects plan.now (table_view tree.now) ≡ Ok all) }
    ensures over { IfOk result (AreOver plan.now) }
    ensures fault { IfErr result (IsFaultOf (tree_expects plan.now (table_view tree.now))) }
{
    known_sections(tree)?;
    let answers = section_in(alloc, plan, Section::Answer, tree)?;
    let ends = section_in(alloc, plan, Section::End, tree)?;
    let uses = section_in(alloc, plan, Section::Use, tree)?;
    Ok(Expectations {
        answers,
        ends,
        uses,
    })
}

/// Reads what the bytes of a file expect of a plan's runs (this project's own).
///
/// `Ok` is what they say, `Refused` the first refusal: of the bytes, of the top keys, and then table by table, first
/// of the answers, then of the ends and of the uses. `NoMemory` comes only where memory ran out.
#[tactic(auto, unfolding(crate::specs::Expected::expected_in))]
pub fn read(alloc: Global, plan: &Plan, bytes: &[u8]) -> Result<Expectations, Fault>
    ensures ok { IfOk result (λ all. expected_in plan.now bytes.now ≡ Ok all) }
    ensures over { IfOk result (AreOver plan.now) }
    ensures fault { IfErr result (IsFaultOf (expected_in plan.now bytes.now)) }
{
    if bytes.len() > EXPECT_BYTES {
        return Err(Fault::Refused {
            refusal: refused(Section::Top, 0, Why::TooLong),
        });
    }
    match document(alloc, bytes)? {
        Some(tree) => tree_expects(alloc, plan, &tree),
        None => Err(Fault::Refused {
            refusal: refused(Section::Top, 0, Why::NotToml),
        }),
    }
}
