//! The names of a plan, each list with an index of its own.

ghost use Rattle.std.specs.Prelude.{◌≡◌, ◌<◌, ◌^◌, length, map, vec_len, IfOk};
ghost use Rattle.pm_planread.specs.rows.Few.{AreFew};
ghost use Rattle.pm_planread.specs.rows.Names.{AreNamesOf, ArePairsOf, names_in, pair_name};

use crate::rows::apart::are_links_apart;
use crate::rows::index::{Index, Label};
use crate::tree::{RawLink, RawPlan};
use pm_base::NoMemory;
use pm_model::{Items, Name, Named, NamedList};
use std::alloc::Global;

/// The pair of names of a link as one name.
#[derive(Drop)]
pub struct Pair {
    pub name: Name,
}

impl Named for Pair {
    ghost name_of = { λ pair. pair.name };

    fn name(&self) -> &Name {
        &self.name
    }
}

/// The names of a plan's items.
#[derive(Drop)]
pub struct Names<'a> {
    pub domains: Index<'a>,
    pub devices: Index<'a>,
    /// The pairs of names of links, where it isn't known that no two are the same.
    pub links: Option<NamedList<Pair>>,
    pub callers: Index<'a>,
}

/// The names of a plan that hasn't too many items.
pub fn names_of<'a>(alloc: Global, raw: &'a RawPlan) -> Result<Names<'a>, NoMemory>
    requires { AreFew raw.now }
    ensures { IfOk result (AreNamesOf raw.now) }
{
    Ok(Names {
        domains: index_of(alloc, raw.domains.as_slice())?,
        devices: index_of(alloc, raw.devices.as_slice())?,
        links: pairs_of(alloc, raw.links.as_slice())?,
        callers: index_of(alloc, raw.callers.as_slice())?,
    })
}

/// A copy of a name.
pub fn copied(alloc: Global, name: &Name) -> Result<Name, NoMemory>
    ensures { IfOk result (λ copy. copy ≡ name.now) }
{
    Ok(Items::new(Vec::from_slice(alloc, name.as_slice())?))
}

/// The index of rows' names.
fn index_of<'a, T: Named>(alloc: Global, rows: &'a [T]) -> Result<Index<'a>, NoMemory>
    requires { length rows.now < 2 ^ 32 }
    ensures { IfOk result (λ index. names_in index ≡ map T.name_of rows.now) }
{
    Index::new(alloc, labels(alloc, rows)?)
}

fn labels<'a, T: Named>(alloc: Global, rows: &'a [T]) -> Result<Vec<Label<'a>>, NoMemory>
    ensures names { IfOk result (λ v. names_in v.items ≡ map T.name_of rows.now) }
    ensures len { IfOk result (λ v. vec_len v ≡ length rows.now) }
{
    let mut labels = Vec::with_capacity(alloc, rows.len())?;
    for row in rows {
        labels.push(Label { name: row.name() })?;
    }
    Ok(labels)
}

/// The pairs of names of links, where their numbers don't tell that no two are the same.
fn pairs_of(alloc: Global, rows: &[RawLink]) -> Result<Option<NamedList<Pair>>, NoMemory>
    requires { length rows.now < 2 ^ 32 }
    ensures { IfOk result (ArePairsOf (map (λ row. pair_name row.consumer row.supplier) rows.now)) }
{
    if are_links_apart(alloc, rows)? {
        return Ok(None);
    }
    Ok(Some(NamedList::new(alloc, pairs_in(alloc, rows)?)?))
}

fn pairs_in(alloc: Global, rows: &[RawLink]) -> Result<Vec<Pair>, NoMemory>
    ensures names { IfOk result (λ v. map (λ pair. pair.name) v.items ≡ map (λ row. pair_name row.consumer row.supplier) rows.now) }
    ensures len { IfOk result (λ v. vec_len v ≡ length rows.now) }
{
    let mut pairs = Vec::with_capacity(alloc, rows.len())?;
    for row in rows {
        let name = pair_name(alloc, row.consumer.as_slice(), row.supplier.as_slice())?;
        pairs.push(Pair { name })?;
    }
    Ok(pairs)
}

/// Two names as one, from which both can be told: 1 before each byte of the first, and 0 before the
/// second.
fn pair_name(alloc: Global, consumer: &[u8], supplier: &[u8]) -> Result<Name, NoMemory>
    ensures { IfOk result (λ name. name ≡ pair_name consumer.now supplier.now) }
{
    let mut bytes = Vec::new(alloc);
    for byte in consumer {
        bytes.push(1u8)?;
        bytes.push(*byte)?;
    }
    bytes.push(0)?;
    bytes.extend_from_slice(supplier)?;
    Ok(Items::new(bytes))
}
