//! Lists whose rows have names.

ghost use Rattle.std.specs.Prelude.{◌<◌, ◌^◌, length};

use pm_model::{DomainRow, Items, NamedList};
use pm_planread::PlanFault;
use std::alloc::{AllocError, Global};

/// What is asked of a list, with what it must answer.
#[derive(Clone, Copy)]
pub enum Ask {
    Find(&'static [u8], Option<usize>),
    // The longest start of these bytes that is a start of a name.
    Common(&'static [u8], usize),
    IsEmpty(bool),
}

use Ask::*;

/// What is shown, the names of the list, and what is asked of it.
pub static CASES: [(&str, &[&[u8]], &[Ask]); 4] = cases! {
    "list, names are found whole", &[b"b", b"ab", b"a", b"a\0b", b"abc"] => {
        Find(b"b", Some(0)); Find(b"ab", Some(1)); Find(b"a", Some(2));
        Find(b"a\0b", Some(3)); Find(b"abc", Some(4)); Find(b"", None); Find(b"a\0", None);
        Find(b"ab\0", None); Find(b"abcd", None); Find(b"b\0", None); Find(b"c", None);
        Find(b"B", None); Find(b"\xff", None);
    }
    "list, the first row of a name is found", &[b"y", b"x", b"y", b"x", b"x"] => {
        Find(b"x", Some(1)); Find(b"y", Some(0));
    }
    "list, an empty list has no name", &[] => { IsEmpty(true); Find(b"", None); Common(b"a", 0); }
    "list, the longest common start is counted", &[b"gpu", b"beta", b"alps", b"alpha", b"bet"] => {
        Common(b"", 0); Common(b"Al", 0); Common(b"zeta", 0); Common(b"a", 1);
        Common(b"alarm", 2); Common(b"alpine", 3); Common(b"alpz", 3); Common(b"alpha", 5);
        Common(b"alphabet", 5); Common(b"bez", 2); Common(b"betas", 4); Common(b"gpu\0", 3);
    }
};

/// A row of this name.
fn row_of(alloc: Global, name: &[u8]) -> Result<DomainRow, AllocError> {
    Ok(DomainRow {
        name: Items::new(Vec::from_slice(alloc, name)?),
        parent: None,
        always_on: false,
    })
}

/// The list of rows of these names.
fn listed(alloc: Global, names: &[&[u8]]) -> Result<NamedList<DomainRow>, AllocError>
    requires { length names.now < 2 ^ 32 }
{
    let mut rows = Vec::new(alloc);
    for name in names {
        rows.push(row_of(alloc, *name)?)?;
    }
    NamedList::new(alloc, rows)
}

/// Whether the list of these names answers all as it must.
pub fn shows(alloc: Global, names: &[&[u8]], asks: &[Ask]) -> Result<bool, PlanFault> {
    if names.len() > 1_000 {
        return Ok(false);
    }
    let list = listed(alloc, names)?;
    let mut is_shown = true;
    for ask in asks {
        is_shown &= match *ask {
            Find(name, place) => list.find(name) == place,
            Common(bytes, len) => list.common_len(bytes) == len,
            IsEmpty(is_empty) => list.is_empty() == is_empty,
        };
    }
    Ok(is_shown)
}

/// Rows come back as they were.
pub fn come_back(alloc: Global) -> Result<bool, PlanFault> {
    let list = listed(alloc, &[b"b", b"a"])?;
    let Some(second) = list.get(1) else {
        return Ok(false);
    };
    let is_shown = list.len() == 2
        && !list.is_empty()
        && second.name.as_slice() == b"a".as_slice()
        && list.get(2).is_none()
        && list.as_slice().len() == 2;
    let rows = list.into_vec();
    Ok(is_shown && rows.len() == 2 && rows[0].name.as_slice() == b"b".as_slice())
}

/// The name at a place: the numbers 0 to 999 in the order of 367 k modulo 1,000, which has each of them
/// once.
fn nth_name(alloc: Global, k: u32) -> Result<String, AllocError>
    requires { k < 1000 }
{
    format!(in alloc; "{}", 367 * k % 1_000)
}

/// The list of a thousand rows of these names.
fn thousand(alloc: Global) -> Result<NamedList<DomainRow>, AllocError> {
    let mut rows = Vec::new(alloc);
    for k in 0..1_000u32 {
        let name = nth_name(alloc, k)?;
        rows.push(row_of(alloc, name.as_bytes())?)?;
    }
    NamedList::new(alloc, rows)
}

/// Each of a thousand names is found, and no other.
pub fn thousand_are_found(alloc: Global) -> Result<bool, PlanFault> {
    let list = thousand(alloc)?;
    let others = [
        list.find(b"1000"),
        list.find(b"00"),
        list.find(b"99 "),
        list.find(b"-1"),
    ];
    let mut is_shown = others == [None, None, None, None];
    for k in 0..1_000u32 {
        let name = nth_name(alloc, k)?;
        is_shown &= list.find(name.as_bytes()) == Some(k as usize);
    }
    Ok(is_shown)
}
