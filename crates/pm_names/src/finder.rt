//! Finds a row by its name, mostly with one look (this project's own).
//!
//! A finder keeps places of rows under numbers that their names come to. Contracts claim nothing of what it
//! keeps: a place counts where the row there has the name, and where none does the list itself is searched.

ghost use Rattle.std.specs.Prelude.{◌≡◌, ◌<◌, ◌^◌, Some, true, IfSome, IsTrue, length, map, slice_get};
ghost use Rattle.pm_model.specs.NamedList.{place_named};
ghost use Rattle.pm_names.specs.Table.{all_distinct};

use pm_base::NoMemory;
use pm_model::{Named, NamedList};
use std::alloc::Global;

/// How many numbers names come to: four for each device of the largest plan.
const NUMBERS: usize = 4_096;

/// How many places are looked at for a name, from its number on.
const LOOKS: usize = 4;

/// Stands where no place is kept.
const NO_PLACE: u32 = u32::MAX;

/// Where the rows of a list stand, by their names.
#[derive(Drop)]
pub struct Finder {
    places: Vec<u32>,
}

impl Finder {
    /// A finder for these rows. All memory is taken here.
    pub fn new<T: Named>(alloc: Global, rows: &[T]) -> Result<Finder, NoMemory> {
        let mut places = vec![in alloc; NO_PLACE; NUMBERS + LOOKS]?;
        for (place, row) in rows.iter().enumerate() {
            keep(&mut places, number(row.name().as_slice()), place);
        }
        Ok(Finder { places })
    }

    /// A finder that keeps no place. It takes no memory.
    pub fn none(alloc: Global) -> Finder {
        Finder {
            places: Vec::new(alloc),
        }
    }

    /// The place, counted from 0, of the row that has exactly this name. No two rows have one name. It takes
    /// no memory.
    pub fn find<T: Named>(&self, list: &NamedList<T>, name: &[u8]) -> Option<usize>
        requires { all_distinct (map T.name_of list.now) ≡ true }
        ensures place { result ≡ place_named name.now (map T.name_of list.now) }
        ensures in_range { IfSome result (λ place. place < length list.now) }
    {
        let first = number(name);
        for at in first..first + LOOKS {
            if let Some(place) = self.places.get(at) {
                if has_name(list, *place as usize, name) {
                    return Some(*place as usize);
                }
            }
        }
        list.find(name)
    }
}

/// The place, counted from 0, of the row that has exactly this name, and of several the first. Where there is
/// a finder, no two rows have one name. It takes no memory.
pub fn find<T: Named>(finder: Option<&Finder>, list: &NamedList<T>, name: &[u8]) -> Option<usize>
    requires { IfSome finder (λ _. all_distinct (map T.name_of list.now) ≡ true) }
    ensures place { result ≡ place_named name.now (map T.name_of list.now) }
    ensures in_range { IfSome result (λ place. place < length list.now) }
{
    match finder {
        Some(finder) => finder.find(list, name),
        None => list.find(name),
    }
}

// The number that a name comes to.
fn number(name: &[u8]) -> usize
    ensures { result < 2 ^ 12 }
{
    let mut number = 0u32;
    for byte in name {
        number = (number ^ u32::from(*byte)).wrapping_mul(0x9e37_79b1);
    }
    (number >> 20) as usize
}

// Keeps a place at the first free one of those that are looked at from a number on, if there is one.
fn keep(places: &mut [u32], number: usize, place: usize)
    requires { number < 2 ^ 12 }
{
    for at in number..number + LOOKS {
        if let Some(kept) = places.get_mut(at) {
            if *kept == NO_PLACE {
                *kept = place.min(NO_PLACE as usize) as u32;
                return;
            }
        }
    }
}

// Whether the row at a place has this name. Where it has another, the answer is no.
#[tactic(auto, using(crate::proofs::Places::row_named))]
fn has_name<T: Named>(list: &NamedList<T>, place: usize, name: &[u8]) -> bool
    requires { all_distinct (map T.name_of list.now) ≡ true }
    ensures place { IsTrue result → Some place ≡ place_named name.now (map T.name_of list.now) }
    ensures in_range { IsTrue result → place < length list.now }
{
    match list.get(place) {
        Some(row) => is_same(row.name().as_slice(), name),
        None => false,
    }
}

/// Whether the bytes are the same. It serves short texts.
pub fn is_same(a: &[u8], b: &[u8]) -> bool
    ensures { IsTrue result → a.now ≡ b.now }
{
    if a.len() != b.len() {
        return false;
    }
    for (i, x) in a.iter().enumerate() {
        if b.get(i) != Some(x) {
            return false;
        }
    }
    true
}
