//! A list whose rows have names.

ghost use Rattle.std.specs.Prelude.{◌≡◌, ◌↔◌, List, [], ℕ, ◌<◌, ◌^◌, Contains, IfNone, IfOk, IfSome, IsTrue, OnErr, OnOk, length, map, slice_get, nat_eq, vec_len};
ghost use Rattle.std.specs.List.{common_prefix_len, range_with_len};
ghost use Rattle.std.specs.Option.{option_copied};
ghost use Rattle.pm_model.specs.NameOrder.{IsNameOrder, IsPlaceInOrder, by_name, common_at, is_before, name_at};
ghost use Rattle.pm_model.specs.NamedList.{common_len, place_named};
ghost use Rattle.pm_model.specs.Scripts.{with_command};

use crate::event::Command;
use crate::items::Items;
use crate::rows::CallerRow;
use pm_base::NoMemory;
use std::alloc::{AllocError, Global};
use std::cmp::Ordering;
use std::marker::Model;

/// A row that has a name.
pub trait Named {
    /// The bytes of its name.
    ghost name_of: { Self → List ℕ };

    /// Its name.
    fn name(&self) -> &Items<u8>
        ensures { result.now ≡ name_of self.now };
}

/// A list of rows with names, which contracts see as the list of its rows.
#[derive(Drop)]
pub struct NamedList<T: Named> {
    rows: Vec<T>,
    // The places of the rows, sorted by name, and rows of one name by place.
    order: Vec<u32>,
}

impl<T: Named> Model for NamedList<T> {
    ghost use Rattle.std.specs.Prelude.{List, map};
    ghost use Rattle.pm_model.specs.NameOrder.{IsNameOrder};

    ghost Value = { List T };

    ghost view = { λ list. list.rows.items };

    ghost invariant = { λ list. IsNameOrder (map T.name_of list.rows.items) list.order.items };
}

impl<T: Named> NamedList<T> {
    /// The list of these rows, of which there are fewer than 2^32. Fails where memory runs out.
    pub fn new(alloc: Global, rows: Vec<T>) -> Result<NamedList<T>, AllocError>
    where
        T: Drop,
        requires { vec_len rows < 2 ^ 32 }
        ensures { IfOk result (λ list. list ≡ rows.items) }
    {
        let order = name_order(alloc, &rows)?;
        Ok(NamedList { rows, order })
    }

    /// The list of these rows, which have the names of another list's rows, in the same order: so it has the same
    /// order of names, and sorts nothing. Fails where memory runs out.
    pub fn named_as<U: Named>(
        alloc: Global,
        rows: Vec<T>,
        others: &NamedList<U>,
    ) -> Result<NamedList<T>, AllocError>
    where
        T: Drop,
        requires { map T.name_of rows.items ≡ map U.name_of others.now }
        ensures { IfOk result (λ list. list ≡ rows.items) }
    {
        let order = Vec::from_slice(alloc, &others.order)?;
        Ok(NamedList { rows, order })
    }

    /// The rows, in order.
    pub fn as_slice(&self) -> &[T]
        ensures { result.now ≡ self.now }
    {
        &self.rows
    }

    /// The rows as the `Vec` that holds them.
    pub fn into_vec(self) -> Vec<T>
        ensures { result.items ≡ self }
    {
        let NamedList { rows, order: _ } = self;
        rows
    }

    /// How many rows there are.
    pub fn len(&self) -> usize
        ensures { result ≡ length self.now }
    {
        self.rows.len()
    }

    /// Whether there is no row.
    pub fn is_empty(&self) -> bool
        ensures { IsTrue result ↔ (self.now ≡ []) }
    {
        self.rows.is_empty()
    }

    /// The row at a place, counted from 0.
    pub fn get(&self, place: usize) -> Option<&T>
        ensures { option_copied result ≡ slice_get self.now place }
    {
        self.rows.get(place)
    }

    /// The place, counted from 0, of the row that has exactly this name, and of several the first.
    /// It takes no memory, and compares a number of names that is logarithmic in the length.
    pub fn find(&self, name: &[u8]) -> Option<usize>
        ensures first { result ≡ place_named name.now (map T.name_of self.now) }

        // So that row has the name, `None` says that no row has it, and the place is in the list.
        ensures found { IfSome result (λ place. slice_get (map T.name_of self.now) place ≡ Some name.now) }
        ensures missing { IfNone result (¬ Contains (map T.name_of self.now) name.now) }
        ensures in_range { IfSome result (λ place. place < length self.now) }
    {
        find(&self.rows, &self.order, name)
    }

    /// The length of the longest start of these bytes with which some row's name starts, and 0 where
    /// there is no row. It takes no memory, and compares as few names as `find`.
    pub fn common_len(&self, bytes: &[u8]) -> usize
        ensures { result ≡ common_len bytes.now (map T.name_of self.now) }
    {
        common_len(&self.rows, &self.order, bytes)
    }
}

impl NamedList<CallerRow> {
    /// Puts a command at the end of a caller's script, in place: the names and their order stay. Fails where
    /// memory runs out, and changes nothing then.
    pub fn push_command(&mut self, caller: usize, command: Command) -> Result<(), NoMemory>
        requires { caller < length self.old }
        ensures ok { OnOk result (self.new ≡ with_command command caller self.old) }
        ensures err { OnErr result (self.new ≡ self.old) }
    {
        self.rows[caller].script.push(command)
    }
}

// The name of the row at a place, and no bytes past the last row.
fn name_at<T: Named>(rows: &[T], place: u32) -> &[u8]
    ensures { result.now ≡ name_at (map T.name_of rows.now) place }
{
    match rows.get(place as usize) {
        Some(row) => row.name().as_slice(),
        None => &[],
    }
}

// How two places stand in the order of names: by the bytes of their names, and two rows of one name
// by their places.
fn compare<T: Named>(rows: &[T], a: u32, b: u32) -> Ordering
    ensures { result ≡ by_name (map T.name_of rows.now) a b }
{
    name_at(rows, a).cmp(&name_at(rows, b)).then(a.cmp(&b))
}

// Whether the name at a place stands before this name.
fn is_before<T: Named>(rows: &[T], place: u32, name: &[u8]) -> bool
    ensures { result ≡ is_before (map T.name_of rows.now) name.now place }
{
    name_at(rows, place).cmp(&name).is_lt()
}

// The numbers from 0 up to this one.
fn places(alloc: Global, count: u32) -> Result<Vec<u32>, AllocError>
    ensures { IfOk result (λ v. v.items ≡ range_with_len 0 count) }
{
    (0..count).collect(alloc)
}

// The places of the rows in the order of names.
fn name_order<T: Named>(alloc: Global, rows: &[T]) -> Result<Vec<u32>, AllocError>
    requires { length rows.now < 2 ^ 32 }
    ensures { IfOk result (λ order. IsNameOrder (map T.name_of rows.now) order.items) }
{
    let mut order = places(alloc, rows.len() as u32)?;
    order.sort_unstable_by(|a, b| compare(rows, *a, *b));
    Ok(order)
}

// How many names stand before this one in the order of names.
fn count_before<T: Named>(rows: &[T], order: &[u32], name: &[u8]) -> usize
    requires { IsNameOrder (map T.name_of rows.now) order.now }
    ensures { IsPlaceInOrder (map T.name_of rows.now) order.now name.now result }
{
    order.partition_point(|place| is_before(rows, *place, name))
}

// The place of the first row of this name.
fn find<T: Named>(rows: &[T], order: &[u32], name: &[u8]) -> Option<usize>
    requires { IsNameOrder (map T.name_of rows.now) order.now }
    ensures { result ≡ place_named name.now (map T.name_of rows.now) }
{
    let place = *order.get(count_before(rows, order, name))?;
    if name_at(rows, place) == name {
        Some(place as usize)
    } else {
        None
    }
}

// How many bytes two texts have in common from the front.
fn common_prefix_len(a: &[u8], b: &[u8]) -> usize
    ensures { result ≡ common_prefix_len nat_eq a.now b.now }
{
    for (i, x) in a.iter().enumerate() {
        if b.get(i) != Some(x) {
            return i;
        }
    }
    a.len()
}

// How many bytes these and the name at an index of the order have in common from the front, and 0
// past the end of the order.
fn common_at<T: Named>(rows: &[T], order: &[u32], at: usize, bytes: &[u8]) -> usize
    ensures { result ≡ common_at (map T.name_of rows.now) order.now bytes.now at }
{
    match order.get(at) {
        Some(place) => common_prefix_len(bytes, name_at(rows, *place)),
        None => 0,
    }
}

// The most that these bytes and a name have in common from the front. The names nearest to the bytes
// in the order, before and after them, have it. Where none stands before, the first is asked twice.
fn common_len<T: Named>(rows: &[T], order: &[u32], bytes: &[u8]) -> usize
    requires { IsNameOrder (map T.name_of rows.now) order.now }
    ensures { result ≡ common_len bytes.now (map T.name_of rows.now) }
{
    let at = count_before(rows, order, bytes);
    let before = common_at(rows, order, at.saturating_sub(1), bytes);
    common_at(rows, order, at, bytes).max(before)
}
