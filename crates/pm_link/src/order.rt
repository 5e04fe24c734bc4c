//! The order of links by which those of a consumer stand together.

ghost use Rattle.std.specs.Prelude.{◌≡◌, ◌<◌, ◌≤◌, ◌^◌, ℕ, length, nat_lt, slice_index_or, All, IfOk};
ghost use Rattle.std.specs.List.{range_with_len};
ghost use Rattle.pm_link.specs.LinkOrder.{AreRanks, AreStarts, IsCountBelow, IsLinkOrder, IsOwnAt, IsRisingBy, by_pair, consumer_at, supplier_at};

use pm_base::{DevId, NoMemory};
use pm_model::LinkRow;
use std::alloc::{AllocError, Global};
use std::cmp::Ordering;

// The consumer of the link at a place, and 0 past the last.
fn consumer_at(rows: &[LinkRow], place: u32) -> u32
    ensures { result ≡ consumer_at rows.now place }
{
    match rows.get(place as usize) {
        Some(row) => row.consumer.0,
        None => 0,
    }
}

/// Its supplier.
pub fn supplier_at(rows: &[LinkRow], place: u32) -> u32
    ensures { result ≡ supplier_at rows.now place }
{
    match rows.get(place as usize) {
        Some(row) => row.supplier.0,
        None => 0,
    }
}

// How two links stand in the order.
fn compare(rows: &[LinkRow], a: u32, b: u32) -> Ordering
    ensures { result ≡ by_pair rows.now a b }
{
    consumer_at(rows, a)
        .cmp(&consumer_at(rows, b))
        .then(supplier_at(rows, a).cmp(&supplier_at(rows, b)))
        .then(a.cmp(&b))
}

// The numbers from 0 up to this one.
fn places(alloc: Global, count: u32) -> Result<Vec<u32>, AllocError>
    ensures { IfOk result (λ v. v.items ≡ range_with_len 0 count) }
{
    (0..count).collect(alloc)
}

/// The places of the links, sorted by consumer and then by supplier.
pub fn link_order(alloc: Global, rows: &[LinkRow]) -> Result<Vec<u32>, NoMemory>
    requires { length rows.now < 2 ^ 32 }
    ensures { IfOk result (λ order. IsLinkOrder rows.now order.items) }
{
    let mut order = places(alloc, rows.len() as u32)?;
    order.sort_unstable_by(|a, b| compare(rows, *a, *b));
    Ok(order)
}

// Whether the consumer of a link is below this number.
fn is_below(rows: &[LinkRow], place: u32, consumer: u64) -> bool
    ensures { result ≡ nat_lt (consumer_at rows.now place) consumer }
{
    u64::from(consumer_at(rows, place)) < consumer
}

// How many links have a consumer below this number.
fn count_below(rows: &[LinkRow], order: &[u32], consumer: u64) -> usize
    requires { IsLinkOrder rows.now order.now }
    ensures { IsCountBelow (consumer_at rows.now) order.now consumer result }
{
    order.partition_point(|place| is_below(rows, *place, consumer))
}

// Whether the supplier of a link is below this number.
fn is_supplier_below(rows: &[LinkRow], place: u32, supplier: u64) -> bool
    ensures { result ≡ nat_lt (supplier_at rows.now place) supplier }
{
    u64::from(supplier_at(rows, place)) < supplier
}

/// How many links of one consumer have a supplier below this number.
pub fn suppliers_below(rows: &[LinkRow], own: &[u32], supplier: u64) -> usize
    requires { IsRisingBy (supplier_at rows.now) own.now }
    ensures { IsCountBelow (supplier_at rows.now) own.now supplier result }
{
    own.partition_point(|place| is_supplier_below(rows, *place, supplier))
}

/// Where the links of each of so many devices begin in the order.
pub fn starts(
    alloc: Global,
    rows: &[LinkRow],
    order: &[u32],
    devices: usize,
) -> Result<Vec<usize>, NoMemory>
    requires ordered { IsLinkOrder rows.now order.now }
    requires among { All (λ row. row.consumer.0 < devices) rows.now }
    ensures { IfOk result (λ starts. AreStarts rows.now order.now starts.items) }
{
    let mut starts = Vec::new(alloc);
    for device in 0..devices {
        starts.push(count_below(rows, order, device as u64))?;
    }
    Ok(starts)
}

/// The place of each link in the order.
pub fn ranks(alloc: Global, rows: &[LinkRow], order: &[u32]) -> Result<Vec<usize>, NoMemory>
    requires { IsLinkOrder rows.now order.now }
    ensures { IfOk result (λ ranks. AreRanks order.now ranks.items) }
{
    let mut ranks = vec![in alloc; 0usize; order.len()]?;
    for rank in 0..order.len() {
        ranks[order[rank] as usize] = rank;
    }
    Ok(ranks)
}

/// Where the links of a device begin in the order. Those of one past the last would begin at its end.
pub fn start(starts: &[usize], order: &[u32], device: usize) -> usize
    ensures { result ≡ slice_index_or starts.now device (length order.now) }
{
    match starts.get(device) {
        Some(start) => *start,
        None => order.len(),
    }
}

/// The links of a consumer, that of the least supplier first.
pub fn own<'a>(rows: &[LinkRow], starts: &[usize], order: &'a [u32], consumer: DevId) -> &'a [u32]
    requires ordered { IsLinkOrder rows.now order.now }
    requires started { AreStarts rows.now order.now starts.now }
    ensures { IsOwnAt rows.now order.now consumer (slice_index_or starts.now consumer.0 (length order.now)) result.now }
{
    let from = start(starts, order, consumer.0 as usize);
    let to = start(starts, order, consumer.0 as usize + 1);
    &order[from..to]
}
