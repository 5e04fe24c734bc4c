//! Which links are held and which are live, by their places in the order.

ghost use Rattle.std.specs.Prelude.{◌≡◌, ◌<◌, false, length, map, not, slice_set, IfOk};
ghost use Rattle.pm_link.specs.LinkOrder.{IsLinkOrder};
ghost use Rattle.pm_link.specs.Marked.{AreMarks, IsSized, is_live, noted, starts_live};

use pm_base::NoMemory;
use pm_index::Bits;
use pm_model::LinkRow;
use std::alloc::Global;

/// Links by their places in the order. A link is live where it is present and has
/// `DL_FLAG_PM_RUNTIME`.
#[derive(Drop)]
pub struct Marks {
    /// Those that are held, live or not.
    pub held: Bits,
    /// Those that are live.
    pub live: Bits,
    /// Those that are live and held.
    pub live_held: Bits,
    /// Those that are live and free.
    pub live_free: Bits,
}

/// Whether a link is live.
pub fn is_live(row: LinkRow, present: bool) -> bool
    ensures { result ≡ is_live row present }
{
    row.pm_runtime && present
}

// The links that are live before any line.
fn live_at_first(alloc: Global, rows: &[LinkRow], order: &[u32]) -> Result<Bits, NoMemory>
    requires { IsLinkOrder rows.now order.now }
    ensures { IfOk result (λ bits. bits ≡ map (starts_live rows.now) order.now) }
{
    let mut bits = Bits::new(alloc, order.len())?;
    for rank in 0..order.len() {
        let row = rows[order[rank] as usize];
        if is_live(row, !row.later) {
            bits.put(rank);
        }
    }
    Ok(bits)
}

// Puts a number into a set, or takes it out.
fn mark(bits: &mut Bits, number: usize, to: bool)
    requires { number < length bits.old }
    ensures { bits.new ≡ slice_set bits.old number to }
{
    if to {
        bits.put(number);
    } else {
        bits.remove(number);
    }
}

impl Marks {
    /// The links before any line: none is held. Fails where memory runs out.
    pub fn fresh(alloc: Global, rows: &[LinkRow], order: &[u32]) -> Result<Marks, NoMemory>
        requires { IsLinkOrder rows.now order.now }
        ensures { IfOk result (λ marks. AreMarks rows.now order.now (map (λ row. false) rows.now) (map (λ row. not row.later) rows.now) marks) }
    {
        Ok(Marks {
            held: Bits::new(alloc, order.len())?,
            live: live_at_first(alloc, rows, order)?,
            live_held: Bits::new(alloc, order.len())?,
            live_free: live_at_first(alloc, rows, order)?,
        })
    }

    /// The link at a place of the order is live or not, and held or free.
    pub fn note(&mut self, rank: usize, live: bool, held: bool)
        requires sized { IsSized (length self.old.held) self.old }
        requires in_range { rank < length self.old.held }
        ensures { self.new ≡ noted self.old rank live held }
    {
        mark(&mut self.held, rank, held);
        mark(&mut self.live, rank, live);
        mark(&mut self.live_held, rank, live && held);
        mark(&mut self.live_free, rank, live && !held);
    }
}
