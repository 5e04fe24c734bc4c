//! How long a piece lasts: until its lane's next one.

ghost use Rattle.std.specs.Prelude.{◌≡◌, ◌+◌, ◌<◌, ◌^◌, ℕ, IfOk, OnOk, length, slice_get};
ghost use Rattle.pm_lanes.specs.Lanes.{AreNexts};

use crate::shown::{Lane, Piece};
use indexmap::IndexMap;
use pm_base::NoMemory;
use std::alloc::Global;

/// For each piece the place of its lane's next one, if there is one. It looks at each piece once. Fails where
/// memory runs out.
pub fn next_places(alloc: Global, pieces: &[Piece]) -> Result<Vec<Option<usize>>, NoMemory>
    ensures { IfOk result (λ nexts. AreNexts pieces.now nexts.items) }
{
    let mut nexts = vec![in alloc; None; pieces.len()]?;
    let mut firsts: IndexMap<Lane, usize> = IndexMap::new(alloc);
    let mut place = pieces.len();
    while place > 0 {
        place -= 1;
        nexts[place] = firsts.insert(pieces[place].shown.lane(), place)?;
    }
    Ok(nexts)
}
