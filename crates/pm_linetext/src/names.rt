//! Where the names of a line come from.

ghost use Rattle.std.specs.Prelude.{◌≡◌, ◌++◌, [], map, slice_index_or, take};
ghost use Rattle.pm_model.specs.Spelling.{Names, caller_name, device_name};
ghost use Rattle.pm_model.specs.Text.{names_of};
ghost use Rattle.pm_linetext.specs.Room.{HasRoom};

use crate::pieces::put_bytes;
use crate::text::LineBytes;
use pm_model::{Named, NamedList, Plan};

/// What gives the names of a plan's devices and callers.
pub(crate) trait NameSource {
    /// The names.
    ghost names: { Self → Names };

    /// Puts the name of a device, by its place in the plan.
    fn put_device_name(&self, bytes: &mut LineBytes, at: usize, place: usize) -> usize
        requires { HasRoom (take at bytes.old) (device_name (names self.now) place) }
        ensures { take result bytes.new ≡ take at bytes.old ++ device_name (names self.now) place };

    /// Puts the name of a caller, by its place in the plan.
    fn put_caller_name(&self, bytes: &mut LineBytes, at: usize, place: usize) -> usize
        requires { HasRoom (take at bytes.old) (caller_name (names self.now) place) }
        ensures { take result bytes.new ≡ take at bytes.old ++ caller_name (names self.now) place };
}

/// The rows of the plan have the names.
impl NameSource for Plan {
    ghost names = { names_of };

    fn put_device_name(&self, bytes: &mut LineBytes, at: usize, place: usize) -> usize {
        put_bytes(bytes, at, name_at(&self.devices, place))
    }

    fn put_caller_name(&self, bytes: &mut LineBytes, at: usize, place: usize) -> usize {
        put_bytes(bytes, at, name_at(&self.callers, place))
    }
}

/// The name of the row at a place, and no bytes past the last.
#[tactic(auto, using(crate::proofs::PieceLemmas::name_here))]
pub(crate) fn name_at<T: Named>(rows: &NamedList<T>, place: usize) -> &[u8]
    ensures { result.now ≡ slice_index_or (map T.name_of rows.now) place [] }
{
    match rows.get(place) {
        Some(row) => row.name().as_slice(),
        None => &[],
    }
}
