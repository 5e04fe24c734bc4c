//! Which island a hand goes to.

ghost use Rattle.std.specs.Prelude.{◌≡◌, ◌<◌, ◌^◌};
ghost use Rattle.pm_hands.specs.Ways.{next_island};

/// The island that a hand goes to from one of so many: the one that a hint names, and without one, or where
/// it isn't below the count, the next in turn.
pub fn next_island(hint: Option<u32>, at: usize, count: usize) -> usize
    requires { at < count }
    ensures island { result ≡ next_island hint at count }
    ensures in_range { result < count }
{
    match hint {
        Some(island) if (island as usize) < count => island as usize,
        _ => (at + 1) % count,
    }
}
