//! What is answered of a device.

ghost use Rattle.std.specs.Prelude.{◌≡◌};
ghost use Rattle.pm_safety.specs.Inspected.{answer};

/// How a device stands with its domains, with its parent or with its suppliers.
#[derive(Clone, Copy, PartialEq, Eq)]
pub enum Bond {
    /// The device isn't live, or it has none of these.
    Nothing,
    /// They are all as the device needs them: its domains on, its parent or its suppliers Active.
    Kept,
    /// One isn't, and the device is excused from each that isn't.
    Excused,
}

/// How a device stands.
#[derive(Clone, Copy, PartialEq, Eq)]
pub struct Inspect {
    /// Whether the device is Active, or its suspend or resume callback runs.
    pub live: bool,
    /// With its domain and those above it: they are on.
    pub domains: Bond,
    /// With its parent: it is Active (`runtime_pm.rst`, section 2).
    pub parent: Bond,
    /// With the supplier of each of its links that has `DL_FLAG_PM_RUNTIME` and is present: it is Active
    /// (`device_link.rst`).
    pub suppliers: Bond,
}

/// The answer for a device that is live or not, that has some bonds of a kind or none, and where all of
/// them hold or not.
pub fn answer(live: bool, some: bool, hold: bool) -> Bond
    ensures { result ≡ answer live some hold }
{
    if !live || !some {
        Bond::Nothing
    } else if hold {
        Bond::Kept
    } else {
        Bond::Excused
    }
}
