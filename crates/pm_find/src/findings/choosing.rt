//! Findings by their weight.

ghost use Rattle.std.specs.Prelude.{◌≡◌, IfOk, not};
ghost use Rattle.std.specs.List.{filter, list_any};
ghost use Rattle.pm_find.specs.findings.StandsOut.{is_note, weight_of};

use crate::findings::{Finding, Weight};
use pm_base::NoMemory;
use std::alloc::Global;

// Whether a finding is only a note.
fn is_note(found: &Finding) -> bool
    ensures { result ≡ is_note (weight_of found.now.kind) }
{
    matches!(found.kind.weight(), Weight::Note)
}

/// Whether some finding is an error or a warning.
pub fn has_faults(all: &[Finding]) -> bool
    ensures { result ≡ list_any (λ found. not (is_note (weight_of found.kind))) all.now }
{
    all.iter().any(|found| !is_note(found))
}

/// The errors and the warnings, in the same order. Fails where memory runs out.
pub fn faults(alloc: Global, all: &[Finding]) -> Result<Vec<Finding>, NoMemory>
    ensures { IfOk result (λ faults. faults.items ≡ filter (λ found. not (is_note (weight_of found.kind))) all.now) }
{
    let mut faults = Vec::new(alloc);
    for found in all {
        if !is_note(found) {
            faults.push(*found)?;
        }
    }
    Ok(faults)
}
