//! Where each observation showed first.

ghost use Rattle.std.specs.Prelude.{◌≡◌, ◌++◌, ◌∷◌, [], List, OnOk, ℕ};
ghost use Rattle.pm_outcomes.specs.declared.list.observations.Observation.{Observation as AnObservation};
ghost use Rattle.pm_outcomes.specs.list.Firsts.{AreFirsts, IsUpTo};

use crate::list::observations::Observation;
use indexmap::IndexMap;
use std::alloc::{AllocError, Global};

/// The observations that showed, no two of them equal, each with the place at which it showed first.
#[derive(Drop)]
pub struct Firsts {
    pub entries: IndexMap<Observation, usize>,
}

/// No observation.
pub fn new_firsts(alloc: Global) -> Firsts
    ensures { result.entries.entries ≡ [] }
{
    Firsts {
        entries: IndexMap::new(alloc),
    }
}

/// Notes that an observation shows at a place, which is no earlier than those before.
pub fn note(firsts: &mut Firsts, observation: Observation, place: usize) -> Result<(), AllocError>
    ensures { OnOk result ((seen : List (AnObservation × ℕ)) → IsUpTo place seen → AreFirsts seen firsts.old.entries.entries → AreFirsts (seen ++ (observation, place) ∷ []) firsts.new.entries.entries) }
{
    if !firsts.entries.contains_key(&observation) {
        firsts.entries.insert(observation, place)?;
    }
    Ok(())
}
