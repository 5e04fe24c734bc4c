//! What the outcomes of a plan's islands tell together.

ghost use Rattle.std.specs.Prelude.{ℕ, ◌≡◌, ◌≢◌, ◌↔◌, true};
ghost use Rattle.std.specs.List.{Contains};
ghost use Rattle.pm_outcomes.specs.islands.Homes.{home};
ghost use Rattle.pm_cmd_lab.specs.orders.Orders.{IsNamed, IsOfPlan, IslandFound, IslandsFound, outcomes_in, pace_of, reach_in};
ghost use Rattle.pm_lab_words.specs.declared.request.Bounds.{Bounds as TheBounds};
ghost use Rattle.pm_outcomes.specs.declared.list.observations.Observation.{Observation as AnObservation};
ghost use Rattle.pm_outcomes.specs.declared.list.observations.Outcome.{Outcome as AnOutcome};
ghost use Rattle.pm_outcomes.specs.list.Shown.{observation_of};
ghost use Rattle.pm_model.specs.declared.plan.Plan.{Plan as APlan};
ghost use Rattle.pm_outcomes.specs.text.Texts.{differs, is_alike};
ghost use Rattle.pm_outcomes.specs.find.Had.{IsHad, IsHadWithin, IsListed, IsListedWithin};
ghost use Rattle.pm_explore.specs.declared.search.found.Ended.TheVariants.{Whole};
ghost use Rattle.pm_explore.specs.search.Seen.{IsSeen};

/// Of what was found of a plan's islands: each observation of the plan is at home on one of them. It is listed with a number of
/// at most k, for each k of which all schedules of its island were seen, exactly where some schedule of the island's part with at
/// most k preemptions has it; and where the search saw all of the island, exactly where any schedule of the part has it. Of the
/// numbers that the last line names all schedules of each island were seen.
pub fn islands_are_exact()
    ensures homes { (bounds : TheBounds) (plan : APlan) (found : IslandsFound bounds plan) (m : AnObservation) → IsOfPlan plan m → (one : IslandFound bounds plan found.numbering.island) × Contains found.islands one × (home found.numbering.island m ≡ one.number) }
    ensures within { (bounds : TheBounds) (plan : APlan) (found : IslandsFound bounds plan) (one : IslandFound bounds plan found.numbering.island) (m : AnObservation) (k : ℕ) → Contains found.islands one → home found.numbering.island m ≡ one.number → IsSeen one.found.ended one.found.rounds k → IsListedWithin (outcomes_in found.islands) k (observation_of m) ↔ IsHadWithin (pace_of bounds) one.part k (observation_of m) }
    ensures of_all { (bounds : TheBounds) (plan : APlan) (found : IslandsFound bounds plan) (one : IslandFound bounds plan found.numbering.island) (m : AnObservation) → Contains found.islands one → home found.numbering.island m ≡ one.number → one.found.ended ≡ Whole → IsListed (outcomes_in found.islands) (observation_of m) ↔ IsHad (pace_of bounds) one.part (observation_of m) }
    ensures rounds { (bounds : TheBounds) (plan : APlan) (found : IslandsFound bounds plan) (one : IslandFound bounds plan found.numbering.island) (k : ℕ) → Contains found.islands one → IsNamed k (reach_in found.islands) → IsSeen one.found.ended one.found.rounds k }
{}

/// Of what was found of a plan's islands the list differs wherever it has two different observations of one command or one device: `differs`, which
/// looks at neighbours alone, sees them.
pub fn two_observations_differ()
    ensures { (bounds : TheBounds) (plan : APlan) (found : IslandsFound bounds plan) (o p : AnOutcome) → Contains (outcomes_in found.islands) o → Contains (outcomes_in found.islands) p → is_alike o.observation p.observation ≡ true → o.observation ≢ p.observation → differs (outcomes_in found.islands) ≡ true }
{}
