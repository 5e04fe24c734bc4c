//! Sums over stacks, and how they change where the top of one stack gives way.

ghost use Rattle.std.specs.Prelude.{◌≡◌, ◌≤◌, ◌<◌, ◌+◌, ℕ, List, [], ◌∷◌, ◌++◌, length, slice_set, slice_index_or};
ghost use Rattle.pm_laws.specs.counts.Sums.{tally, weigh};

/// What holds of the sum over all stages of all stacks, for stages of any type.
pub fn tallies<T>()
    // The top of one stack gives way to a few stages.
    ensures replaced { (f : T → ℕ) (stacks : List (List T)) (i : ℕ) (s : T) (rest next : List T) → i < length stacks
        → slice_index_or stacks i [] ≡ s ∷ rest
        → tally f (slice_set stacks i (next ++ rest)) + f s ≡ tally f stacks + weigh f next }
    // The top of a stack is within the sum.
    ensures within { (f : T → ℕ) (stacks : List (List T)) (i : ℕ) (s : T) (rest : List T) → i < length stacks
        → slice_index_or stacks i [] ≡ s ∷ rest → f s ≤ tally f stacks }
{}
