//! What the law says of whole runs and of wrong lines, by computation.

ghost use Rattle.std.specs.Prelude.{◌≡◌, ◌∷◌, drop, take};
ghost use Rattle.pm_show_runs.specs.Counts.{first_plan};
ghost use Rattle.pm_show_runs.specs.Parents.{parents_plan};
ghost use Rattle.pm_show_runs.specs.Words.{dev, run_of};
ghost use Rattle.pm_laws.specs.gets.Alone.{IsAlone, OneCall, resumes_begun};
ghost use Rattle.pm_show_runs.specs.promises.WrongLines.{begins};

/// The last 35 lines of a run are one call of `get_sync`, whose device has a parent that has one too.
/// Each of the three is resumed once.
pub fn three_generations()
    ensures call { OneCall 0 (dev 2) (take 35 (run_of parents_plan)) }
    ensures own { resumes_begun (dev 2) (take 35 (run_of parents_plan)) ≡ 1 }
    ensures parent { resumes_begun (dev 1) (take 35 (run_of parents_plan)) ≡ 1 }
    ensures above { resumes_begun (dev 0) (take 35 (run_of parents_plan)) ≡ 1 }
{}

/// In the call of `get_sync` of a run the resume callback begins a second time, or in its place that of another
/// device begins, which isn't reached.
pub fn wrong_lines()
    ensures twice { ¬ IsAlone first_plan (begins (dev 0) ∷ drop 9 (run_of first_plan)) }
    ensures unreached { ¬ IsAlone first_plan (begins (dev 1) ∷ drop 10 (run_of first_plan)) }
{}
