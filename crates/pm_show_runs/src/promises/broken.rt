//! Lines that break a promise, and lines like them that don't.

ghost use Rattle.std.specs.Prelude.{◌≡◌, true, [], ◌∷◌};
ghost use Rattle.pm_base.specs.declared.Cb.TheVariants as cb;
ghost use Rattle.pm_model.specs.declared.event.Word.TheVariants as word;
ghost use Rattle.pm_model.specs.Promises.{IsNeverStuck, gets_succeed, is_exclusive, is_kept, is_safe};
ghost use Rattle.pm_show_runs.specs.Words.{dev, run_of};
ghost use Rattle.pm_show_runs.specs.Counts.{first_plan};
ghost use Rattle.pm_show_runs.specs.Domains.{domains_plan};
ghost use Rattle.pm_show_runs.specs.Links.{disabled_supplier_plan, failed_supplier_plan};
ghost use Rattle.pm_show_runs.specs.Parents.{child_let_go_plan, parent_follows_plan};
ghost use Rattle.pm_show_runs.specs.promises.Broken.{abandoned, begins, first, get_fails, get_returns, gives_one, says, takes_one};
ghost use Rattle.pm_show_runs.specs.promises.Shown.{IsBrokenBy};

/// A device becomes active without its parent, its supplier or its domain, its callback begins
/// without its parent, or the parent of an active device is suspended. A parent that is disabled where
/// the device begins to resume excuses it. The excuse of a disabled supplier ends where the device is
/// suspended.
pub fn unsafe_lines()
    ensures parent { IsBrokenBy (is_safe child_let_go_plan) (says (dev 1) word.Active) (says (dev 1) word.Resuming ∷ first child_let_go_plan 4) }
    ensures supplier { IsBrokenBy (is_safe failed_supplier_plan) (says (dev 2) word.Active) (says (dev 2) word.Resuming ∷ first failed_supplier_plan 6) }
    ensures domain { IsBrokenBy (is_safe domains_plan) (says (dev 0) word.Active) (says (dev 0) word.Resuming ∷ first domains_plan 4) }
    ensures callback { IsBrokenBy (is_safe child_let_go_plan) (begins (dev 1) cb.Resume) (says (dev 1) word.Resuming ∷ first child_let_go_plan 4) }
    ensures parent_leaves { IsBrokenBy (is_safe parent_follows_plan) (says (dev 0) word.Suspended) (first parent_follows_plan 29) }
    ensures disabled_supplier { IsBrokenBy (is_safe disabled_supplier_plan) (says (dev 1) word.Active) (says (dev 1) word.Resuming ∷ says (dev 1) word.Suspended ∷ run_of disabled_supplier_plan) }
    ensures disabled_parent { is_safe child_let_go_plan (says (dev 1) word.Active ∷ says (dev 1) word.Resuming ∷ []) ≡ true }
{}

/// A suspend begins of a suspended device, of one with a count and of one with an active child; an
/// idle callback of one with a count; a resume of an active device, and a second resume callback.
pub fn not_exclusive_lines()
    ensures suspended { IsBrokenBy (is_exclusive first_plan) (begins (dev 0) cb.Suspend) (first first_plan 2) }
    ensures in_use { IsBrokenBy (is_exclusive first_plan) (begins (dev 0) cb.Suspend) (first first_plan 13) }
    ensures with_child { IsBrokenBy (is_exclusive parent_follows_plan) (begins (dev 0) cb.Suspend) (first parent_follows_plan 29) }
    ensures idle_in_use { IsBrokenBy (is_exclusive first_plan) (begins (dev 0) cb.Idle) (first first_plan 13) }
    ensures active { IsBrokenBy (is_exclusive first_plan) (says (dev 0) word.Resuming) (first first_plan 13) }
    ensures second { IsBrokenBy (is_exclusive first_plan) (begins (dev 0) cb.Resume) (first first_plan 7) }
{}

/// A device is suspended while the count of a get that returned 0 is held, or while another caller's
/// count that came before its end is. Once all are given back, or where the status is forced, the same
/// breaks nothing; nor where the get failed, nor where the status was forced before it returned, even
/// if another caller then took a count.
pub fn not_kept_lines()
    ensures held { IsBrokenBy (is_kept first_plan) (says (dev 0) word.Suspended) (first first_plan 13) }
    ensures shared { IsBrokenBy (is_kept first_plan) (says (dev 0) word.Suspended) (gives_one 0 (dev 0) ∷ takes_one 9 (dev 0) ∷ first first_plan 13) }
    ensures failed { is_kept first_plan (says (dev 0) word.Suspended ∷ get_fails (dev 0) ∷ first first_plan 12) ≡ true }
    ensures forced_before { is_kept first_plan (says (dev 0) word.Suspended ∷ get_returns (dev 0) ∷ takes_one 9 (dev 0) ∷ says (dev 0) word.ForcedActive ∷ first first_plan 12) ≡ true }
    ensures given_back { is_kept first_plan (says (dev 0) word.Suspended ∷ first first_plan 15) ≡ true }
    ensures forced { is_kept first_plan (says (dev 0) word.ForcedSuspended ∷ first first_plan 13) ≡ true }
{}

/// A get of an enabled device returns -11 though nothing failed.
pub fn failing_lines()
    ensures { IsBrokenBy (gets_succeed first_plan) (get_fails (dev 0)) (first first_plan 12) }
{}

/// A caller waits for a resume that nobody carries out: the run isn't finished, and nothing follows.
pub fn stuck()
    ensures { ¬ IsNeverStuck first_plan abandoned }
{}
