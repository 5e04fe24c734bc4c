//! Runs that keep every promise, and what is counted on them.

ghost use Rattle.std.specs.Prelude.{◌≡◌, true, false, not, pos, [], ◌∷◌};
ghost use Rattle.std.specs.List.{list_all};
ghost use Rattle.pm_base.specs.declared.Status.TheVariants.{Active, Suspended};
ghost use Rattle.pm_model.specs.Counted.{is_held_pair};
ghost use Rattle.pm_model.specs.Excuse.{is_denied};
ghost use Rattle.pm_model.specs.Promises.{all_hold, are_excused, disturbs, domain_bonds, parent_bonds, supplier_bonds};
ghost use Rattle.pm_show_runs.specs.Words.{dev, minus, run_of};
ghost use Rattle.pm_show_runs.specs.Counts.{disabled_get_plan, first_plan};
ghost use Rattle.pm_show_runs.specs.Domains.{domains_plan, forced_in_domain_plan};
ghost use Rattle.pm_show_runs.specs.Links.{added_link_plan, disabled_supplier_plan, failed_supplier_plan};
ghost use Rattle.pm_show_runs.specs.Parents.{child_let_go_plan, parent_follows_plan, parents_plan};
ghost use Rattle.pm_show_runs.specs.Requests.{deferred_resume_plan};
ghost use Rattle.pm_show_runs.specs.promises.Broken.{first};
ghost use Rattle.pm_show_runs.specs.promises.Shown.{IsCounted, KeepsAll, asks_supplier, awaits_idle, excused, holding, missing, puts_parent};

/// A device resumes after its parent and its parent's parent.
pub fn three_generations()
    ensures { KeepsAll parents_plan (run_of parents_plan) }
{}

/// A child resumes after its parent and suspends before it; no line disturbs, and the get returns 0.
pub fn parent_follows()
    ensures keeps { KeepsAll parent_follows_plan (run_of parent_follows_plan) }
    ensures undisturbed { list_all (λ line. not (disturbs line.event)) (run_of parent_follows_plan) ≡ true }
{}

/// A link is added, its supplier resumes with the consumer, and the link is deleted; no line disturbs.
pub fn added_link()
    ensures keeps { KeepsAll added_link_plan (run_of added_link_plan) }
    ensures undisturbed { list_all (λ line. not (disturbs line.event)) (run_of added_link_plan) ≡ true }
{}

/// Domains go on and off with their devices; no line disturbs.
pub fn domains()
    ensures keeps { KeepsAll domains_plan (run_of domains_plan) }
    ensures undisturbed { list_all (λ line. not (disturbs line.event)) (run_of domains_plan) ≡ true }
{}

/// Two callers, of which one asks for a resume while the device suspends.
pub fn deferred_resume()
    ensures { KeepsAll deferred_resume_plan (run_of deferred_resume_plan) }
{}

/// A supplier fails to resume: its consumer stays suspended, and its get returns the code.
pub fn failed_supplier()
    ensures keeps { KeepsAll failed_supplier_plan (run_of failed_supplier_plan) }
    ensures disturbed { list_all (λ line. not (disturbs line.event)) (run_of failed_supplier_plan) ≡ false }
{}

/// A disabled supplier excuses its consumer, which resumes without it; no line disturbs.
pub fn disabled_supplier()
    ensures keeps { KeepsAll disabled_supplier_plan (run_of disabled_supplier_plan) }
    ensures undisturbed { list_all (λ line. not (disturbs line.event)) (run_of disabled_supplier_plan) ≡ true }
{}

/// A get of a disabled device returns -13.
pub fn disabled_get()
    ensures keeps { KeepsAll disabled_get_plan (run_of disabled_get_plan) }
    ensures undisturbed { list_all (λ line. not (disturbs line.event)) (run_of disabled_get_plan) ≡ true }
{}

/// After its get a child is active with one count of a caller, and its parent is active without one;
/// both are suspended at the end.
pub fn counted_children()
    ensures child { IsCounted parent_follows_plan (first parent_follows_plan 29) (dev 1) 1 1 Active }
    ensures parent { IsCounted parent_follows_plan (first parent_follows_plan 29) (dev 0) 0 0 Active }
    ensures child_last { IsCounted parent_follows_plan (run_of parent_follows_plan) (dev 1) 0 0 Suspended }
    ensures parent_last { IsCounted parent_follows_plan (run_of parent_follows_plan) (dev 0) 0 0 Suspended }
{}

/// A consumer's get holds a count on its supplier that is no caller's, until the link is deleted.
pub fn counted_links()
    ensures supplier { IsCounted added_link_plan (first added_link_plan 47) (dev 0) 1 0 Active }
    ensures held { is_held_pair (first added_link_plan 47) (dev 1) (dev 0) ≡ true }
    ensures supplier_last { IsCounted added_link_plan (run_of added_link_plan) (dev 0) 0 0 Suspended }
    ensures held_no_more { is_held_pair (run_of added_link_plan) (dev 1) (dev 0) ≡ false }
    ensures consumer_last { IsCounted added_link_plan (run_of added_link_plan) (dev 1) 1 1 Active }
{}

/// The bonds of a device with its domain and with its parent: it has none, one that holds, or one that
/// doesn't and from which it is excused.
pub fn bonds_above()
    ensures no_domain { domain_bonds first_plan (first first_plan 13) (dev 0) ≡ [] }
    ensures domain { domain_bonds domains_plan (first domains_plan 16) (dev 0) ≡ holding ∷ [] }
    ensures domain_excused { domain_bonds forced_in_domain_plan (first forced_in_domain_plan 5) (dev 0) ≡ excused ∷ [] }
    ensures no_parent { parent_bonds first_plan (first first_plan 13) (dev 0) ≡ [] }
    ensures parent { parent_bonds child_let_go_plan (first child_let_go_plan 27) (dev 1) ≡ holding ∷ [] }
    ensures parent_excused { parent_bonds child_let_go_plan (run_of child_let_go_plan) (dev 1) ≡ excused ∷ [] }
{}

/// The bonds of a consumer: none before its link is added, and one with each supplier.
pub fn bonds_with_suppliers()
    ensures absent { supplier_bonds added_link_plan (first added_link_plan 15) (dev 1) ≡ [] }
    ensures added { supplier_bonds added_link_plan (first added_link_plan 47) (dev 1) ≡ holding ∷ [] }
    ensures no_consumer { supplier_bonds added_link_plan (first added_link_plan 47) (dev 0) ≡ [] }
    ensures denied { supplier_bonds disabled_supplier_plan (run_of disabled_supplier_plan) (dev 1) ≡ excused ∷ [] }
    ensures two { supplier_bonds failed_supplier_plan (first failed_supplier_plan 24) (dev 2) ≡ holding ∷ missing ∷ [] }
    ensures one_excused { all_hold (holding ∷ excused ∷ []) ≡ false }
    ensures one_missing { are_excused (holding ∷ excused ∷ missing ∷ []) ≡ false }
    ensures none_missing { are_excused (holding ∷ excused ∷ []) ≡ true }
{}

/// A supplier is disabled where -13 comes to the resume that awaits it for that link: at once, or after
/// a put on the supplier's parent, which hands on the supplier's own code and not that of the idle call.
pub fn disabled_suppliers()
    ensures at_once { is_denied 0 (asks_supplier 0 ∷ []) (minus 13) ≡ true }
    ensures other_code { is_denied 0 (asks_supplier 0 ∷ []) (minus 11) ≡ false }
    ensures other_link { is_denied 1 (asks_supplier 0 ∷ []) (minus 13) ≡ false }
    ensures after_put { is_denied 0 (puts_parent (minus 13) ∷ asks_supplier 0 ∷ []) (pos 0) ≡ true }
    ensures of_the_idle { is_denied 0 (puts_parent (pos 0) ∷ asks_supplier 0 ∷ []) (minus 13) ≡ false }
    ensures taken_above { is_denied 0 (awaits_idle ∷ asks_supplier 0 ∷ []) (minus 13) ≡ false }
    ensures dropped { is_denied 0 [] (minus 13) ≡ false }
{}
