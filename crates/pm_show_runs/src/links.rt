//! Runs of links from consumers to suppliers.

ghost use Rattle.std.specs.Prelude.{◌≡◌, true};
ghost use Rattle.pm_model.specs.Excuse.{is_excused_from_supplier};
ghost use Rattle.pm_model.specs.Lawful.{IsFinished};
ghost use Rattle.pm_show_runs.specs.Words.{dev, run_of, text_of};
ghost use Rattle.pm_show_runs.specs.Links.{failed_supplier_plan, failed_supplier_text, disabled_supplier_plan, disabled_supplier_text, added_link_plan, added_link_text, link_helpers_plan, link_helpers_text, suppliers_in_order_plan, suppliers_in_order_text, forced_status_plan, forced_status_text, absent_link_plan, absent_link_text, suppliers_given_back_plan, suppliers_given_back_text};

/// A supplier that fails to resume has the consumer give back its counts on all suppliers.
pub fn failed_supplier()
    ensures text { text_of failed_supplier_plan ≡ failed_supplier_text }
    ensures finished { IsFinished failed_supplier_plan (run_of failed_supplier_plan) }
{}

/// A disabled supplier doesn't keep its consumer from resuming.
pub fn disabled_supplier()
    ensures text { text_of disabled_supplier_plan ≡ disabled_supplier_text }
    ensures finished { IsFinished disabled_supplier_plan (run_of disabled_supplier_plan) }
    ensures excused { is_excused_from_supplier disabled_supplier_plan (run_of disabled_supplier_plan) (dev 1) 0 (dev 0) ≡ true }
{}

/// A link is added only while its consumer is suspended; removed, it gives its count back.
pub fn added_link()
    ensures text { text_of added_link_plan ≡ added_link_text }
    ensures finished { IsFinished added_link_plan (run_of added_link_plan) }
{}

/// What the link helpers refuse, and a consumer that suspends while its idle callback runs.
pub fn link_helpers()
    ensures text { text_of link_helpers_plan ≡ link_helpers_text }
    ensures finished { IsFinished link_helpers_plan (run_of link_helpers_plan) }
{}

/// The suppliers are taken, and told, in the order of devices and not of links.
pub fn suppliers_in_order()
    ensures text { text_of suppliers_in_order_plan ≡ suppliers_in_order_text }
    ensures finished { IsFinished suppliers_in_order_plan (run_of suppliers_in_order_plan) }
{}

/// `set_active` takes the suppliers and minds the parent; `set_suspended` gives the suppliers back.
pub fn forced_status()
    ensures text { text_of forced_status_plan ≡ forced_status_text }
    ensures finished { IsFinished forced_status_plan (run_of forced_status_plan) }
{}

/// `set_active` and `set_suspended` pass over a link that is absent, and tell the supplier of one
/// that was added.
pub fn absent_link()
    ensures text { text_of absent_link_plan ≡ absent_link_text }
    ensures finished { IsFinished absent_link_plan (run_of absent_link_plan) }
{}

/// The suppliers are given back in the order of devices too, by a suspend and by a `set_active`
/// that fails.
pub fn suppliers_given_back()
    ensures text { text_of suppliers_given_back_plan ≡ suppliers_given_back_text }
    ensures finished { IsFinished suppliers_given_back_plan (run_of suppliers_given_back_plan) }
{}
