//! Runs of power domains.

ghost use Rattle.std.specs.Prelude.{◌≡◌, true, false, []};
ghost use Rattle.pm_model.specs.Excuse.{is_excused_from_domain};
ghost use Rattle.pm_model.specs.Lawful.{IsFinished};
ghost use Rattle.pm_model.specs.Serial.{goes_on};
ghost use Rattle.pm_show_runs.specs.Words.{dev, run_of, text_of};
ghost use Rattle.pm_show_runs.specs.Domains.{domains_plan, domains_text, forced_in_domain_plan, forced_in_domain_text, kept_domains_plan, kept_domains_text};

/// Domains go on before a device resumes, and off once nothing in them is active; one that is
/// always on stays.
pub fn domains()
    ensures text { text_of domains_plan ≡ domains_text }
    ensures finished { IsFinished domains_plan (run_of domains_plan) }
{}

/// A device that was forced to active is so in a domain that is off, and leaves it off.
pub fn forced_in_domain()
    ensures text { text_of forced_in_domain_plan ≡ forced_in_domain_text }
    ensures finished { IsFinished forced_in_domain_plan (run_of forced_in_domain_plan) }
    ensures excused { is_excused_from_domain forced_in_domain_plan (goes_on forced_in_domain_plan 5 []) (dev 0) ≡ true }
    ensures excused_no_more { is_excused_from_domain forced_in_domain_plan (run_of forced_in_domain_plan) (dev 0) ≡ false }
{}

/// Domains stay on beside a disabled device and above one that is on, also after a resume that
/// fails.
pub fn kept_domains()
    ensures text { text_of kept_domains_plan ≡ kept_domains_text }
    ensures finished { IsFinished kept_domains_plan (run_of kept_domains_plan) }
{}
