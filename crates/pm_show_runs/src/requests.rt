//! Runs of requests that meet: waits, deferred resumes, and what `disable` and `barrier` do with
//! them.

ghost use Rattle.std.specs.Prelude.{◌≡◌};
ghost use Rattle.pm_model.specs.Lawful.{IsFinished};
ghost use Rattle.pm_show_runs.specs.Words.{run_of, text_of};
ghost use Rattle.pm_show_runs.specs.Requests.{waiting_resume_plan, waiting_resume_text, deferred_resume_plan, deferred_resume_text, deferred_once_plan, deferred_once_text, forgotten_deferral_plan, forgotten_deferral_text, asked_under_way_plan, asked_under_way_text, overtaken_request_plan, overtaken_request_text, barrier_resumes_plan, barrier_resumes_text, disable_resumes_plan, disable_resumes_text, disable_waits_plan, disable_waits_text, running_idle_plan, running_idle_text, disabled_twice_plan, disabled_twice_text, side_by_side_plan, side_by_side_text, nested_disable_plan, nested_disable_text, barrier_takes_plan, barrier_takes_text};

/// A second resume waits for the first.
pub fn waiting_resume()
    ensures text { text_of waiting_resume_plan ≡ waiting_resume_text }
    ensures finished { IsFinished waiting_resume_plan (run_of waiting_resume_plan) }
{}

/// A resume asked for while the device suspends is deferred, and follows at once.
pub fn deferred_resume()
    ensures text { text_of deferred_resume_plan ≡ deferred_resume_text }
    ensures finished { IsFinished deferred_resume_plan (run_of deferred_resume_plan) }
{}

/// A deferred resume follows once: the next suspend ends as any other.
pub fn deferred_once()
    ensures text { text_of deferred_once_plan ≡ deferred_once_text }
    ensures finished { IsFinished deferred_once_plan (run_of deferred_once_plan) }
{}

/// A work item defers a resume, and the suspend fails: the deferral is forgotten.
pub fn forgotten_deferral()
    ensures text { text_of forgotten_deferral_plan ≡ forgotten_deferral_text }
    ensures finished { IsFinished forgotten_deferral_plan (run_of forgotten_deferral_plan) }
{}

/// What a device that resumes or suspends answers, and who waits for its end.
pub fn asked_under_way()
    ensures text { text_of asked_under_way_plan ≡ asked_under_way_text }
    ensures finished { IsFinished asked_under_way_plan (run_of asked_under_way_plan) }
{}

/// A pending resume refuses a suspend; another resume leaves its work item nothing to do.
pub fn overtaken_request()
    ensures text { text_of overtaken_request_plan ≡ overtaken_request_text }
    ensures finished { IsFinished overtaken_request_plan (run_of overtaken_request_plan) }
{}

/// `barrier` carries out a pending resume first; with none it only waits.
pub fn barrier_resumes()
    ensures text { text_of barrier_resumes_plan ≡ barrier_resumes_text }
    ensures finished { IsFinished barrier_resumes_plan (run_of barrier_resumes_plan) }
{}

/// `disable` carries out a pending resume first.
pub fn disable_resumes()
    ensures text { text_of disable_resumes_plan ≡ disable_resumes_text }
    ensures finished { IsFinished disable_resumes_plan (run_of disable_resumes_plan) }
{}

/// `disable` waits for a resume that is under way, and remembers that the device was active.
pub fn disable_waits()
    ensures text { text_of disable_waits_plan ≡ disable_waits_text }
    ensures finished { IsFinished disable_waits_plan (run_of disable_waits_plan) }
{}

/// What an idle callback that runs refuses, and the `barrier` that waits for it.
pub fn running_idle()
    ensures text { text_of running_idle_plan ≡ running_idle_text }
    ensures finished { IsFinished running_idle_plan (run_of running_idle_plan) }
{}

/// `disable` waits for an idle callback, also where it is enabled meanwhile, and nests.
pub fn disabled_twice()
    ensures text { text_of disabled_twice_plan ≡ disabled_twice_text }
    ensures finished { IsFinished disabled_twice_plan (run_of disabled_twice_plan) }
{}

/// Two callers side by side: what the call of one leaves of the request of the other for the work
/// item.
pub fn side_by_side()
    ensures text { text_of side_by_side_plan ≡ side_by_side_text }
    ensures finished { IsFinished side_by_side_plan (run_of side_by_side_plan) }
{}

/// A nested `disable` leaves what the first one remembered, whatever the status has become since.
pub fn nested_disable()
    ensures text { text_of nested_disable_plan ≡ nested_disable_text }
    ensures finished { IsFinished nested_disable_plan (run_of nested_disable_plan) }
{}

/// `barrier` takes a pending suspend away, waiting or not; with no barrier it is carried out after
/// the resume.
pub fn barrier_takes()
    ensures text { text_of barrier_takes_plan ≡ barrier_takes_text }
    ensures finished { IsFinished barrier_takes_plan (run_of barrier_takes_plan) }
{}
