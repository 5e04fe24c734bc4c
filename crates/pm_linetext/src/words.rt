//! What the words of a trace name: helpers, changes of status, requests and callbacks.
//!
//! A word's place is the one that it has in its table of `pm_names`, counted from 0. There the words
//! stand in the order in which the enums declare their variants.

ghost use Rattle.std.specs.Prelude.{◌≡◌, ◌≢◌, ℕ, Some, IfNone, IfSome, slice_get};
ghost use Rattle.pm_base.specs.declared.Cb.{Cb};
ghost use Rattle.pm_base.specs.declared.Req.{Req};
ghost use Rattle.pm_model.specs.Spelling.{cb_word, helper_word, operand_of, req_word, status_word};
ghost use Rattle.pm_model.specs.Spelling.{takes_device};
ghost use Rattle.pm_model.specs.declared.event.Helper.{Helper};
ghost use Rattle.pm_model.specs.declared.event.Word.{Word};
ghost use Rattle.pm_names.specs.Table.{place_of};
ghost use Rattle.pm_names.specs.Words.{cb_words, helper_words, req_words, status_words};
ghost use Rattle.pm_linetext.specs.Words.{all_cbs, all_helpers, all_reqs, all_statuses};

use pm_base::{Cb, Req};
use pm_model::{Helper, Operand, Word};
use pm_names::{cb_words, helpers, req_words, status_words};

static HELPERS: [Helper; 34] = [
    Helper::GetSync,
    Helper::Get,
    Helper::GetNoresume,
    Helper::GetIfInUse,
    Helper::GetIfActive,
    Helper::Resume,
    Helper::RequestResume,
    Helper::Put,
    Helper::PutSync,
    Helper::PutNoidle,
    Helper::PutAutosuspend,
    Helper::PutSyncSuspend,
    Helper::PutSyncAutosuspend,
    Helper::Idle,
    Helper::RequestIdle,
    Helper::Suspend,
    Helper::Autosuspend,
    Helper::RequestAutosuspend,
    Helper::ScheduleSuspend,
    Helper::Enable,
    Helper::Disable,
    Helper::Barrier,
    Helper::SetActive,
    Helper::SetSuspended,
    Helper::Allow,
    Helper::Forbid,
    Helper::MarkLastBusy,
    Helper::UseAutosuspend,
    Helper::DontUseAutosuspend,
    Helper::SetAutosuspendDelay,
    Helper::Delay,
    Helper::IgnoreChildren,
    Helper::LinkAdd,
    Helper::LinkDel,
];

static STATUSES: [Word; 6] = [
    Word::Active,
    Word::Resuming,
    Word::Suspended,
    Word::Deferred,
    Word::ForcedActive,
    Word::ForcedSuspended,
];

static REQS: [Req; 5] = [
    Req::Nothing,
    Req::Idle,
    Req::Suspend,
    Req::Autosuspend,
    Req::Resume,
];

static CBS: [Cb; 3] = [Cb::Idle, Cb::Suspend, Cb::Resume];

/// The helper whose word stands at this place, or `None` past the last.
pub fn helper_of(place: usize) -> Option<Helper>
    ensures { result ≡ slice_get all_helpers place }
{
    item_at(&HELPERS, place)
}

/// The place of the word of a helper.
pub fn helper_place(helper: Helper) -> usize
    ensures here { slice_get all_helpers result ≡ Some helper }
    ensures only { (place : ℕ) → slice_get all_helpers place ≡ Some helper → place ≡ result }
    ensures word { slice_get helper_words result ≡ Some (helper_word helper) }
    ensures number { place_of helper_words (helper_word helper) ≡ Some result }
{
    helper as usize
}

/// The helper that these bytes name, or `None` where they are no such word.
pub fn helper_named(name: &[u8]) -> Option<Helper>
    ensures found { IfSome result (λ helper. helper_word helper ≡ name.now) }
    ensures missing { IfNone result ((helper : Helper) → helper_word helper ≢ name.now) }
{
    helper_of(helpers().number_of(name)?)
}

/// The change of status whose word stands at this place, or `None` past the last.
pub fn status_of(place: usize) -> Option<Word>
    ensures { result ≡ slice_get all_statuses place }
{
    item_at(&STATUSES, place)
}

/// The place of the word of a change of status.
pub fn status_place(word: Word) -> usize
    ensures here { slice_get all_statuses result ≡ Some word }
    ensures only { (place : ℕ) → slice_get all_statuses place ≡ Some word → place ≡ result }
    ensures word { slice_get status_words result ≡ Some (status_word word) }
    ensures number { place_of status_words (status_word word) ≡ Some result }
{
    word as usize
}

/// The change of status that these bytes name, or `None` where they are no such word.
pub fn status_named(name: &[u8]) -> Option<Word>
    ensures found { IfSome result (λ word. status_word word ≡ name.now) }
    ensures missing { IfNone result ((word : Word) → status_word word ≢ name.now) }
{
    status_of(status_words().number_of(name)?)
}

/// The request whose word stands at this place, or `None` past the last.
pub fn req_of(place: usize) -> Option<Req>
    ensures { result ≡ slice_get all_reqs place }
{
    item_at(&REQS, place)
}

/// The place of the word of a request.
pub fn req_place(req: Req) -> usize
    ensures here { slice_get all_reqs result ≡ Some req }
    ensures only { (place : ℕ) → slice_get all_reqs place ≡ Some req → place ≡ result }
    ensures word { slice_get req_words result ≡ Some (req_word req) }
    ensures number { place_of req_words (req_word req) ≡ Some result }
{
    req as usize
}

/// The request that these bytes name, or `None` where they are no such word.
pub fn req_named(name: &[u8]) -> Option<Req>
    ensures found { IfSome result (λ req. req_word req ≡ name.now) }
    ensures missing { IfNone result ((req : Req) → req_word req ≢ name.now) }
{
    req_of(req_words().number_of(name)?)
}

/// The callback whose word stands at this place, or `None` past the last.
pub fn cb_of(place: usize) -> Option<Cb>
    ensures { result ≡ slice_get all_cbs place }
{
    item_at(&CBS, place)
}

/// The place of the word of a callback.
pub fn cb_place(cb: Cb) -> usize
    ensures here { slice_get all_cbs result ≡ Some cb }
    ensures only { (place : ℕ) → slice_get all_cbs place ≡ Some cb → place ≡ result }
    ensures word { slice_get cb_words result ≡ Some (cb_word cb) }
    ensures number { place_of cb_words (cb_word cb) ≡ Some result }
{
    cb as usize
}

/// The callback that these bytes name, or `None` where they are no such word.
pub fn cb_named(name: &[u8]) -> Option<Cb>
    ensures found { IfSome result (λ cb. cb_word cb ≡ name.now) }
    ensures missing { IfNone result ((cb : Cb) → cb_word cb ≢ name.now) }
{
    cb_of(cb_words().number_of(name)?)
}

/// What a helper takes besides its device.
pub fn operand_of(helper: Helper) -> Operand
    ensures { result ≡ operand_of helper }
{
    match helper {
        Helper::ScheduleSuspend | Helper::SetAutosuspendDelay | Helper::Delay => {
            Operand::Milliseconds
        }
        Helper::IgnoreChildren => Operand::Switch,
        Helper::LinkAdd | Helper::LinkDel => Operand::Supplier,
        _ => Operand::Nothing,
    }
}

/// Whether a helper takes a device.
pub fn takes_device(helper: Helper) -> bool
    ensures { result ≡ takes_device helper }
{
    !matches!(helper, Helper::Delay)
}

/// The item at a place.
fn item_at<T: Copy>(items: &[T], place: usize) -> Option<T>
    ensures { result ≡ slice_get items.now place }
{
    items.get(place).copied()
}
