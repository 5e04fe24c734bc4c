//! The kinds of events, in the order of the words of `pm_names`.

ghost use Rattle.std.specs.Prelude.{◌≡◌, slice_get};
ghost use Rattle.pm_lineread.specs.Kinds.{all_kinds};

/// What the word in front of an event's colon tells. A callback's begin and end have one word.
#[derive(Clone, Copy, PartialEq, Eq)]
pub(crate) enum Kind {
    Call,
    Ret,
    Get,
    Put,
    Usage,
    Idle,
    Suspend,
    Resume,
    Return,
    Wait,
    State,
    Callback,
    Domain,
    Work,
    Timer,
}

/// The kinds, each at the place of its word among the words of `pm_names`.
static KINDS: [Kind; 15] = [
    Kind::Call,
    Kind::Ret,
    Kind::Get,
    Kind::Put,
    Kind::Usage,
    Kind::Idle,
    Kind::Suspend,
    Kind::Resume,
    Kind::Return,
    Kind::Wait,
    Kind::State,
    Kind::Callback,
    Kind::Domain,
    Kind::Work,
    Kind::Timer,
];

/// The kind whose word stands at this place, or `None` past the last.
pub(crate) fn kind_at(place: usize) -> Option<Kind>
    ensures { result ≡ slice_get all_kinds place }
{
    item_at(&KINDS, place)
}

/// The item at a place.
fn item_at<T: Copy>(items: &[T], place: usize) -> Option<T>
    ensures { result ≡ slice_get items.now place }
{
    items.get(place).copied()
}
