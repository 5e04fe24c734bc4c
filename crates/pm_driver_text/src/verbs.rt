//! The words of steps.

ghost use Rattle.std.specs.Prelude.{◌≡◌};
ghost use Rattle.pm_driver_text.specs.Verbs.{device_verb, flag_verb, jump_verb, managed_verb, own_verb, question_of, test_of, verb_of};

use pm_base::MIN_CODE;
use pm_script::number_in;

/// A word that says what a driver's step does, beside the words of helpers.
#[derive(Clone, Copy)]
pub enum Verb {
    ResumeAndGet,
    Touch,
    Do,
    Ask,
    Set,
    Clear,
    Wait,
    Mark,
    Stop,
    Lock,
    Unlock,
    Goto,
    Return,
    Fail,
    DevmEnable,
    ForceSuspend,
    ForceResume,
}

/// What a step asks of a device.
#[derive(Clone, Copy)]
pub enum Question {
    /// It is suspended and enabled.
    Suspended,
    /// Its status is suspended.
    StatusSuspended,
    /// It is active or disabled.
    Active,
    /// It is enabled.
    Enabled,
    /// It is disabled, and its status is active: no word asks this of a device, but a flag is one that is never enabled.
    StillActive,
    /// It has more than one count, or children that it doesn't ignore are active or suspending: what `pm_runtime_need_not_resume`
    /// denies. No word asks this.
    NeedsResume,
}

/// For which codes an exit is taken.
#[derive(Clone, Copy)]
pub enum CodeTest {
    /// Those below 0.
    Negative,
    /// All but 0.
    Nonzero,
    /// This one, from -4,095 to 1.
    Is { code: i64 },
}

/// Of the words for the use of a device.
#[tactic(auto, unfolding(crate::specs::Verbs::device_verb))]
fn device_verb(word: &[u8]) -> Option<Verb>
    ensures { result ≡ device_verb word.now }
{
    if word == b"resume_and_get".as_slice() {
        Some(Verb::ResumeAndGet)
    } else if word == b"touch".as_slice() {
        Some(Verb::Touch)
    } else if word == b"ask".as_slice() {
        Some(Verb::Ask)
    } else {
        None
    }
}

/// Of the words for what the driver core does.
#[tactic(auto, unfolding(crate::specs::Verbs::managed_verb))]
fn managed_verb(word: &[u8]) -> Option<Verb>
    ensures { result ≡ managed_verb word.now }
{
    if word == b"devm_enable".as_slice() {
        Some(Verb::DevmEnable)
    } else if word == b"force_suspend".as_slice() {
        Some(Verb::ForceSuspend)
    } else if word == b"force_resume".as_slice() {
        Some(Verb::ForceResume)
    } else {
        None
    }
}

/// Of the words for flags and marks.
#[tactic(auto, unfolding(crate::specs::Verbs::flag_verb))]
fn flag_verb(word: &[u8]) -> Option<Verb>
    ensures { result ≡ flag_verb word.now }
{
    if word == b"set".as_slice() {
        Some(Verb::Set)
    } else if word == b"clear".as_slice() {
        Some(Verb::Clear)
    } else if word == b"wait".as_slice() {
        Some(Verb::Wait)
    } else if word == b"mark".as_slice() {
        Some(Verb::Mark)
    } else {
        None
    }
}

/// Of the words for locks and for what is the driver's own.
#[tactic(auto, unfolding(crate::specs::Verbs::own_verb))]
fn own_verb(word: &[u8]) -> Option<Verb>
    ensures { result ≡ own_verb word.now }
{
    if word == b"lock".as_slice() {
        Some(Verb::Lock)
    } else if word == b"unlock".as_slice() {
        Some(Verb::Unlock)
    } else if word == b"do".as_slice() {
        Some(Verb::Do)
    } else if word == b"stop".as_slice() {
        Some(Verb::Stop)
    } else {
        None
    }
}

/// Of the words for jumps and ends.
#[tactic(auto, unfolding(crate::specs::Verbs::jump_verb))]
fn jump_verb(word: &[u8]) -> Option<Verb>
    ensures { result ≡ jump_verb word.now }
{
    if word == b"goto".as_slice() {
        Some(Verb::Goto)
    } else if word == b"return".as_slice() {
        Some(Verb::Return)
    } else if word == b"fail".as_slice() {
        Some(Verb::Fail)
    } else {
        None
    }
}

/// What a word says that a step does.
#[tactic(auto, unfolding(crate::specs::Verbs::verb_of))]
pub(crate) fn verb_of(word: &[u8]) -> Option<Verb>
    ensures { result ≡ verb_of word.now }
{
    device_verb(word)
        .or_else(|| managed_verb(word))
        .or_else(|| flag_verb(word))
        .or_else(|| own_verb(word))
        .or_else(|| jump_verb(word))
}

/// What a word asks of a device.
#[tactic(auto, unfolding(crate::specs::Verbs::question_of))]
pub(crate) fn question_of(word: &[u8]) -> Option<Question>
    ensures { result ≡ question_of word.now }
{
    if word == b"suspended".as_slice() {
        Some(Question::Suspended)
    } else if word == b"status_suspended".as_slice() {
        Some(Question::StatusSuspended)
    } else if word == b"active".as_slice() {
        Some(Question::Active)
    } else if word == b"enabled".as_slice() {
        Some(Question::Enabled)
    } else {
        None
    }
}

/// The codes that a word behind `on` names.
#[tactic(auto, unfolding(crate::specs::Verbs::test_of))]
pub(crate) fn test_of(word: &[u8]) -> Option<CodeTest>
    ensures { result ≡ test_of word.now }
{
    if word == b"nonzero".as_slice() {
        return Some(CodeTest::Nonzero);
    }
    let code = number_in(word)?;
    if i64::from(MIN_CODE) <= code && code <= 1 {
        Some(CodeTest::Is { code })
    } else {
        None
    }
}
