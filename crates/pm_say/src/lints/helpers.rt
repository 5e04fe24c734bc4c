//! What helpers do, so far as warnings ask.

ghost use Rattle.std.specs.Prelude.{◌≡◌};
ghost use Rattle.std.specs.Option.{option_map};
ghost use Rattle.pm_say.specs.lints.Helpers.{does, is_disabling, is_link_add, is_move, is_of_link, is_put_autosuspend, is_set_active, is_set_delay, moves, place_of, resumes};

use pm_model::{Command, Helper};

/// What a command does to a device.
#[derive(Clone, Copy, PartialEq, Eq)]
pub(crate) enum Deed {
    /// It is for the device.
    Names,
    /// It is for the device, and no link's.
    Uses,
    /// It is a link's, and the device is the supplier.
    Supplies,
    Enables,
    UsesAutosuspend,
    SetsDelay,
    StopsAutosuspend,
}

/// What a helper of a script does to the usage count of its device.
#[derive(Clone, Copy, PartialEq, Eq)]
pub enum Move {
    /// It takes a count.
    Raises,
    /// It takes a count where the device is active, or in use.
    MayRaise,
    /// It gives a count back.
    Lowers,
}

fn is_of_link(helper: Helper) -> bool
    ensures { result ≡ is_of_link helper }
{
    matches!(helper, Helper::LinkAdd | Helper::LinkDel)
}

pub(crate) fn is_set_delay(helper: Helper) -> bool
    ensures { result ≡ is_set_delay helper }
{
    matches!(helper, Helper::SetAutosuspendDelay)
}

pub(crate) fn is_put_autosuspend(helper: Helper) -> bool
    ensures { result ≡ is_put_autosuspend helper }
{
    matches!(helper, Helper::PutAutosuspend)
}

pub(crate) fn is_set_active(helper: Helper) -> bool
    ensures { result ≡ is_set_active helper }
{
    matches!(helper, Helper::SetActive)
}

pub(crate) fn is_disabling(helper: Helper) -> bool
    ensures { result ≡ is_disabling helper }
{
    matches!(helper, Helper::Disable)
}

pub(crate) fn is_link_add(helper: Helper) -> bool
    ensures { result ≡ is_link_add helper }
{
    matches!(helper, Helper::LinkAdd)
}

/// Whether a helper asks for a resume of its device.
pub(crate) fn resumes(helper: Helper) -> bool
    ensures { result ≡ resumes helper }
{
    matches!(
        helper,
        Helper::GetSync | Helper::Get | Helper::Resume | Helper::RequestResume | Helper::Forbid
    )
}

fn raises(helper: Helper) -> bool
    ensures { result ≡ moves Move.Raises helper }
{
    matches!(helper, Helper::GetSync | Helper::Get | Helper::GetNoresume)
}

fn lowers(helper: Helper) -> bool
    ensures { result ≡ moves Move.Lowers helper }
{
    matches!(
        helper,
        Helper::Put
            | Helper::PutSync
            | Helper::PutNoidle
            | Helper::PutAutosuspend
            | Helper::PutSyncSuspend
            | Helper::PutSyncAutosuspend
    )
}

/// Whether a helper moves the usage count so.
pub(crate) fn moves(to: Move, helper: Helper) -> bool
    ensures { result ≡ moves to helper }
{
    match to {
        Move::Raises => raises(helper),
        Move::MayRaise => matches!(helper, Helper::GetIfInUse | Helper::GetIfActive),
        Move::Lowers => lowers(helper),
    }
}

/// Whether a helper is a get or a put.
pub(crate) fn is_move(helper: Helper) -> bool
    ensures { result ≡ is_move helper }
{
    moves(Move::Raises, helper) || moves(Move::MayRaise, helper) || moves(Move::Lowers, helper)
}

fn does(deed: Deed, helper: Helper) -> bool
    ensures { result ≡ does deed helper }
{
    match deed {
        Deed::Names => !matches!(helper, Helper::Delay),
        Deed::Uses => !matches!(helper, Helper::Delay) && !is_of_link(helper),
        Deed::Supplies => is_of_link(helper),
        Deed::Enables => matches!(helper, Helper::Enable),
        Deed::UsesAutosuspend => matches!(helper, Helper::UseAutosuspend),
        Deed::SetsDelay => is_set_delay(helper),
        Deed::StopsAutosuspend => matches!(helper, Helper::DontUseAutosuspend),
    }
}

/// The place of the device to which a command does this.
pub(crate) fn place_of(deed: Deed, command: &Command) -> Option<u64>
    ensures { result ≡ place_of deed command.now }
{
    if !does(deed, command.helper) {
        return None;
    }
    match deed {
        Deed::Supplies => Some(command.number.unsigned_abs()),
        _ => Some(u64::from(command.dev.0)),
    }
}
