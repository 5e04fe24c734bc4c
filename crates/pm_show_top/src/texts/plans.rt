//! The plans of the cases.

/// Devices and callers of a short name and of the longest.
pub static TWO: &[u8] = b"lines = 20
device = [{name = 'a'}, {name = '0000:00:14.0_abcdefghijklmnopqrs'}]
caller = [{name = 'c'}, {name = 'abcdefghijklmnopqrstuvwxyz-_ABCD'}]";

/// The same with one caller more.
pub static FEW: &[u8] = b"lines = 20
device = [{name = 'a'}, {name = '0000:00:14.0_abcdefghijklmnopqrs'}]
caller = [{name = 'c'}, {name = 'e'}, {name = 'abcdefghijklmnopqrstuvwxyz-_ABCD'}]";

/// Names that begin as others do, as numbers do and as actors do.
pub static ALIKE: &[u8] = b"lines = 20
device = [{name = '1-1'}, {name = '1-1.1'}, {name = 'rpm_idle:a'}]
caller = [{name = 'work'}, {name = 'w'}, {name = 'timer-1'}]";

/// Neither devices nor callers.
pub static EMPTY: &[u8] = b"lines = 20";

pub static NO_DEVICE: &[u8] = b"lines = 20
caller = [{name = 'c'}, {name = 'cc'}]";

pub static NO_CALLER: &[u8] = b"lines = 20
device = [{name = 'a'}, {name = 'a.b'}]";

/// Devices that are named as words of commands are.
pub static WORDS: &[u8] = b"lines = 20
device = [{name = 'a'}, {name = 'b'}, {name = 'delay'}, {name = 'on'}]";

/// Device k has the parent p, and s is in its domain; nobody asks for x, and the link from a to p is no
/// runtime link. Caller n asks for no device, e for a, and c for k.
pub static ISLANDS: &[u8] = b"lines = 20
domain = [{name = 'o'}]
device = [{name = 'x'}, {name = 'p'}, {name = 's', domain = 'o'}, {name = 'k', parent = 'p', domain = 'o'}, {name = 'a'}]
link = [{consumer = 'a', supplier = 'p', pm_runtime = false}]
caller = [{name = 'n', script = ['delay 1']}, {name = 'e', script = ['enable a']},
{name = 'c', script = ['delay 1', 'enable k']}]";

/// A device with two suppliers.
pub static LINKED: &[u8] = b"device = [{name = 's'}, {name = 't', resume = [-110]}, {name = 'k'}]
link = [{consumer = 'k', supplier = 's'}, {consumer = 'k', supplier = 't'}]
caller = [{name = 'c', script = ['enable s', 'enable t', 'enable k', 'get_sync k']}]";

/// Two callers on devices of their own: two islands, whose runs have 13 lines each.
pub static UNLINKED: &[u8] = b"device = [{name = 'a'}, {name = 'b'}]
caller = [{name = 'c', script = ['enable a', 'get_sync a']}, {name = 'e', script = ['enable b', 'get_sync b']}]";
