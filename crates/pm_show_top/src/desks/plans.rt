//! The plans of the cases.

/// Two devices, and two callers that call by passes.
pub static CALLED: &[u8] = b"device = [{name = 'a'}, {name = 'b'}]
caller = [{name = 'c'}, {name = 'e'}]";

/// A device and a caller, with four lines.
pub static FOUR: &[u8] = b"lines = 4
device = [{name = 'a'}]
caller = [{name = 'c'}]";

/// What the two callers of `CALLED` call.
pub static C_CALLS: [&[u8]; 3] = [b"enable a", b"get_sync a", b"put_noidle a"];

pub static E_CALLS: [&[u8]; 2] = [b"enable b", b"get_sync b"];
