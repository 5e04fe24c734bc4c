//! The limits of a plan and of a trace. All are this project's own.

ghost use Rattle.std.specs.Prelude.{◌≡◌, neg_ℤ, pos};
ghost use Rattle.pm_base.specs.declared.limits.TheConstants.{DEFAULT_LINES, LINE_BYTES, MAX_CALLERS, MAX_CODES, MAX_COMMANDS, MAX_DEVICES, MAX_DOMAINS, MAX_LINES, MAX_LINKS, MAX_MS, MAX_NAME, MIN_CODE, PIECE_BYTES, PLAN_BYTES, TEXT_BYTES, TRACE_BYTES};

/// Devices of a plan, at most.
pub const MAX_DEVICES: usize = 1_024;

/// Power domains of a plan, at most.
pub const MAX_DOMAINS: usize = 128;

/// Links of a plan, at most.
pub const MAX_LINKS: usize = 1_024;

/// Callers of a plan, at most.
pub const MAX_CALLERS: usize = 16;

/// Commands of one caller's script, at most.
pub const MAX_COMMANDS: usize = 1_000;

/// Codes of one callback, at most.
pub const MAX_CODES: usize = 64;

/// The least code that a callback may answer; the greatest is 0.
pub const MIN_CODE: i32 = -4_095;

/// Bytes of a name, at most; a name has at least one.
pub const MAX_NAME: usize = 32;

/// Lines of a run, at most: a plan's `lines` is 1 to this.
pub const MAX_LINES: u32 = 200_000;

/// Lines of a run where the plan doesn't say.
pub const DEFAULT_LINES: u32 = 20_000;

/// Milliseconds of a callback, of a `delay` and of `schedule_suspend`, at most, and the greatest
/// distance of an autosuspend delay from 0.
pub const MAX_MS: u32 = 1_000_000;

/// Bytes of a line that a run writes, at most, without its newline.
pub const LINE_BYTES: usize = 162;

/// Bytes of a line that is read, at most, without its newline.
pub const TEXT_BYTES: usize = 177;

/// Bytes of a plan, at most.
pub const PLAN_BYTES: usize = 1_048_576;

/// Bytes of a trace, at most.
pub const TRACE_BYTES: usize = 67_108_864;

/// Bytes that are asked of a file at once, at most.
pub const PIECE_BYTES: usize = 65_536;

/// The limits that code goes by are the numbers that definitions have written out.
pub fn limits_are_numbers()
    ensures devices { MAX_DEVICES ≡ 1024 }
    ensures domains { MAX_DOMAINS ≡ 128 }
    ensures links { MAX_LINKS ≡ 1024 }
    ensures callers { MAX_CALLERS ≡ 16 }
    ensures commands { MAX_COMMANDS ≡ 1000 }
    ensures codes { MAX_CODES ≡ 64 }
    ensures least_code { MIN_CODE ≡ neg_ℤ (pos 4095) }
    ensures name { MAX_NAME ≡ 32 }
    ensures lines { MAX_LINES ≡ 200000 }
    ensures default_lines { DEFAULT_LINES ≡ 20000 }
    ensures milliseconds { MAX_MS ≡ 1000000 }
    ensures written { LINE_BYTES ≡ 162 }
    ensures read { TEXT_BYTES ≡ 177 }
    ensures plan { PLAN_BYTES ≡ 1048576 }
    ensures trace { TRACE_BYTES ≡ 67108864 }
    ensures piece { PIECE_BYTES ≡ 65536 }
{}
