//! What decides of a driver's schedules, beside its plan.

ghost use Rattle.std.specs.Prelude.{◌≡◌, length, nat_eq, true};
ghost use Rattle.std.specs.List.{list_all};
ghost use Rattle.std.specs.Option.{option_map_or};

use pm_driver_script::Program;
use pm_model::{DeviceRow, Plan};

/// What a caller needs of another before it begins: that it has passed a mark, or has returned.
#[derive(Clone, Copy)]
pub struct BeginNeed {
    pub caller: u32,
    pub mark: Option<u32>,
}

/// A caller's program, and what it needs before it begins.
#[derive(Clone, Copy)]
pub struct CallerRules<'a> {
    pub program: &'a Program,
    pub after: &'a [BeginNeed],
}

/// A driver: a plan whose scripts are the commands of the programs, in the order of their places, and whose codes are those of
/// callbacks that fail; and its callers.
#[derive(Drop)]
pub struct DriverRules<'a> {
    pub plan: &'a Plan,
    pub callers: &'a [CallerRules<'a>],
    ghost idle: { list_all (λ row. option_map_or (λ codes. nat_eq (length codes) 0) row.idle true) plan.now.devices ≡ true },
}

// Whether the idle callback of a row has no codes.
fn is_quiet_row(row: &DeviceRow) -> bool
    ensures { result ≡ option_map_or (λ codes. nat_eq (length codes) 0) row.now.idle true }
{
    match &row.idle {
        Some(codes) => codes.as_slice().len() == 0,
        None => true,
    }
}

/// Whether no idle callback of a plan has codes.
pub fn has_quiet_idle(plan: &Plan) -> bool
    ensures { result ≡ list_all (λ row. option_map_or (λ codes. nat_eq (length codes) 0) row.idle true) plan.now.devices }
{
    let rows = plan.devices.as_slice();
    for row in rows {
        if !is_quiet_row(row) {
            return false;
        }
    }
    true
}
