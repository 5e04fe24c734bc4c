//! What is asked for.

ghost use Rattle.std.specs.Prelude.{◌≡◌, ◌<◌, ◌^◌};
ghost use Rattle.pm_lab_words.specs.Request.{sought_in};
ghost use Rattle.pm_outcomes.specs.wanted.Sought.{observation_sought, of_command, of_named};

use crate::list::{Left, Observation, Returned};
use pm_base::DevId;
use pm_lab_words::Sought;
use pm_model::{CallerRow, Plan};

/// What of the words a plan doesn't have.
#[derive(Clone, Copy, PartialEq, Eq)]
pub enum Missing {
    /// No caller has the name.
    Caller,
    /// The script of the caller at this place has no command of the number.
    Command(u32),
    /// No device has the name.
    Device,
}

// The return of a command of the caller at a place.
fn of_command(
    caller: usize,
    number: u32,
    code: i32,
    row: &CallerRow,
) -> Result<Observation, Missing>
    requires { caller < 2 ^ 32 }
    ensures { result ≡ of_command caller number code row.now }
{
    if number >= 1 && number as usize <= row.script.as_slice().len() {
        Ok(Observation::Return(Returned {
            caller: caller as u32,
            command: number,
            code,
        }))
    } else {
        Err(Missing::Command(caller as u32))
    }
}

// The return of a command of a caller.
fn of_caller(plan: &Plan, number: u32, code: i32, name: &str) -> Result<Observation, Missing>
    ensures { result ≡ of_named plan.now number code name.now }
{
    let Some(caller) = plan.callers.find(name.as_bytes()) else {
        return Err(Missing::Caller);
    };
    match plan.callers.get(caller) {
        Some(row) => of_command(caller, number, code, row),
        None => Err(Missing::Caller),
    }
}

/// The observation that is asked for, or what of it the plan doesn't have.
pub fn observation_sought(plan: &Plan, asked: &Sought<'_>) -> Result<Observation, Missing>
    ensures { result ≡ observation_sought plan.now (sought_in asked.now) }
{
    match asked {
        Sought::Return {
            caller,
            number,
            code,
        } => of_caller(plan, *number, *code, caller),
        Sought::End {
            device,
            status,
            usage,
            error,
        } => match plan.devices.find(device.as_bytes()) {
            Some(place) => Ok(Observation::End(Left {
                device: DevId(place as u32),
                status: *status,
                usage: *usage,
                error: *error,
            })),
            None => Err(Missing::Device),
        },
    }
}
