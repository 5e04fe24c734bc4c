//! Why a step is none.

ghost use Rattle.std.specs.Prelude.{◌≡◌};

use pm_script::ScriptFault;
use std::alloc::{AllocError, AllocFailed};

/// Why a step of a driver's script is refused (this project's own). The first that holds is named, in the order of the
/// step's words.
#[derive(Clone, Copy)]
pub enum StepFault {
    /// No word says what is done.
    NoWord,
    /// The word that says what is done is none of a driver's and no helper.
    NoHelper,
    /// The helper's command is refused.
    NoCommand { fault: ScriptFault },
    /// A word that is to name a device is missing or names none.
    NoDevice,
    /// A word that is to be a number is missing or is none, or out of its range.
    NoNumber,
    /// A word that is to be a name is missing, or isn't 1 to 32 letters, digits, `_` and `-`.
    NoName,
    /// Words are left that are no exits.
    NoExit,
    /// There are more than 8 exits.
    ManyExits,
}

/// Why a step isn't read.
#[derive(Clone, Copy)]
pub enum StepError {
    /// It is none.
    Refused { fault: StepFault },
    /// Memory ran out.
    NoMemory,
}

impl From<StepFault> for StepError {
    ghost use Rattle.pm_driver_text.specs.declared.fault.StepError.TheVariants.{Refused};

    ghost from_gives = { λ fault error. error ≡ Refused fault };

    fn from(fault: StepFault) -> StepError {
        StepError::Refused { fault }
    }
}

impl From<AllocError> for StepError {
    ghost use Rattle.pm_driver_text.specs.declared.fault.StepError.TheVariants.{NoMemory};

    ghost from_gives = { λ _ error. error ≡ NoMemory };

    fn from(_error: AllocError) -> StepError {
        StepError::NoMemory
    }
}

impl<T: Drop> From<AllocFailed<T>> for StepError {
    ghost use Rattle.pm_driver_text.specs.declared.fault.StepError.TheVariants.{NoMemory};

    ghost from_gives = { λ _ error. error ≡ NoMemory };

    fn from(_failed: AllocFailed<T>) -> StepError {
        StepError::NoMemory
    }
}
