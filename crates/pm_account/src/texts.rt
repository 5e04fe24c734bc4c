//! The text of times.

ghost use Rattle.std.specs.Prelude.{◌≡◌};
ghost use Rattle.pm_account.specs.Texts.{times_line};
ghost use Rattle.pm_model.specs.Spelling.{device_name};
ghost use Rattle.pm_model.specs.Text.{names_of};

use crate::Times;
use pm_base::DevId;
use pm_linetext::ShortText;
use pm_model::Plan;

/// The line of a device's times, as `a active 19 suspended 0 moving 0`, with its newline. It takes no
/// memory.
pub fn times_text(plan: &Plan, dev: DevId, times: &Times) -> ShortText
    ensures { result ≡ times_line (device_name (names_of plan.now) dev.0) times.now }
{
    let mut text = ShortText::new();
    text.push_device(plan, dev);
    text.push(b" active ");
    text.push_number(times.active);
    text.push(b" suspended ");
    text.push_number(times.suspended);
    text.push(b" moving ");
    text.push_number(times.moving);
    text.push(b"\n");
    text
}
