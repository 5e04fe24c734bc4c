//! Inspecting a device.

ghost use Rattle.std.specs.Prelude.{◌≡◌, ◌<◌, length};
ghost use Rattle.pm_model.specs.Excuse.{is_live};
ghost use Rattle.pm_model.specs.Promises.{domain_bonds, parent_bonds, supplier_bonds};
ghost use Rattle.pm_safety.specs.Inspected.{AreExcused, bond_of};

use crate::answers::Inspect;
use crate::holding::{domain_bond, parent_bond, supplier_bond};
use crate::running::is_live;
use pm_base::DevId;
use pm_book::Book;
use pm_laws::counts::sizes;
use pm_laws::safe::runs_are_safe;

/// How a device of the plan stands after the lines of a book. It takes no memory, and looks at the lines
/// only where the device isn't Active.
pub fn inspect(book: &Book, dev: DevId) -> Inspect
    requires { dev.0 < length book.now.plan.devices }
    ensures live { result.live ≡ is_live book.now.plan book.now.lines dev }
    ensures domains { result.domains ≡ bond_of (is_live book.now.plan book.now.lines dev) (domain_bonds book.now.plan book.now.lines dev) }
    ensures parent { result.parent ≡ bond_of (is_live book.now.plan book.now.lines dev) (parent_bonds book.now.plan book.now.lines dev) }
    ensures suppliers { result.suppliers ≡ bond_of (is_live book.now.plan book.now.lines dev) (supplier_bonds book.now.plan book.now.lines dev) }
    ensures excused { AreExcused book.now.plan book.now.lines dev result }
{
    let plan = book.plan();
    let parts = book.parts();
    let lines = book.lines();
    sizes();
    runs_are_safe();
    let live = is_live(parts, lines, dev);
    Inspect {
        live,
        domains: domain_bond(parts, plan, dev, live),
        parent: parent_bond(parts, plan, dev, live),
        suppliers: supplier_bond(parts, plan, dev, live),
    }
}
