//! The ward of two patients, two rooms and two nurses over two days, with an occupant.

ghost use Rattle.std.specs.Prelude.{IfSome, IsTrue};
ghost use Rattle.ih_fixtures.specs.Two.{IsOfTwo};

use crate::texts::TWO_PATIENTS;
use ih_instance::read_instance;
use ih_tables::Instance;
use std::alloc::Global;

fn is_of_two(inst: &Instance) -> bool
    ensures { IsTrue result → IsOfTwo inst.now.draft }
{
    inst.days() == 2
        && inst.patients() == 2
        && inst.rooms() == 2
        && inst.theatres() == 2
        && inst.nurses() == 2
        && inst.surgeons() == 1
}

/// The ward.
pub(crate) fn two_patients(alloc: Global) -> Option<Instance>
    ensures { IfSome result (λ i. IsOfTwo i.draft) }
{
    let inst = read_instance(alloc, TWO_PATIENTS.as_bytes()).ok()?;
    if is_of_two(&inst) { Some(inst) } else { None }
}

/// Whether something holds on the ward of two patients. It is false where memory runs out.
pub fn on_two_patients<F: FnOnce(&Instance) -> bool>(alloc: Global, holds: F) -> bool
    requires { (i : _) → IsOfTwo i.now.draft → F.pre holds i }
{
    match two_patients(alloc) {
        Some(inst) => holds(&inst),
        None => false,
    }
}
