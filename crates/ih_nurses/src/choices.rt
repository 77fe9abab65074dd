//! The nurse of a room in a shift.

ghost use Rattle.std.specs.Prelude.{◌≡◌, option_map};
ghost use Rattle.ih_tables.specs.declared.ids.NurseNo.{NurseNo};
ghost use Rattle.ih_plan.specs.Costs.{is_number};

use ih_tables::NurseNo;

/// Whether the choice is this nurse.
pub fn is_nurse(choice: Option<NurseNo>, nurse: NurseNo) -> bool
    ensures { result ≡ is_number (option_map (λ (n : NurseNo). n.0) choice) nurse.0 }
{
    match choice {
        None => false,
        Some(a) => a.0 == nurse.0,
    }
}
