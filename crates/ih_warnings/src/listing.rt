//! The lines, of all things that have a slip.

ghost use Rattle.std.specs.Prelude.{◌≡◌, ◌<◌, ◌++◌, flat_map, IfOk, OnOk, string_bytes};
ghost use Rattle.ih_warnings.specs.Slips.{count_of};
ghost use Rattle.ih_warnings.specs.Warnings.{line, lines, warning, warnings};

use crate::findings::has_slip;
use crate::slips::Slip;
use crate::things::{count_of, name_of};
use ih_tables::Instance;
use std::alloc::{AllocError, Global};

// What appending gives: it fails only where memory runs out.
type Put = Result<(), AllocError>;

// How the slip is said of the thing of this name.
#[tactic(auto, unfolding(crate::specs::Warnings::warning))]
fn warning(alloc: Global, slip: Slip, name: &str) -> Result<String, AllocError>
    ensures { IfOk result (λ s. string_bytes s ≡ warning slip name.now) }
{
    match slip {
        Slip::RespeltAgeGroup => format!(in alloc;
            "warning: age group {name} differs from an earlier one by case or spaces alone\n"
        ),
        Slip::RespeltGender => format!(in alloc;
            "warning: gender {name} differs from an earlier one by case or spaces alone\n"
        ),
        Slip::NoWeight => format!(in alloc; "warning: the weight of {name} is 0\n"),
        Slip::IdleSurgeon => format!(in alloc;
            "warning: surgeon {name} has patients and never operates\n"
        ),
        Slip::ShutTheatre => format!(in alloc; "warning: theatre {name} is never open\n"),
        Slip::UselessRoom => format!(in alloc; "warning: nobody can use room {name}\n"),
        Slip::IdleNurse => format!(in alloc; "warning: nurse {name} has no shift\n"),
        Slip::RoomlessPatient => format!(in alloc; "warning: no room suits patient {name}\n"),
        Slip::EarlyPatient => format!(in alloc; "warning: patient {name} is due before release\n"),
    }
}

// Appends that a thing has the slip, where it has.
#[tactic(auto, using(crate::proofs::Lines::part_steps), unfolding(crate::specs::Warnings::line))]
fn put_line(alloc: Global, out: &mut String, inst: &Instance, slip: Slip, index: u32) -> Put
    requires { index < count_of inst.now.draft slip }
    ensures { OnOk result (string_bytes out.new ≡ string_bytes out.old ++ line inst.now.draft slip index) }
{
    if has_slip(inst, slip, index) {
        let text = warning(alloc, slip, name_of(inst, slip, index))?;
        out.push_str(text.as_str())
    } else {
        Ok(())
    }
}

// Appends which things have the slip.
#[tactic(auto, using(crate::proofs::Lines::part_steps), unfolding(crate::specs::Warnings::lines))]
fn put_lines(alloc: Global, out: &mut String, inst: &Instance, slip: Slip) -> Put
    ensures { OnOk result (string_bytes out.new ≡ string_bytes out.old ++ lines inst.now.draft slip) }
{
    for i in 0..count_of(inst, slip) {
        put_line(alloc, out, inst, slip, i)?;
    }
    Ok(())
}

// Appends which things have these slips.
fn put_all(alloc: Global, out: &mut String, inst: &Instance, slips: &[Slip]) -> Put
    ensures { OnOk result
        (string_bytes out.new ≡ string_bytes out.old ++ flat_map (lines inst.now.draft) slips.now) }
{
    for slip in slips {
        put_lines(alloc, out, inst, *slip)?;
    }
    Ok(())
}

/// The warnings on an instance: a line for each thing that is lawful but likely a slip. They are names of age groups
/// and genders that differ from an earlier one by case or spaces alone, weights of 0, surgeons without minutes who have
/// patients, theatres that are never open, rooms that nobody can use, nurses without a shift, and patients whom no room
/// suits or who are due before their release.
#[tactic(auto, unfolding(crate::specs::Warnings::warnings))]
pub fn warnings(alloc: Global, inst: &Instance) -> Result<Vec<u8>, AllocError>
    ensures { IfOk result (λ text. text.items ≡ warnings inst.now.draft) }
{
    let slips = [
        Slip::RespeltAgeGroup,
        Slip::RespeltGender,
        Slip::NoWeight,
        Slip::IdleSurgeon,
        Slip::ShutTheatre,
        Slip::UselessRoom,
        Slip::IdleNurse,
        Slip::RoomlessPatient,
        Slip::EarlyPatient,
    ];
    let mut out = String::new(alloc);
    put_all(alloc, &mut out, inst, &slips)?;
    Ok(out.into_bytes())
}
