//! What is said of a handover.

ghost use Rattle.std.specs.Prelude.{◌≡◌, ◌≤◌, ◌<◌, ◌++◌, IfOk, OnOk};
ghost use Rattle.ih_tables.specs.Sizes.{room_count};
ghost use Rattle.ih_carry.specs.Account.{account, choices_text, kept_in, kept_nurses, kept_stays, losses_text};
ghost use Rattle.ih_carry.specs.Account.{losses_total, part_text, part_total, persons_text};
ghost use Rattle.ih_carry.specs.Handovers.{handover_of};

use crate::handovers::Handover;
use crate::losses::Loss;
use crate::parts::Part;
use crate::texts::{Put, put_number};
use ih_plan::bit;
use ih_tables::{PatientNo, RoomNo, Shift};
use std::alloc::{AllocError, Global};

// Appends the lines of a part. How much they say in all.
#[tactic(auto, using(crate::proofs::Lines::part_steps), unfolding(crate::specs::Account::part_text, crate::specs::Account::part_total))]
fn put_part(out: &mut Vec<u8>, handover: &Handover<'_>, part: Part) -> Result<u32, AllocError>
    ensures said { OnOk result (out.new.items ≡ out.old.items ++ part_text (handover_of handover.now) part) }
    ensures total { IfOk result (λ n. n ≡ part_total (handover_of handover.now) part) }
    ensures bound { IfOk result (λ n. n ≤ 55050240) }
{
    let mut total = 0;
    for item in 0..handover.part_size(part) {
        let number = handover.part_number(part, item);
        handover.put_line(out, part, item, number)?;
        total += number;
    }
    Ok(total)
}

// Appends what nurses lose from the day of the handover on. How much they lose in all.
#[tactic(auto, unfolding(crate::specs::Account::losses_text, crate::specs::Account::losses_total))]
fn put_losses(out: &mut Vec<u8>, handover: &Handover<'_>) -> Result<u32, AllocError>
    ensures said { OnOk result (out.new.items ≡ out.old.items ++ losses_text (handover_of handover.now)) }
    ensures total { IfOk result (λ n. n ≡ losses_total (handover_of handover.now)) }
{
    let past = put_part(out, handover, Part::Lost(Loss::Past))?;
    let rooms = put_part(out, handover, Part::Lost(Loss::RoomGone))?;
    let nurses = put_part(out, handover, Part::Lost(Loss::NurseGone))?;
    let duty = put_part(out, handover, Part::Lost(Loss::OffDuty))?;
    Ok(past + rooms + nurses + duty)
}

// How many patients keep their stays.
#[tactic(auto, using(ih_plan::proofs::SumLemmas::sum_steps), unfolding(crate::specs::Account::kept_stays))]
fn kept_stays(handover: &Handover<'_>) -> u32
    ensures { result ≡ kept_stays (handover_of handover.now) }
{
    let mut count = 0;
    for p in 0..handover.next.patients() {
        count += bit(handover.kept_stay(PatientNo(p)).is_some());
    }
    count
}

// In how many shifts a room keeps its nurse.
#[tactic(auto, using(ih_plan::proofs::SumLemmas::sum_steps), unfolding(crate::specs::Account::kept_in))]
fn kept_in(handover: &Handover<'_>, room: RoomNo) -> u32
    requires { room.0 < room_count handover.now.next.now.draft }
    ensures value { result ≡ kept_in (handover_of handover.now) room.0 }
    ensures bound { result ≤ 168 }
{
    let mut count = 0;
    for k in 0..handover.next.shifts() {
        count += bit(handover.kept_nurse(room, Shift(k)).is_some());
    }
    count
}

// How many rooms and shifts keep their nurse.
#[tactic(auto, using(ih_plan::proofs::SumLemmas::sum_steps), unfolding(crate::specs::Account::kept_nurses))]
fn kept_nurses(handover: &Handover<'_>) -> u32
    ensures { result ≡ kept_nurses (handover_of handover.now) }
{
    let mut count = 0;
    for r in 0..handover.next.rooms() {
        count += kept_in(handover, RoomNo(r));
    }
    count
}

/// How much the parts say in all.
#[derive(Clone, Copy, Debug)]
pub struct Totals {
    pub arrived: u32,
    pub gone: u32,
    pub dropped: u32,
    pub lost: u32,
    pub lying: u32,
}

// Appends how many choices are kept, and how many aren't.
fn put_choices(out: &mut Vec<u8>, kept: u32, nurses: u32, totals: &Totals) -> Put
    ensures { OnOk result (out.new.items ≡ out.old.items ++ choices_text kept nurses totals.now) }
{
    put_number(out, kept, " stays and ")?;
    put_number(out, nurses, " nurses' shifts kept, ")?;
    put_number(out, totals.dropped, " and ")?;
    put_number(out, totals.lost, " dropped; ")
}

// Appends how many are new, have gone or should be occupants.
fn put_persons(out: &mut Vec<u8>, totals: &Totals) -> Put
    ensures { OnOk result (out.new.items ≡ out.old.items ++ persons_text totals.now) }
{
    put_number(out, totals.arrived, " new, ")?;
    put_number(out, totals.gone, " gone, ")?;
    put_number(out, totals.lying, " no occupants\n")
}

/// What is said of a handover: a line for each patient who is new, for each who has gone, and for each whose stay isn't
/// kept, with the reason; for each nurse and reason how many rooms and shifts are lost; for each person who should be an
/// occupant of the next ward; and a line of counts.
#[tactic(auto, unfolding(crate::specs::Account::account))]
pub fn account(alloc: Global, handover: &Handover<'_>) -> Result<Vec<u8>, AllocError>
    ensures { IfOk result (λ text. text.items ≡ account (handover_of handover.now)) }
{
    let mut out = Vec::new(alloc);
    let arrived = put_part(&mut out, handover, Part::New)?;
    let gone = put_part(&mut out, handover, Part::Gone)?;
    let dropped = put_part(&mut out, handover, Part::Dropped)?;
    let lost = put_losses(&mut out, handover)?;
    let lying = put_part(&mut out, handover, Part::Lying)?;
    let totals = Totals {
        arrived,
        gone,
        dropped,
        lost,
        lying,
    };
    put_choices(
        &mut out,
        kept_stays(handover),
        kept_nurses(handover),
        &totals,
    )?;
    put_persons(&mut out, &totals)?;
    Ok(out)
}
