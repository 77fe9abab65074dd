//! Who and what a ward has, by its id.

ghost use Rattle.std.specs.Prelude.{◌≡◌, ◌<◌, IfSome};
ghost use Rattle.ih_tables.specs.Sizes.{nurse_count, patient_count, person_count, room_count, theatre_count};
ghost use Rattle.ih_solution.specs.Solution.{nurse_id, patient_id, room_id, theatre_id};
ghost use Rattle.ih_carry.specs.Ids.{is_occupant, nurse_with, patient_with, person_id, room_with, theatre_with};

use ih_tables::{Instance, NurseNo, PatientNo, RoomNo, TheatreNo};

/// The patient with this id, where there is one.
#[tactic(auto, using(crate::proofs::Known::known_steps))]
pub fn patient_with(inst: &Instance, id: &str) -> Option<PatientNo>
    ensures value { result ≡ patient_with inst.now.draft id.now }
    ensures inside { IfSome result (λ p. p.0 < patient_count inst.now.draft) }
{
    inst.find_patient(id)
}

/// The room with this id, where there is one.
#[tactic(auto, using(crate::proofs::Known::known_steps))]
pub fn room_with(inst: &Instance, id: &str) -> Option<RoomNo>
    ensures value { result ≡ room_with inst.now.draft id.now }
    ensures inside { IfSome result (λ r. r.0 < room_count inst.now.draft) }
{
    inst.find_room(id)
}

/// The theatre with this id, where there is one.
#[tactic(auto, using(crate::proofs::Known::known_steps))]
pub fn theatre_with(inst: &Instance, id: &str) -> Option<TheatreNo>
    ensures value { result ≡ theatre_with inst.now.draft id.now }
    ensures inside { IfSome result (λ t. t.0 < theatre_count inst.now.draft) }
{
    inst.find_theatre(id)
}

/// The nurse with this id, where there is one.
#[tactic(auto, using(crate::proofs::Known::known_steps))]
pub fn nurse_with(inst: &Instance, id: &str) -> Option<NurseNo>
    ensures value { result ≡ nurse_with inst.now.draft id.now }
    ensures inside { IfSome result (λ n. n.0 < nurse_count inst.now.draft) }
{
    inst.find_nurse(id)
}

/// Whether an occupant has this id.
pub fn is_occupant(inst: &Instance, id: &str) -> bool
    ensures { result ≡ is_occupant inst.now.draft id.now }
{
    inst.draft
        .occupants
        .as_slice()
        .iter()
        .any(|o| o.id.as_str() == id)
}

/// A patient's id.
pub fn patient_id(inst: &Instance, patient: PatientNo) -> &str
    requires { patient.0 < patient_count inst.now.draft }
    ensures { result.now ≡ patient_id inst.now.draft patient.0 }
{
    inst.patient(patient).id.as_str()
}

/// A room's id.
pub fn room_id(inst: &Instance, room: RoomNo) -> &str
    requires { room.0 < room_count inst.now.draft }
    ensures { result.now ≡ room_id inst.now.draft room.0 }
{
    inst.room(room).id.as_str()
}

/// A theatre's id.
pub fn theatre_id(inst: &Instance, theatre: TheatreNo) -> &str
    requires { theatre.0 < theatre_count inst.now.draft }
    ensures { result.now ≡ theatre_id inst.now.draft theatre.0 }
{
    inst.theatre(theatre).id.as_str()
}

/// A nurse's id.
pub fn nurse_id(inst: &Instance, nurse: NurseNo) -> &str
    requires { nurse.0 < nurse_count inst.now.draft }
    ensures { result.now ≡ nurse_id inst.now.draft nurse.0 }
{
    inst.nurse(nurse).id.as_str()
}

/// A person's id: a patient's, or an occupant's.
#[tactic(auto, unfolding(crate::specs::Ids::person_id))]
pub fn person_id(inst: &Instance, person: u32) -> &str
    requires { person < person_count inst.now.draft }
    ensures { result.now ≡ person_id inst.now.draft person }
{
    let patients = inst.patients();
    if person < patients {
        inst.patient(PatientNo(person)).id.as_str()
    } else {
        inst.occupant(person - patients).id.as_str()
    }
}
