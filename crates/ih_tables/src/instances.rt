//! A valid instance, with the tables by which its names and loads are found.

ghost use Rattle.std.specs.Prelude.{◌≡◌, map, IfOk};
ghost use Rattle.ih_tables.specs.{declared.drafts.Room.Room, declared.drafts.Nurse.Nurse};
ghost use Rattle.ih_tables.specs.{declared.drafts.Patient.Patient, declared.drafts.Theatre.Theatre, Lookups.IsIndexOf};
ghost use Rattle.ih_tables.specs.{Valid.IsValid, Works.load_table, Works.roster_table};

use crate::bills::{Bill, Weights};
use crate::drafts::{Draft, Nurse, Occupant, Patient, Room, Surgeon, Theatre};
use crate::ids::{NurseNo, PatientNo, RoomNo, Shift, SurgeonNo, TheatreNo};
use crate::lists::List;
use crate::loads::load_table;
use crate::lookups::{Names, numbers_of};
use crate::names::Name;
use crate::rosters::roster_table;
use std::alloc::{AllocError, Global};

// The numbers of what a draft has, by ids.
#[derive(Drop)]
struct NumbersById {
    patients: Names,
    rooms: Names,
    nurses: Names,
    theatres: Names,
    shift_types: Names,
}

// Those of a valid draft.
fn numbers_by_id(alloc: Global, draft: &Draft) -> Result<NumbersById, AllocError>
    requires { IsValid draft.now }
    ensures patients { IfOk result (λ n. IsIndexOf n.patients (map (λ (p : Patient). p.id) draft.now.patients)) }
    ensures rooms { IfOk result (λ n. IsIndexOf n.rooms (map (λ (r : Room). r.id) draft.now.rooms)) }
    ensures nurses { IfOk result (λ n. IsIndexOf n.nurses (map (λ (m : Nurse). m.id) draft.now.nurses)) }
    ensures theatres { IfOk result
        (λ n. IsIndexOf n.theatres (map (λ (t : Theatre). t.id) draft.now.operating_theaters)) }
    ensures shift_types { IfOk result (λ n. IsIndexOf n.shift_types draft.now.shift_types) }
{
    Ok(NumbersById {
        patients: numbers_of(alloc, draft.patients.as_slice())?,
        rooms: numbers_of(alloc, draft.rooms.as_slice())?,
        nurses: numbers_of(alloc, draft.nurses.as_slice())?,
        theatres: numbers_of(alloc, draft.operating_theaters.as_slice())?,
        shift_types: numbers_of(alloc, draft.shift_types.as_slice())?,
    })
}

/// An instance whose data is valid. It never changes, and threads share it.
#[derive(Drop)]
pub struct Instance {
    pub draft: Draft,
    numbers: NumbersById,
    loads: List<Option<u32>>,
    rosters: List<List<NurseNo>>,
    pub ghost valid: { IsValid draft },
    ghost patients_found: { IsIndexOf numbers.patients (map (λ (p : Patient). p.id) draft.patients) },
    ghost rooms_found: { IsIndexOf numbers.rooms (map (λ (r : Room). r.id) draft.rooms) },
    ghost nurses_found: { IsIndexOf numbers.nurses (map (λ (n : Nurse). n.id) draft.nurses) },
    ghost theatres_found: { IsIndexOf numbers.theatres (map (λ (t : Theatre). t.id) draft.operating_theaters) },
    ghost shift_types_found: { IsIndexOf numbers.shift_types draft.shift_types },
    ghost loads_listed: { loads ≡ load_table draft },
    ghost working_listed: { rosters ≡ roster_table draft },
}

impl Instance {
    ghost use Rattle.std.specs.Prelude.{◌≡◌, ◌<◌, ◌≤◌, ◌*◌, ◌+◌, ◌^◌, ◌<ℤ◌, neg_ℤ, pos, Some, IfOk, slice_get, option_map, map};
    ghost use Rattle.ih_tables.specs.Bills.{IsWithin, score};
    ghost use Rattle.ih_tables.specs.Sizes.{patient_count, occupant_count, room_count, nurse_count, surgeon_count};
    ghost use Rattle.ih_tables.specs.Sizes.{theatre_count, person_count, shift_count};
    ghost use Rattle.ih_tables.specs.{Works.max_load, Works.working, Lookups.number_in, declared.drafts.Room.Room};
    ghost use Rattle.ih_tables.specs.{declared.drafts.Nurse.Nurse, declared.drafts.Patient.Patient};
    ghost use Rattle.ih_tables.specs.{declared.drafts.Theatre.Theatre};

    /// The instance with the data of a valid draft.
    pub fn seal(alloc: Global, draft: Draft) -> Result<Instance, AllocError>
        requires { IsValid draft }
        ensures { IfOk result (λ i. i.draft ≡ draft) }
    {
        let numbers = numbers_by_id(alloc, &draft)?;
        let loads = load_table(alloc, &draft)?;
        let rosters = roster_table(alloc, &draft)?;
        Ok(Instance {
            draft,
            numbers,
            loads,
            rosters,
        })
    }

    /// The number of the patient of this id, if there is one.
    pub fn find_patient(&self, id: &str) -> Option<PatientNo>
        ensures { option_map (λ p. p.0) result
            ≡ number_in (map (λ (p : Patient). p.id) self.now.draft.patients) id.now }
    {
        self.numbers.patients.find(id).map(PatientNo)
    }

    /// The number of the room of this id, if there is one.
    pub fn find_room(&self, id: &str) -> Option<RoomNo>
        ensures { option_map (λ r. r.0) result
            ≡ number_in (map (λ (r : Room). r.id) self.now.draft.rooms) id.now }
    {
        self.numbers.rooms.find(id).map(RoomNo)
    }

    /// The number of the operating theatre of this id, if there is one.
    pub fn find_theatre(&self, id: &str) -> Option<TheatreNo>
        ensures { option_map (λ t. t.0) result
            ≡ number_in (map (λ (t : Theatre). t.id) self.now.draft.operating_theaters) id.now }
    {
        self.numbers.theatres.find(id).map(TheatreNo)
    }

    /// The number of the nurse of this id, if there is one.
    pub fn find_nurse(&self, id: &str) -> Option<NurseNo>
        ensures { option_map (λ n. n.0) result
            ≡ number_in (map (λ (n : Nurse). n.id) self.now.draft.nurses) id.now }
    {
        self.numbers.nurses.find(id).map(NurseNo)
    }

    /// The number of the shift type of this name, if there is one: 0 to 2.
    pub fn find_shift_type(&self, id: &str) -> Option<u32>
        ensures { result ≡ number_in self.now.draft.shift_types id.now }
    {
        self.numbers.shift_types.find(id)
    }

    /// The name of a shift type.
    pub fn shift_type(&self, number: u32) -> &Name
        requires { number < 3 }
        ensures { slice_get self.now.draft.shift_types number ≡ Some result.now }
    {
        &self.draft.shift_types.as_slice()[number as usize]
    }

    /// The days of the horizon.
    pub fn days(&self) -> u32
        ensures { result ≡ self.now.draft.days }
    {
        self.draft.days
    }

    /// How many patients there are.
    pub fn patients(&self) -> u32
        ensures { result ≡ patient_count self.now.draft }
    {
        self.draft.patients.as_slice().len() as u32
    }

    /// How many occupants there are.
    pub fn occupants(&self) -> u32
        ensures { result ≡ occupant_count self.now.draft }
    {
        self.draft.occupants.as_slice().len() as u32
    }

    /// How many patients and occupants there are.
    pub fn persons(&self) -> u32
        ensures { result ≡ person_count self.now.draft }
    {
        (self.draft.patients.as_slice().len() + self.draft.occupants.as_slice().len()) as u32
    }

    /// The shifts of the horizon: three a day.
    pub fn shifts(&self) -> u32
        ensures { result ≡ shift_count self.now.draft }
    {
        3 * self.draft.days
    }

    /// The weights of the costs.
    pub fn weights(&self) -> &Weights
        ensures { result.now ≡ self.now.draft.weights }
    {
        &self.draft.weights
    }

    /// The score of a bill, or of the change of one: the weighed costs, and `hard` for each unit of a broken rule.
    #[inline(always)]
    pub fn score_of(&self, hard: u32, bill: &Bill) -> i64
        requires hard { hard ≤ 1000000 }
        requires within { IsWithin (10 ^ 11) bill.now }
        ensures score { result ≡ score hard self.now.draft.weights bill.now }
        ensures low { neg_ℤ (pos (10 ^ 18)) <ℤ result }
        ensures high { result <ℤ pos (10 ^ 18) }
    {
        bill.score(hard, self.weights())
    }

    /// A patient's data.
    pub fn patient(&self, patient: PatientNo) -> &Patient
        requires { patient.0 < patient_count self.now.draft }
        ensures { slice_get self.now.draft.patients patient.0 ≡ Some result.now }
    {
        &self.draft.patients.as_slice()[patient.0 as usize]
    }

    /// An occupant's data; occupants are numbered from 0 among themselves.
    pub fn occupant(&self, occupant: u32) -> &Occupant
        requires { occupant < occupant_count self.now.draft }
        ensures { slice_get self.now.draft.occupants occupant ≡ Some result.now }
    {
        &self.draft.occupants.as_slice()[occupant as usize]
    }

    /// How many rooms there are.
    pub fn rooms(&self) -> u32
        ensures { result ≡ room_count self.now.draft }
    {
        self.draft.rooms.as_slice().len() as u32
    }

    /// A room's data.
    pub fn room(&self, room: RoomNo) -> &Room
        requires { room.0 < room_count self.now.draft }
        ensures { slice_get self.now.draft.rooms room.0 ≡ Some result.now }
    {
        &self.draft.rooms.as_slice()[room.0 as usize]
    }

    /// A nurse's data.
    pub fn nurse(&self, nurse: NurseNo) -> &Nurse
        requires { nurse.0 < nurse_count self.now.draft }
        ensures { slice_get self.now.draft.nurses nurse.0 ≡ Some result.now }
    {
        &self.draft.nurses.as_slice()[nurse.0 as usize]
    }

    /// How many nurses there are.
    pub fn nurses(&self) -> u32
        ensures { result ≡ nurse_count self.now.draft }
    {
        self.draft.nurses.as_slice().len() as u32
    }

    /// How many surgeons there are.
    pub fn surgeons(&self) -> u32
        ensures { result ≡ surgeon_count self.now.draft }
    {
        self.draft.surgeons.as_slice().len() as u32
    }

    /// How many operating theatres there are.
    pub fn theatres(&self) -> u32
        ensures { result ≡ theatre_count self.now.draft }
    {
        self.draft.operating_theaters.as_slice().len() as u32
    }

    /// A surgeon's data.
    pub fn surgeon(&self, surgeon: SurgeonNo) -> &Surgeon
        requires { surgeon.0 < surgeon_count self.now.draft }
        ensures { slice_get self.now.draft.surgeons surgeon.0 ≡ Some result.now }
    {
        &self.draft.surgeons.as_slice()[surgeon.0 as usize]
    }

    /// An operating theatre's data.
    pub fn theatre(&self, theatre: TheatreNo) -> &Theatre
        requires { theatre.0 < theatre_count self.now.draft }
        ensures { slice_get self.now.draft.operating_theaters theatre.0 ≡ Some result.now }
    {
        &self.draft.operating_theaters.as_slice()[theatre.0 as usize]
    }

    /// The maximum load of a nurse in a shift; none exactly where the nurse doesn't work it.
    pub fn works(&self, nurse: NurseNo, shift: Shift) -> Option<u32>
        requires nurse { nurse.0 < nurse_count self.now.draft }
        requires shift { shift.0 < shift_count self.now.draft }
        ensures { result ≡ max_load self.now.draft nurse.0 shift.0 }
    {
        self.loads.as_slice()[nurse.0 as usize * self.shifts() as usize + shift.0 as usize]
    }

    /// The nurses who work a shift, rising.
    pub fn working(&self, shift: Shift) -> &[NurseNo]
        requires { shift.0 < shift_count self.now.draft }
        ensures { result.now ≡ working self.now.draft shift.0 }
    {
        self.rosters.as_slice()[shift.0 as usize].as_slice()
    }
}
