//! The data of the ward of two patients, as they are and with a room of too many beds.

use ih_fixtures::TWO_PATIENTS;
use ih_instance::read_instance;
use ih_tables::{Draft, Instance, List, Name, Room};
use std::alloc::{AllocError, Global};

// Whether there are as many of each kind as in the ward of two patients, in the order in which they are counted.
fn has_sizes(inst: &Instance) -> bool {
    let sizes = [
        inst.days(),
        inst.patients(),
        inst.occupants(),
        inst.persons(),
        inst.rooms(),
        inst.theatres(),
        inst.surgeons(),
        inst.nurses(),
        inst.shifts(),
    ];
    sizes == [2, 2, 1, 3, 2, 2, 1, 2, 6] && inst.weights().w == [5, 10, 2, 1, 30, 7, 4, 100]
}

fn is_sealed(alloc: Global, draft: Draft) -> bool {
    if !draft.is_valid() {
        return false;
    }
    match Instance::seal(alloc, draft) {
        Ok(inst) => has_sizes(&inst),
        Err(_) => false,
    }
}

fn seals_two(alloc: Global) -> bool {
    match read_instance(alloc, TWO_PATIENTS.as_bytes()) {
        Ok(inst) => is_sealed(alloc, inst.draft),
        Err(_) => false,
    }
}

#[test]
fn a_draft_is_sealed(rt: HostRuntime) {
    assert!(rt; seals_two(rt.alloc()));
}

fn room(alloc: Global, id: &str, capacity: u32) -> Result<Room, AllocError> {
    let id = Name::new(String::from_str(alloc, id)?);
    Ok(Room { id, capacity })
}

// The ward's rooms, but so many beds in the first.
fn rooms(alloc: Global, beds: u32) -> Result<List<Room>, AllocError> {
    let mut rooms = Vec::new(alloc);
    rooms.push(room(alloc, "r0", beds)?)?;
    rooms.push(room(alloc, "r1", 1)?)?;
    Ok(List::new(rooms))
}

// Whether the draft is valid with these rooms, where that is said.
fn is_valid_with(alloc: Global, draft: &mut Draft, beds: u32, valid: bool) -> bool {
    match rooms(alloc, beds) {
        Ok(rooms) => {
            draft.rooms = rooms;
            draft.is_valid() == valid
        }
        Err(_) => false,
    }
}

fn has_few_beds(alloc: Global) -> bool {
    match read_instance(alloc, TWO_PATIENTS.as_bytes()) {
        Ok(inst) => {
            let mut draft = inst.draft;
            is_valid_with(alloc, &mut draft, 1000, true)
                && is_valid_with(alloc, &mut draft, 1001, false)
        }
        Err(_) => false,
    }
}

#[test]
fn a_room_of_too_many_beds_is_refused(rt: HostRuntime) {
    assert!(rt; has_few_beds(rt.alloc()));
}
