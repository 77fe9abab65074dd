//! Why a file is refused, and where.

/// What is wrong.
#[derive(Clone, Copy, Debug, PartialEq, Eq)]
pub enum Fault {
    /// The bytes aren't one JSON value in UTF-8.
    NotJson,
    /// An object lacks a key.
    Missing,
    /// A value is of another JSON kind than is wanted.
    Kind,
    /// A number, or a text's count of bytes, is outside its limits.
    Range,
    /// A list has too few or too many items.
    Length,
    /// An earlier item of the list has the same id.
    Duplicate,
    /// A reference names nothing that is listed.
    Unknown,
    /// The weight of nurses' excess workload is given under both of its spellings.
    TwoWeights,
    /// A second nurse is given for one room and shift.
    TwoNurses,
}

/// The keys of instance and solution files.
#[derive(Clone, Copy, Debug, PartialEq, Eq)]
pub enum Key {
    Days,
    SkillLevels,
    ShiftTypes,
    AgeGroups,
    Weights,
    RoomMixedAge,
    RoomNurseSkill,
    ContinuityOfCare,
    NurseEccessiveWorkload,
    NurseExcessiveWorkload,
    OpenOperatingTheater,
    SurgeonTransfer,
    PatientDelay,
    UnscheduledOptional,
    Surgeons,
    Id,
    MaxSurgeryTime,
    OperatingTheaters,
    Availability,
    Rooms,
    Capacity,
    Nurses,
    SkillLevel,
    WorkingShifts,
    Day,
    Shift,
    MaxLoad,
    Occupants,
    Gender,
    AgeGroup,
    LengthOfStay,
    WorkloadProduced,
    SkillLevelRequired,
    RoomId,
    Patients,
    Mandatory,
    SurgeryReleaseDay,
    SurgeryDueDay,
    SurgeryDuration,
    SurgeonId,
    IncompatibleRoomIds,
    AdmissionDay,
    Room,
    OperatingTheater,
    Assignments,
}

/// A key below a section, with the list place before it where there is one.
#[derive(Clone, Copy, Debug, PartialEq, Eq)]
pub struct Step {
    pub at: Option<u32>,
    pub key: Key,
}

/// A place in a file: the whole file, or a section, up to two further keys, and a last list place.
#[derive(Clone, Copy, Debug, PartialEq, Eq)]
pub struct Place {
    pub section: Option<Key>,
    pub first: Option<Step>,
    pub second: Option<Step>,
    pub last: Option<u32>,
}

/// The first fault of a file. It is printed as `Missing at $.rooms`.
#[derive(Clone, Copy, Debug, PartialEq, Eq)]
pub struct Refusal {
    pub fault: Fault,
    pub at: Place,
}
