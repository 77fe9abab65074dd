//! A worker's stream of moves.

ghost use Rattle.std.specs.Prelude.{◌≡◌, ◌<◌, ◌≤◌, ◌+◌, ◌%◌, ◌⊎◌, ℕ, None, Some, IfSome};
ghost use Rattle.rand_xoshiro.specs.Xoshiro256.{plus_plus};
ghost use Rattle.ih_tables.specs.Sizes.{patient_count, shift_count, nurse_count};
ghost use Rattle.ih_plan.specs.Draws.{choose, last_day, window_len, choose_day, choose_nurse, drawn, drawn_place};
ghost use Rattle.ih_plan.specs.Draws.{drawn_withdrawal, drawn_day};
ghost use Rattle.ih_plan.specs.Draws.{drawn_nurse_swap, drawn_nurse, drawn_run, draw};
ghost use Rattle.ih_plan.specs.Expand.{IsMoveOf};

use ih_plan::{Move, Placement};
use ih_tables::{Day, Instance, NurseNo, Patient, PatientNo, RoomNo, Shift, TheatreNo};
use rand_core::SeedableRng;
use rand_core::utils::NextWord;
use rand_xoshiro::Xoshiro256PlusPlus;
use std::marker::Model;

/// The random words of one worker, of which each draw takes six: those of Xoshiro256++, seeded by the sum of seed and
/// worker.
#[derive(Drop)]
pub struct Stream {
    words: Xoshiro256PlusPlus,
}

impl Model for Stream {
    ghost use Rattle.std.specs.Prelude.{List, ℕ};

    ghost Value = { List ℕ };

    ghost view = { λ s. s.words };
}

impl Stream {
    ghost use Rattle.ih_plan.specs.Draws.{stream_state, state_after, draw_at, move_of, stream_at};

    /// The stream of a worker, from its first word on. The sum of seed and worker wraps.
    #[tactic(auto, unfolding(ih_plan::specs::Draws::stream_state))]
    pub fn new(seed: u64, worker: u32) -> Stream
        ensures { result ≡ stream_state seed worker }
    {
        Stream {
            words: Xoshiro256PlusPlus::seed_from_u64(seed.wrapping_add(worker as u64)),
        }
    }

    /// The next word: another draw, of another kind, may be made of such words.
    pub fn word(&mut self) -> u64
        ensures { (result, self.new) ≡ plus_plus self.old }
    {
        self.words.next_word()
    }

    /// The next draw: a move in range of the instance, and `Idle` where its kind has nothing to choose from. Draw after
    /// draw, these are the worker's moves 0, 1, 2 ...
    pub fn draw(&mut self, inst: &Instance) -> Move
        ensures move_drawn { result ≡ draw_at inst.now.draft self.old }
        ensures rest { self.new ≡ state_after 6 self.old }
        ensures inside { IsMoveOf inst.now.draft result }
        ensures numbered { (seed w i : ℕ) → self.old ≡ stream_at seed w i
            → (result ≡ move_of inst.now.draft seed w i) × (self.new ≡ stream_at seed w (i + 1)) }
    {
        self.draw_six(inst)
    }

    #[tactic(auto, unfolding(ih_plan::specs::Draws::state_after))]
    fn draw_six(&mut self, inst: &Instance) -> Move
        ensures move_drawn { result ≡ draw_at inst.now.draft self.old }
        ensures rest { self.new ≡ state_after 6 self.old }
        ensures inside { IsMoveOf inst.now.draft result }
    {
        let kind = self.word();
        let first = self.word();
        let second = self.word();
        let third = self.word();
        let fourth = self.word();
        let _last = self.word();
        draw(inst, kind, first, second, third, fourth)
    }
}

// A choice among `count`, from 0, by a word: none where there is nothing to choose from.
fn choose(word: u64, count: u32) -> Option<u32>
    ensures value { result ≡ choose word count }
    ensures below { IfSome result (λ i. i < count) }
{
    if count == 0 {
        None
    } else {
        Some((word % count as u64) as u32)
    }
}

// Two choices, each among so many by a word of its own.
fn choose_two(
    first_word: u64,
    first_count: u32,
    second_word: u64,
    second_count: u32,
) -> Option<(u32, u32)>
    ensures none { result ≡ None → (choose first_word first_count ≡ None) ⊎ (choose second_word second_count ≡ None) }
    ensures both { (i j : ℕ) → result ≡ Some (i, j)
        → (choose first_word first_count ≡ Some i) × (choose second_word second_count ≡ Some j) }
    ensures below { IfSome result (λ c. (c.0 < first_count) × (c.1 < second_count)) }
{
    let i = choose(first_word, first_count)?;
    let j = choose(second_word, second_count)?;
    Some((i, j))
}

fn last_day(inst: &Instance, patient: &Patient) -> u32
    ensures value { result ≡ last_day inst.now.draft patient.now }
    ensures below { result < inst.now.draft.days }
{
    let last = inst.days() - 1;
    if patient.mandatory {
        patient.surgery_due_day.unwrap_or(0).min(last)
    } else {
        last
    }
}

/// How many days, from the release day on, a patient may be admitted on: up to the due day of a mandatory one, cut at
/// the horizon's end.
pub fn window_len(inst: &Instance, patient: &Patient) -> u32
    ensures value { result ≡ window_len inst.now.draft patient.now }
    ensures inside { 0 < result → patient.now.surgery_release_day + result ≤ inst.now.draft.days }
{
    (last_day(inst, patient) + 1).saturating_sub(patient.surgery_release_day)
}

fn choose_day(inst: &Instance, word: u64, patient: u32) -> Option<u32>
    requires { patient < patient_count inst.now.draft }
    ensures value { result ≡ choose_day inst.now.draft word patient }
    ensures below { IfSome result (λ d. d < inst.now.draft.days) }
{
    let a = inst.patient(PatientNo(patient));
    match choose(word, window_len(inst, a)) {
        None => None,
        Some(j) => Some(a.surgery_release_day + j),
    }
}

fn draw_place(
    inst: &Instance,
    patient_word: u64,
    day_word: u64,
    room_word: u64,
    theatre_word: u64,
) -> Option<Move>
    ensures value { result ≡ drawn_place inst.now.draft patient_word day_word room_word theatre_word }
    ensures inside { IfSome result (IsMoveOf inst.now.draft) }
{
    let p = choose(patient_word, inst.patients())?;
    let d = choose_day(inst, day_word, p)?;
    let r = choose(room_word, inst.rooms())?;
    let t = choose(theatre_word, inst.theatres())?;
    Some(Move::Place(
        PatientNo(p),
        Placement {
            day: Day(d),
            room: RoomNo(r),
            theatre: TheatreNo(t),
        },
    ))
}

fn draw_withdrawal(inst: &Instance, patient_word: u64) -> Option<Move>
    ensures value { result ≡ drawn_withdrawal inst.now.draft patient_word }
    ensures inside { IfSome result (IsMoveOf inst.now.draft) }
{
    let p = choose(patient_word, inst.patients())?;
    Some(Move::Withdraw(PatientNo(p)))
}

fn draw_day(inst: &Instance, patient_word: u64, day_word: u64) -> Option<Move>
    ensures value { result ≡ drawn_day inst.now.draft patient_word day_word }
    ensures inside { IfSome result (IsMoveOf inst.now.draft) }
{
    let p = choose(patient_word, inst.patients())?;
    let d = choose_day(inst, day_word, p)?;
    Some(Move::SetDay(PatientNo(p), Day(d)))
}

fn draw_nurse_swap(
    inst: &Instance,
    shift_word: u64,
    room_word: u64,
    other_word: u64,
) -> Option<Move>
    ensures value { result ≡ drawn_nurse_swap inst.now.draft shift_word room_word other_word }
    ensures inside { IfSome result (IsMoveOf inst.now.draft) }
{
    let k = choose(shift_word, inst.shifts())?;
    let a = choose(room_word, inst.rooms())?;
    let b = choose(other_word, inst.rooms())?;
    Some(Move::SwapNurses(Shift(k), RoomNo(a), RoomNo(b)))
}

fn draw_nurse(inst: &Instance, room_word: u64, shift_word: u64, nurse_word: u64) -> Option<Move>
    ensures value { result ≡ drawn_nurse inst.now.draft room_word shift_word nurse_word }
    ensures inside { IfSome result (IsMoveOf inst.now.draft) }
{
    let r = choose(room_word, inst.rooms())?;
    let k = choose(shift_word, inst.shifts())?;
    let n = choose_nurse(inst, nurse_word, k)?;
    Some(Move::Nurse(RoomNo(r), Shift(k), n))
}

fn draw_run(
    inst: &Instance,
    nurse_word: u64,
    room_word: u64,
    day_word: u64,
    length_word: u64,
) -> Option<Move>
    ensures value { result ≡ drawn_run inst.now.draft nurse_word room_word day_word length_word }
    ensures inside { IfSome result (IsMoveOf inst.now.draft) }
{
    let n = choose(nurse_word, inst.nurses())?;
    let r = choose(room_word, inst.rooms())?;
    let d = choose(day_word, inst.days())?;
    Some(Move::NurseRun(NurseNo(n), RoomNo(r), Day(d), (1 + length_word % 7) as u32))
}

#[tactic(auto, unfolding(ih_plan::specs::Draws::drawn))]
fn drawn(
    inst: &Instance,
    kind: u64,
    first: u64,
    second: u64,
    third: u64,
    fourth: u64,
) -> Option<Move>
    ensures value { result ≡ drawn inst.now.draft kind first second third fourth }
    ensures inside { IfSome result (IsMoveOf inst.now.draft) }
{
    if kind < 3 {
        draw_place(inst, first, second, third, fourth)
    } else if kind == 3 {
        draw_withdrawal(inst, first)
    } else if kind < 6 {
        draw_day(inst, first, second)
    } else if kind < 8 {
        let (p, r) = choose_two(first, inst.patients(), second, inst.rooms())?;
        Some(Move::SetRoom(PatientNo(p), RoomNo(r)))
    } else if kind == 8 {
        let (p, t) = choose_two(first, inst.patients(), second, inst.theatres())?;
        Some(Move::SetTheatre(PatientNo(p), TheatreNo(t)))
    } else if kind == 9 {
        let (p, q) = choose_two(first, inst.patients(), second, inst.patients())?;
        Some(Move::SwapRooms(PatientNo(p), PatientNo(q)))
    } else if kind < 12 {
        draw_nurse_swap(inst, first, second, third)
    } else if kind < 15 {
        draw_nurse(inst, first, second, third)
    } else {
        draw_run(inst, first, second, third, fourth)
    }
}

fn draw(inst: &Instance, kind_word: u64, first: u64, second: u64, third: u64, fourth: u64) -> Move
    ensures value { result ≡ draw inst.now.draft kind_word first second third fourth }
    ensures inside { IsMoveOf inst.now.draft result }
{
    match drawn(inst, kind_word % 16, first, second, third, fourth) {
        None => Move::Idle,
        Some(mv) => mv,
    }
}

fn choose_nurse(inst: &Instance, word: u64, shift: u32) -> Option<NurseNo>
    requires { shift < shift_count inst.now.draft }
    ensures value { result ≡ choose_nurse inst.now.draft word shift }
    ensures below { IfSome result (λ n. n.0 < nurse_count inst.now.draft) }
{
    let working = inst.working(Shift(shift));
    let place = choose(word, working.len() as u32)?;
    Some(working[place as usize])
}
