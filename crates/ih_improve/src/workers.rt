//! A worker: attempts of its own, on its own ledgers, with random words of its own.

ghost use Rattle.std.specs.Prelude.{◌≡◌};
ghost use Rattle.ih_improve.specs.{Better.is_better_than, Legs.terms_of_leg};

use crate::accepting::most_accepted;
use crate::heats::Pace;
use crate::keeping::any_kept;
use crate::legs::Leg;
use crate::mending::mend;
use crate::rounds::Walks;
use crate::walkers::Walker;
use ih_changes::{has_another, is_changed};
use ih_moves::Chain;
use ih_plan::{Move, Plan, nurse_at};
use ih_proposals::{FreeRooms, RandomWords, propose, repair};
use ih_tables::{Bill, Instance, PatientNo, RoomNo, Shift};
use std::alloc::{AllocError, Global};

// How many attempts are made at one heat.
const ATTEMPTS_AT_A_HEAT: u64 = 1024;

// A broken rule weighs as much as so many changes at least.
const CHANGES_A_RULE: u32 = 64;

/// One of the workers of a search. What it goes by in a round is the round's `Leg`, its number, and where it stands: it
/// shares nothing with the others, and asks no clock.
#[derive(Drop)]
pub(crate) struct ImproveWorker<'a> {
    pub(crate) walker: Walker<'a>,
    pub(crate) words: RandomWords,
    pub(crate) moves: Chain,
    // The rooms with a bed where the walker stands.
    pub(crate) free: FreeRooms,
    // Whether it once took everybody out.
    pub(crate) is_emptied: bool,
}

// What a change weighs in an attempt of this price. Where a rule is broken or mended, that tells more than all changes.
fn change_weight(keep: u32, hard: u32, price: &Bill) -> u32 {
    if price.feasible() {
        keep
    } else {
        keep.min((hard / CHANGES_A_RULE).max(1))
    }
}

// Whether the best that was met is better than what the round began with. Its changes are counted anew.
fn is_bettered(leg: &Leg<'_>, walker: &Walker<'_>) -> bool
    requires { walker.now.instance ≡ leg.now.instance }
    ensures { result ≡ is_better_than (terms_of_leg leg.now) walker.now.best leg.now.from }
{
    leg.know_leg();
    let measure = leg.measure();
    measure.know_bills();
    let found = measure.standing_of(walker.best(), walker.best_bill());
    measure.is_better(&found, leg.standing())
}

impl<'a> ImproveWorker<'a> {
    ghost use Rattle.std.specs.Prelude.{◌≡◌, ◌<◌, ◌≤◌, ◌^◌, IfOk};
    ghost use Rattle.ih_tables.specs.Sizes.{patient_count, room_count, shift_count};
    ghost use Rattle.ih_plan.specs.Timetable.{IsPlanOf};
    ghost use Rattle.ih_plan.specs.BillOf.{bill_of};
    ghost use Rattle.ih_plan.specs.{Expand.IsMoveOf, Series.AreMoves};
    ghost use Rattle.ih_improve.specs.{Following.MayFollow, Following.MayStand, Legs.terms_of_leg};
    ghost use Rattle.ih_improve.specs.WalkerState.{IsUnderway};

    /// A worker that stands on the start, which has this bill.
    pub(crate) fn new(
        alloc: Global,
        inst: &'a Instance,
        plan: &Plan,
        bill: &Bill,
        keep: u32,
    ) -> Result<ImproveWorker<'a>, AllocError>
        requires plan { IsPlanOf inst.now.draft plan.now }
        requires bill { bill.now ≡ bill_of inst.now.draft plan.now }
        ensures instance { IfOk result (λ w. w.walker.instance ≡ inst.entry.now.draft) }
        ensures stands { IfOk result (λ w. w.walker.now ≡ plan.now) }
    {
        let walker = Walker::new(alloc, inst, plan, bill, keep)?;
        let free = FreeRooms::new(alloc, inst, walker.ledgers())?;
        Ok(ImproveWorker {
            walker,
            words: RandomWords::new(0, 0, 0),
            moves: Chain::new(),
            free,
            is_emptied: false,
        })
    }

    // Whether the worker leaves its own timetable for the best so far: in the last tenth of the schedule, and always
    // where changes count. Before that workers stay on their own ways, so that several are tried.
    fn takes_over(&self, leg: &Leg<'_>) -> bool {
        let span = leg.span();
        leg.settings().keep > 0 || span.whole - span.whole / 10 <= span.from
    }

    // Whether the worker goes on from nobody: every second one, once, where nothing feasible is found after a tenth of
    // the schedule.
    fn begins_empty(&self, leg: &Leg<'_>, worker_no: usize) -> bool {
        let span = leg.span();
        !self.is_emptied
            && worker_no % 2 == 1
            && leg.settings().keep == 0
            && span.whole / 10 <= span.from
            && !leg.standing().bill.feasible()
    }

    // Begins a round, where the worker stands or on the best timetable so far.
    fn begin_round(&mut self, leg: &Leg<'_>)
        requires instance { self.old.walker.instance ≡ leg.now.instance }
        requires stands { MayStand (terms_of_leg leg.now) self.old.walker.now }
        ensures { IsUnderway leg.now self.new.walker }
    {
        leg.know_leg();
        self.walker.begin_with_best(leg.from(), leg.standing());
        if self.takes_over(leg) {
            self.walker.go_to_best(leg.settings().keep);
        }
        self.free.follow_all(leg.instance(), self.walker.ledgers());
    }

    // Makes the moves of the attempt, priced as one, if they change the score and the points of changes by at most `most`.
    // Answers whether they miss that by little, so that cheaper nurses may mend it.
    fn make_or_drop(&mut self, leg: &Leg<'_>, pace: &Pace, most: i64) -> bool
        requires underway { IsUnderway leg.now self.old.walker }
        requires moves { AreMoves leg.now.instance self.old.moves }
        ensures underway { IsUnderway leg.now self.new.walker }
        ensures same { self.new.moves ≡ self.old.moves }
    {
        let inst = leg.instance();
        let settings = leg.settings();
        leg.know_leg();
        let moves = self.moves.as_slice();
        if moves.is_empty() || any_kept(inst, leg.start(), leg.pins(), settings, moves) {
            return false;
        }
        let price = self.walker.price(moves);
        let score = inst.score_of(pace.hard, &price);
        let keep = change_weight(settings.keep, pace.hard, &price);
        let whole = self.walker.whole_price(keep, moves, score, most);
        if whole <= most {
            self.walker.make_moves(settings, moves, &price);
            self.free.follow(inst, self.walker.ledgers(), moves);
            return false;
        }
        whole.saturating_sub(most) <= pace.reach
    }

    // Adds cheaper nurses to the attempt. Answers whether there are any.
    fn add_nurses(&mut self, leg: &Leg<'_>, pace: &Pace) -> bool
        requires underway { IsUnderway leg.now self.old.walker }
        requires moves { AreMoves leg.now.instance self.old.moves }
        ensures same { self.new.walker ≡ self.old.walker }
        ensures moves { AreMoves leg.now.instance self.new.moves }
    {
        repair(
            leg.instance(),
            pace.hard,
            self.walker.ledgers(),
            &mut self.words,
            &mut self.moves,
        )
    }

    // One attempt: moves that a proposal makes are made or dropped. If they miss what is accepted by little, the same is
    // done with cheaper nurses.
    fn attempt(&mut self, leg: &Leg<'_>, pace: &Pace, heat: u64)
        requires underway { IsUnderway leg.now self.old.walker }
        requires heat { heat ≤ 2 ^ 37 }
        ensures { IsUnderway leg.now self.new.walker }
    {
        let inst = leg.instance();
        propose(
            inst,
            pace.hard,
            self.walker.ledgers(),
            &self.free,
            &mut self.words,
            &mut self.moves,
        );
        let most = most_accepted(heat, self.words.next());
        if self.make_or_drop(leg, pace, most) && self.add_nurses(leg, pace) {
            self.make_or_drop(leg, pace, most);
        }
    }

    // All attempts of the round. The heat is that of the first, and a new one each 1024th, as the schedule counts them.
    fn attempt_all(&mut self, leg: &Leg<'_>, pace: &Pace)
        requires { IsUnderway leg.now self.old.walker }
        ensures { IsUnderway leg.now self.new.walker }
    {
        let span = leg.span();
        let before = span.from % ATTEMPTS_AT_A_HEAT;
        let mut heat = pace.cooling.at(span.from);
        for attempt_no in 0..span.attempts {
            if (before + attempt_no % ATTEMPTS_AT_A_HEAT) % ATTEMPTS_AT_A_HEAT == 0 {
                heat = pace.cooling.at(span.place_of(attempt_no));
            }
            self.attempt(leg, pace, heat);
        }
    }

    /// One attempt at this move.
    pub(crate) fn make_move(&mut self, leg: &Leg<'_>, pace: &Pace, mv: Move, most: i64)
        requires underway { IsUnderway leg.now self.old.walker }
        requires inside { IsMoveOf leg.now.instance mv }
        ensures { IsUnderway leg.now self.new.walker }
    {
        let inst = leg.instance();
        self.moves.begin(inst);
        self.moves.add(inst, mv);
        self.make_or_drop(leg, pace, most);
    }

    // Takes everybody out who may leave.
    fn take_all_out(&mut self, leg: &Leg<'_>, pace: &Pace)
        requires { IsUnderway leg.now self.old.walker }
        ensures { IsUnderway leg.now self.new.walker }
    {
        self.is_emptied = true;
        let inst = leg.instance();
        for p in 0..inst.patients() {
            self.make_move(leg, pace, Move::Withdraw(PatientNo(p)), i64::MAX);
        }
    }

    // Takes a patient's change back, where nothing is gained by it.
    fn take_stay_back(&mut self, leg: &Leg<'_>, pace: &Pace, patient: PatientNo)
        requires underway { IsUnderway leg.now self.old.walker }
        requires patient { patient.0 < patient_count leg.now.instance }
        ensures { IsUnderway leg.now self.new.walker }
    {
        leg.know_leg();
        let (inst, start) = (leg.instance(), leg.start());
        if is_changed(inst, start, self.walker.ledgers().plan(), patient) {
            match start.stay(patient) {
                None => self.make_move(leg, pace, Move::Withdraw(patient), 0),
                Some(at) => self.make_move(leg, pace, Move::Place(patient, at), 0),
            }
        }
    }

    // Takes the change of a room's nurse back, where nothing is gained by it.
    fn take_nurse_back(&mut self, leg: &Leg<'_>, pace: &Pace, room: RoomNo, shift: Shift)
        requires underway { IsUnderway leg.now self.old.walker }
        requires room { room.0 < room_count leg.now.instance }
        requires shift { shift.0 < shift_count leg.now.instance }
        ensures { IsUnderway leg.now self.new.walker }
    {
        leg.know_leg();
        let (inst, start) = (leg.instance(), leg.start());
        if has_another(inst, start, self.walker.ledgers().plan(), room, shift) {
            if let Some(nurse) = nurse_at(inst, start, room, shift) {
                self.make_move(leg, pace, Move::Nurse(room, shift, nurse), 0);
            }
        }
    }

    // Goes to the best that was met, and takes back each single change by which nothing is gained.
    fn take_all_back(&mut self, leg: &Leg<'_>, pace: &Pace)
        requires { IsUnderway leg.now self.old.walker }
        ensures { IsUnderway leg.now self.new.walker }
    {
        let inst = leg.instance();
        self.walker.go_to_best(leg.settings().keep);
        for p in 0..inst.patients() {
            self.take_stay_back(leg, pace, PatientNo(p));
        }
        for r in 0..inst.rooms() {
            for k in 0..inst.shifts() {
                self.take_nurse_back(leg, pace, RoomNo(r), Shift(k));
            }
        }
    }

    // Whether the start breaks rules that are to be mended by few changes.
    fn begins_broken(&self, leg: &Leg<'_>) -> bool {
        leg.settings().keep > 0 && leg.round() == 0 && !self.walker.bill().feasible()
    }

    // Leaves what the round began with, unless the best that was met is better by its changes, which are counted anew.
    fn settle(&mut self, leg: &Leg<'_>)
        requires { IsUnderway leg.now self.old.walker }
        ensures instance { self.new.walker.instance ≡ leg.now.instance }
        ensures stands { MayStand (terms_of_leg leg.now) self.new.walker.now }
        ensures left { MayFollow (terms_of_leg leg.now) leg.now.from self.new.walker.best }
    {
        leg.know_leg();
        if !is_bettered(leg, &self.walker) {
            self.walker.begin_with_best(leg.from(), leg.standing());
        }
    }
}

impl<'a> Walks for ImproveWorker<'a> {
    ghost use Rattle.ih_improve.specs.Legs.{Leaves};

    ghost instance = { λ w. w.walker.instance };

    ghost stands = { λ w. w.walker.now };

    ghost best = { λ w. w.walker.best };

    ghost leaves = { Leaves };

    fn walk(&mut self, leg: &Leg<'_>, worker_no: usize) {
        leg.know_leg();
        let pace = Pace::of_round(leg, worker_no);
        self.words = RandomWords::new(leg.settings().seed, leg.round(), worker_no as u32);
        self.begin_round(leg);
        if self.begins_empty(leg, worker_no) {
            self.take_all_out(leg, &pace);
        }
        if self.begins_broken(leg) {
            mend(leg, &pace, self);
        }
        self.attempt_all(leg, &pace);
        if leg.settings().keep > 0 {
            self.take_all_back(leg, &pace);
        }
        self.settle(leg);
    }
}
