//! A search in rounds: what each round comes to, and what the search comes to at last.

ghost use Rattle.std.specs.Prelude.{◌≡◌, ◌≤◌, ◌&&◌, ◌+◌, ◌++◌, false, true, IfOk, IfSome, OnOk, map, option_map, string_bytes};
ghost use Rattle.ih_optimizer.specs.Below.Wards.{IsPlanOf, bill_of, feasible, report};
ghost use Rattle.ih_optimizer.specs.Below.Endings.{Done, IsOwnStatus, outcome_of, writing_of};
ghost use Rattle.ih_optimizer.specs.Below.Searches.{ImproverState, IsNoWorse, IsSound, Leads, Leaves, MayGoOn, led_to};
ghost use Rattle.ih_optimizer.specs.Below.Searches.{terms_of};
ghost use Rattle.ih_optimizer.specs.Pacing.{IsLawfulPace, rounds_left};
ghost use Rattle.ih_optimizer.specs.Rounds.{IsRound, IsSearched, SearchTask, beats, best_text, best_writes};
ghost use Rattle.ih_optimizer.specs.Rounds.{changes_line, changes_text, cost_text, costs_line, end_text};
ghost use Rattle.ih_optimizer.specs.Rounds.{first_text, gap_so_far, is_new, kept_line, number_text, round_line};
ghost use Rattle.ih_optimizer.specs.Rounds.{round_text, searched, time_text};

use crate::pacing::{Length, Pace, next_span};
use crate::times::{Times, after_round};
use crate::watches::Watch;
use ih_bound::{put_gap, put_limit};
use ih_changes::{Changes, count_changes};
use ih_endings::{Role, Status};
use ih_frame::{Made, Outcome, Steps, Writing};
use ih_improve::{Improver, Span};
use ih_plan::Plan;
use ih_solution::write_solution;
use ih_tables::Instance;
use ih_validate::{bill, report};
use itoa::Buffer;
use std::alloc::{AllocError, Global};
use std::sync::Wait;
use std::thread::Threads;

/// A search, where its best goes, and where it stands in time.
#[derive(Drop)]
pub(crate) struct Search<'i, 'o, W> {
    pub(crate) inst: &'i Instance,
    /// The name of the file that the best is written to.
    pub(crate) out: &'o str,
    /// The timetable that this file has, where it stays unless the best is cheaper.
    pub(crate) held: Option<&'i Plan>,
    /// The name of the file that it is written to at last where it isn't feasible.
    pub(crate) draft: Option<&'o str>,
    /// What no plan costs less than, where that is told.
    pub(crate) bound: Option<ih_bound::Outcome>,
    pub(crate) pace: Pace,
    pub(crate) times: Times,
    pub(crate) watch: W,
    pub(crate) improver: Improver<'i>,
}

/// What is told of a round beside what it found.
#[derive(Clone, Copy)]
pub(crate) struct RoundNumbers {
    /// The temperature as it ended.
    temperature: u32,
    /// By the clock, how many seconds are left.
    left: u64,
    /// By the clock, how many attempts all workers made a second.
    rate: u64,
}

// The cost of the best timetable so far, or that there is none yet.
fn best_text(alloc: Global, improver: &Improver<'_>) -> Result<String, AllocError>
    ensures { IfOk result (λ s. string_bytes s ≡ best_text improver.now) }
{
    match improver.best() {
        Some((_, cost)) => {
            let mut digits = Buffer::new();
            let cost = digits.format(cost);
            format!(in alloc; "cost {cost}")
        }
        None => String::from_str(alloc, "none yet"),
    }
}

// Which round is over; where attempts are given, of how many.
fn number_text(alloc: Global, pace: &Pace, made: u32) -> Result<String, AllocError>
    ensures { IfOk result (λ s. string_bytes s ≡ number_text pace.now.length pace.now.rounds made) }
{
    let mut first = Buffer::new();
    let mut second = Buffer::new();
    let number = first.format(made);
    let rounds = second.format(pace.rounds);
    match pace.length {
        Length::Attempts(_) => format!(in alloc; "{number} of {rounds}"),
        Length::Seconds(_) => String::from_str(alloc, number),
    }
}

// By the clock, how much time is left, and how many attempts were made a second.
fn time_text(alloc: Global, length: Length, told: &RoundNumbers) -> Result<String, AllocError>
    ensures { IfOk result (λ s. string_bytes s ≡ time_text length told.now) }
{
    let mut first = Buffer::new();
    let mut second = Buffer::new();
    let left = first.format(told.left);
    let rate = second.format(told.rate);
    match length {
        Length::Attempts(_) => Ok(String::new(alloc)),
        Length::Seconds(_) => format!(in alloc; ", {left} s left, {rate} attempts a second"),
    }
}

// What no plan costs less than, before the line of the first round, where that is told.
fn put_first(
    out: &mut Vec<u8>,
    bound: &Option<ih_bound::Outcome>,
    made: u32,
) -> Result<(), AllocError>
    ensures { OnOk result (out.new.items ≡ out.old.items ++ first_text bound.now made) }
{
    match bound {
        Some(bound) if made == 1 => put_limit(out, bound),
        _ => Ok(()),
    }
}

// How far the best timetable so far may be above the best possible, where that is told.
fn put_gap_so_far(
    out: &mut Vec<u8>,
    bound: &Option<ih_bound::Outcome>,
    improver: &Improver<'_>,
) -> Result<(), AllocError>
    ensures { OnOk result (out.new.items ≡ out.old.items ++ gap_so_far bound.now improver.now) }
{
    match (bound, improver.best()) {
        (Some(ih_bound::Outcome::AtLeast(bound)), Some((_, cost))) => {
            put_gap(out, cost, bound.value)
        }
        _ => Ok(()),
    }
}

// The line of the round that is over, but for its end.
fn round_line(
    alloc: Global,
    pace: &Pace,
    improver: &Improver<'_>,
    told: &RoundNumbers,
) -> Result<String, AllocError>
    ensures { IfOk result (λ s. string_bytes s ≡ round_line pace.now improver.now told.now) }
{
    let number = number_text(alloc, pace, improver.rounds_made())?;
    let number = number.as_str();
    let best = best_text(alloc, improver)?;
    let best = best.as_str();
    let time = time_text(alloc, pace.length, told)?;
    let time = time.as_str();
    let mut first = Buffer::new();
    let mut second = Buffer::new();
    let attempts = first.format(improver.attempts_made());
    let temperature = second.format(told.temperature);
    format!(in alloc;
        "round {number}: {attempts} attempts, {best}, temperature {temperature}{time}"
    )
}

// What is told of the round that is over: its line, and before the first one what no plan costs less than.
fn round_text(
    alloc: Global,
    bound: &Option<ih_bound::Outcome>,
    pace: &Pace,
    improver: &Improver<'_>,
    told: &RoundNumbers,
) -> Result<Vec<u8>, AllocError>
    ensures { IfOk result (λ t. t.items ≡ round_text bound.now pace.now improver.now told.now) }
{
    let mut text = Vec::new(alloc);
    put_first(&mut text, bound, improver.rounds_made())?;
    let line = round_line(alloc, pace, improver, told)?;
    text.extend_from_slice(line.as_bytes())?;
    put_gap_so_far(&mut text, bound, improver)?;
    text.push(b'\n')?;
    Ok(text)
}

// What is told of the round that is over.
fn numbers_of(pace: &Pace, times: &Times, improver: &Improver<'_>) -> RoundNumbers {
    let (left, rate) = match pace.length {
        Length::Attempts(_) => (0, 0),
        Length::Seconds(seconds) => (
            times.seconds_left(seconds),
            times.rate(u64::from(improver.workers())),
        ),
    };
    RoundNumbers {
        temperature: improver.heat(),
        left,
        rate,
    }
}

// One round. Answers whether its best is yet to be written: it is the first one, or found better.
fn search_on<R: Threads + Sync>(rt: &R, improver: &mut Improver<'_>, span: &Span) -> bool
    requires { MayGoOn improver.old span.now }
    ensures search { improver.new ≡ led_to improver.old span.now improver.new.kept }
    ensures best { Leads Leaves improver.old span.now improver.new.kept }
    ensures no_worse { IsNoWorse (terms_of improver.old) improver.old.kept improver.new.kept }
    ensures new { result ≡ is_new improver.old improver.new }
    ensures same { result ≡ false → improver.new.kept ≡ improver.old.kept }
{
    let is_first = improver.rounds_made() == 0;
    let is_better = improver.round(rt, span);
    is_first || is_better
}

// The best so far goes to the file of the solution: it is feasible, and better than what that has.
fn goes_out(held: Option<&Plan>, improver: &Improver<'_>) -> bool
    requires { IfSome held (λ h. IsPlanOf improver.now.instance h.now) }
    ensures { result ≡ (feasible (bill_of improver.now.instance improver.now.kept)
        && beats improver.now (option_map (λ h. h.now) held.entry)) }
{
    if improver.best().is_none() {
        return false;
    }
    match held {
        Some(held) => improver.beats(held),
        None => true,
    }
}

// The write of the best timetable so far, where a file is named for it.
fn best_writes<'a>(
    alloc: Global,
    inst: &Instance,
    name: Option<&'a str>,
    improver: &Improver<'_>,
) -> Result<Vec<Writing<'a>>, AllocError>
    requires { improver.now.instance ≡ inst.now.draft }
    ensures writes { IfOk result
        (λ ws. map writing_of ws.items ≡ best_writes (option_map (λ t. t.now) name.entry) improver.now) }
    ensures sound { IsSound improver.now }
{
    let mut writes = Vec::new(alloc);
    let plan = improver.kept();
    if let Some(name) = name {
        let bytes = write_solution(alloc, inst, plan)?;
        writes.push(Writing {
            role: Role::Out,
            name,
            bytes,
        })?;
    }
    Ok(writes)
}

// Which cost the timetable has that stays in the file of the solution, and the report on it.
fn kept_text(alloc: Global, inst: &Instance, out: &str, held: &Plan) -> Result<Vec<u8>, AllocError>
    requires { IsPlanOf inst.now.draft held.now }
    ensures { IfOk result (λ t. t.items ≡ kept_line out.now inst.now.draft held.now
        ++ report inst.now.draft.weights (bill_of inst.now.draft held.now)) }
{
    let costs = bill(inst, held);
    let mut digits = Buffer::new();
    let cost = digits.format(costs.cost(inst.weights()));
    let line: String = format!(in alloc; "{out} keeps the plan of cost {cost}\n")?;
    let mut text = line.into_bytes();
    text.extend_from_slice(report(alloc, inst, &costs)?.as_slice())?;
    Ok(text)
}

// How many changes there are, of patients and of nurses.
#[tactic(auto, unfolding(crate::specs::Rounds::changes_line))]
fn changes_line(alloc: Global, count: Changes) -> Result<String, AllocError>
    requires { count.patients + count.nurses ≤ 4294967295 }
    ensures { IfOk result (λ s. string_bytes s ≡ changes_line count) }
{
    let mut first = Buffer::new();
    let mut second = Buffer::new();
    let mut third = Buffer::new();
    let all = first.format(count.patients + count.nurses);
    let patients = second.format(count.patients);
    let nurses = third.format(count.nurses);
    format!(in alloc; "{all} changes: {patients} patients, {nurses} nurses' shifts\n")
}

// The cost of a timetable, where that keeps to all rules.
fn cost_text(alloc: Global, inst: &Instance, plan: &Plan) -> Result<String, AllocError>
    requires { IsPlanOf inst.now.draft plan.now }
    ensures { IfOk result (λ s. string_bytes s ≡ cost_text inst.now.draft plan.now) }
{
    let costs = bill(inst, plan);
    if costs.feasible() {
        let mut digits = Buffer::new();
        let cost = digits.format(costs.cost(inst.weights()));
        String::from_str(alloc, cost)
    } else {
        String::from_str(alloc, "none, rules are broken")
    }
}

// The costs of the start and of the best.
fn costs_line(
    alloc: Global,
    inst: &Instance,
    start: &Plan,
    plan: &Plan,
) -> Result<String, AllocError>
    requires start { IsPlanOf inst.now.draft start.now }
    requires plan { IsPlanOf inst.now.draft plan.now }
    ensures { IfOk result (λ s. string_bytes s ≡ costs_line inst.now.draft start.now plan.now) }
{
    let before = cost_text(alloc, inst, start)?;
    let before = before.as_str();
    let after = cost_text(alloc, inst, plan)?;
    let after = after.as_str();
    format!(in alloc; "cost before: {before}, after: {after}\n")
}

// What is told of the changes where they weigh anything.
fn changes_text(
    alloc: Global,
    inst: &Instance,
    keep: u32,
    start: &Plan,
    plan: &Plan,
) -> Result<String, AllocError>
    requires start { IsPlanOf inst.now.draft start.now }
    requires plan { IsPlanOf inst.now.draft plan.now }
    ensures { IfOk result (λ s. string_bytes s ≡ changes_text keep inst.now.draft start.now plan.now) }
{
    if keep == 0 {
        return Ok(String::new(alloc));
    }
    let changes = changes_line(alloc, count_changes(inst, start, plan))?;
    let changes = changes.as_str();
    let costs = costs_line(alloc, inst, start, plan)?;
    let costs = costs.as_str();
    format!(in alloc; "{changes}{costs}")
}

// The report on the best, and its changes.
fn end_text(alloc: Global, inst: &Instance, improver: &Improver<'_>) -> Result<Vec<u8>, AllocError>
    requires { improver.now.instance ≡ inst.now.draft }
    ensures { IfOk result (λ t. t.items ≡ end_text improver.now) }
{
    let plan = improver.kept();
    let mut text = report(alloc, inst, &bill(inst, plan))?;
    let changes = changes_text(alloc, inst, improver.keep(), improver.start(), plan)?;
    text.extend_from_slice(changes.as_bytes())?;
    Ok(text)
}

impl<'i, 'o, W: Watch> Search<'i, 'o, W> {
    // What is written and said once the search is over, and with which status.
    fn searched(&self, alloc: Global) -> Made<'o>
        requires instance { self.now.improver.instance ≡ self.now.inst.now.draft }
        requires held { IfSome self.now.held (λ h. IsPlanOf self.now.inst.now.draft h.now) }
        ensures value { IfOk result (λ o. outcome_of o ≡ searched (record {
          out = self.entry.now.out.now;
          held = option_map (λ h. h.now) self.entry.now.held;
          draft = option_map (λ t. t.now) self.entry.now.draft;
          bound = self.entry.now.bound;
          pace = self.entry.now.pace;
        }) self.entry.now.improver) }
        ensures own { IfOk result (λ o. IsOwnStatus o.status) }
    {
        if goes_out(self.held, &self.improver) {
            let text = end_text(alloc, self.inst, &self.improver)?;
            return Ok(Outcome::said(alloc, Status::Done, text));
        }
        match self.held {
            Some(held) if bill(self.inst, held).feasible() => {
                let text = kept_text(alloc, self.inst, self.out, held)?;
                Ok(Outcome::said(alloc, Status::Done, text))
            }
            _ => Ok(Outcome {
                writes: best_writes(alloc, self.inst, self.draft, &self.improver)?,
                text: String::from_str(alloc, "none found\n")?.into_bytes(),
                status: Status::NoneFound,
            }),
        }
    }
}

impl<'i, 'o, W: Watch> Steps<'o> for Search<'i, 'o, W> {
    ghost State = { ImproverState };

    ghost state = { λ s. s.improver };

    ghost Task = { SearchTask };

    ghost task = { λ s. record {
      out = s.out.now;
      held = option_map (λ h. h.now) s.held;
      draft = option_map (λ t. t.now) s.draft;
      bound = s.bound;
      pace = s.pace;
    } };

    ghost is_lawful = { λ s. (s.improver.instance ≡ s.inst.now.draft) × IsLawfulPace s.pace
        × (s.times.is_over ≡ true → 1 ≤ s.improver.rounds) × IfSome s.held (λ h. IsPlanOf s.inst.now.draft h.now) };

    ghost left = { λ s. rounds_left s.pace.length s.pace.rounds s.times.is_over s.improver.rounds };

    ghost steps_to = { IsRound Leaves };

    ghost ends_as = { IsSearched };

    fn is_over(&self) -> bool {
        self.pace
            .is_over(self.times.is_over, self.improver.rounds_made())
    }

    fn step<R: Threads + Wait + Sync>(&mut self, rt: &R, alloc: Global) -> Made<'o> {
        let span = next_span(&self.pace, &self.times, &self.improver);
        let is_new = search_on(rt, &mut self.improver, &span);
        self.times = after_round(&self.pace, &span, &self.times, &mut self.watch);
        let told = numbers_of(&self.pace, &self.times, &self.improver);
        let is_written = is_new && goes_out(self.held, &self.improver);
        let out = if is_written { Some(self.out) } else { None };
        let writes = best_writes(alloc, self.inst, out, &self.improver)?;
        let text = round_text(alloc, &self.bound, &self.pace, &self.improver, &told)?;
        Ok(Outcome {
            writes,
            text,
            status: Status::Done,
        })
    }

    fn end(&self, alloc: Global) -> Made<'o> {
        self.searched(alloc)
    }
}
