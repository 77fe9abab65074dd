//! The heat of each attempt, and what a broken rule weighs in a round. Nothing rests on either.

ghost use Rattle.std.specs.Prelude.{◌<◌, ◌≤◌, ◌^◌};

use crate::defaults::Defaults;
use crate::legs::Leg;
use crate::logarithms::{logarithm, power};
use crate::settings::Settings;
use crate::spans::Span;
use ih_plan::MAX_HARD;
use ih_tables::Instance;

// With so many persons or fewer each worker begins at the weight of a patient who is left out.
const FEW_PERSONS: u64 = 40;
// Of so many workers the second begins hotter on wards with more.
const WORKERS_A_HOT_ONE: usize = 4;

/// Heats that fall geometrically from one to another.
#[derive(Clone, Copy)]
pub(crate) struct Cooling {
    /// The first heat, in units of the score.
    pub(crate) hot: u32,
    /// The last heat.
    pub(crate) cold: u32,
    /// The place in the schedule that has the first heat.
    pub(crate) from: u64,
    /// So far behind it is the last heat.
    pub(crate) length: u64,
}

// The longest schedule.
const MAX_LENGTH: u64 = 1_000_000_000_000;

// A heat in 65536ths.
fn in_parts(heat: u32) -> u64 {
    (u64::from(heat) * 65536).max(8192)
}

// What of a fall is done after such a part of the whole.
fn share_of(fall: u64, passed: u64, length: u64) -> u64
    requires fall { fall < 2 ^ 22 }
    requires passed { passed ≤ MAX_LENGTH }
{
    fall * passed / length.max(1)
}

impl Cooling {
    /// The heat at a place in the schedule, in 65536ths of a unit of the score. A heat of 0 stands for an eighth of a
    /// unit, at which hardly anything dearer is accepted.
    pub(crate) fn at(&self, place: u64) -> u64
        ensures { result ≤ 2 ^ 37 }
    {
        let hot = logarithm(in_parts(self.hot));
        let cold = logarithm(in_parts(self.cold));
        let passed = place.saturating_sub(self.from).min(MAX_LENGTH);
        power(hot.saturating_sub(share_of(hot.saturating_sub(cold), passed, self.length)))
    }
}

// The heat from which a worker leaves a start behind on a ward like this: the weight of a patient who is left out. Where
// there are more persons attempts are scarce, so it falls with their number, for most workers with its square.
fn heat_of_ward(inst: &Instance, worker_no: usize) -> u32 {
    let left_out = inst.weights().w[7].unsigned_abs().min(100_000);
    let persons = u64::from(inst.persons()).max(FEW_PERSONS).min(10_000);
    let one = left_out * FEW_PERSONS / persons.max(1);
    let heat = if worker_no % WORKERS_A_HOT_ONE == 1 {
        one
    } else {
        one * FEW_PERSONS / persons.max(1)
    };
    heat.min(left_out) as u32
}

// The heat at a worker's first attempt. Where both heats are those of the weights it is half more, or that of the ward, if
// that is more; but where changes count the search stays near the start.
fn first_heat(inst: &Instance, settings: &Settings, worker_no: usize) -> u32 {
    let usual = Defaults::by_weights(inst);
    if settings.keep == 0 && settings.hot == usual.hot && settings.cold == usual.cold {
        let hot = settings.hot.saturating_add(settings.hot / 2);
        hot.max(heat_of_ward(inst, worker_no))
    } else {
        settings.hot
    }
}

/// The heats of a worker from a place in the schedule on: they fall over the whole of it. Where nothing feasible is found
/// in its first half, they fall a second time over the other. In a cold round they are 0.
pub(crate) fn cooling_of(
    inst: &Instance,
    settings: &Settings,
    worker_no: usize,
    span: &Span,
    place: u64,
    is_found: bool,
) -> Cooling {
    if span.is_cold {
        return Cooling {
            hot: 0,
            cold: 0,
            from: 0,
            length: span.whole,
        };
    }
    let half = span.whole / 2;
    let from = if is_found || place < half { 0 } else { half };
    Cooling {
        hot: first_heat(inst, settings, worker_no),
        cold: settings.cold,
        from,
        length: span.whole - from,
    }
}

// What a unit of a broken rule weighs in a round for what is accepted: more in each as long as nothing feasible is found.
fn hard_of(settings: &Settings, round: u32, is_found: bool) -> u32
    ensures { result ≤ 1000000 }
{
    let times = if is_found { 1 } else { u64::from(round) + 1 };
    (u64::from(settings.hard) * times).min(u64::from(MAX_HARD)) as u32
}

/// How a worker goes about a round.
#[derive(Drop)]
pub(crate) struct Pace {
    pub(crate) cooling: Cooling,
    /// What a unit of a broken rule weighs for what is accepted.
    pub(crate) hard: u32,
    /// By so much an attempt may miss what is accepted where cheaper nurses are tried: twice the middle weight.
    pub(crate) reach: i64,
    pub(crate) ghost hard_fits: { hard ≤ 1000000 },
}

impl Pace {
    /// The pace of a worker in a round.
    pub(crate) fn of_round(leg: &Leg<'_>, worker_no: usize) -> Pace {
        let (inst, settings, span) = (leg.instance(), leg.settings(), leg.span());
        let is_found = leg.standing().bill.feasible();
        Pace {
            cooling: cooling_of(inst, settings, worker_no, span, span.from, is_found),
            hard: hard_of(settings, leg.round(), is_found),
            reach: i64::from(Defaults::by_weights(inst).hot),
        }
    }
}
