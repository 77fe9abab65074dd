//! What a round begins with.

use crate::comparing::{Measure, Standing};
use crate::pins::Pins;
use crate::settings::Settings;
use crate::spans::Span;
use ih_plan::Plan;
use ih_tables::Instance;
use std::marker::Model;

/// All that a worker goes by in a round, beside its own number: the settings, what is pinned, which round it is, what that
/// is to do, and the plan from which it goes on, with how that stands.
#[derive(Drop)]
pub struct Leg<'b> {
    inst: &'b Instance,
    start: &'b Plan,
    pins: &'b Pins,
    settings: Settings,
    round: u32,
    span: Span,
    from: &'b Plan,
    standing: Standing,
}

impl<'b> Model for Leg<'b> {
    ghost use Rattle.ih_improve.specs.Legs.{IsLeg, LegState};

    ghost Value = { LegState };

    ghost view = { λ l. record {
      instance = l.inst.now.draft;
      start = l.start.now;
      pins = l.pins.now;
      settings = l.settings;
      round = l.round;
      span = l.span;
      from = l.from.now;
    } };

    ghost invariant = { λ l.
        let s : LegState = record {
          instance = l.inst.now.draft;
          start = l.start.now;
          pins = l.pins.now;
          settings = l.settings;
          round = l.round;
          span = l.span;
          from = l.from.now;
        } in IsLeg s l.standing };
}

impl<'b> Leg<'b> {
    ghost use Rattle.std.specs.Prelude.{◌≡◌};
    ghost use Rattle.ih_improve.specs.Better.{standing_of};
    ghost use Rattle.ih_improve.specs.Legs.{IsLeg, LegState, terms_of_leg};

    /// What a round of a search begins with.
    pub(crate) fn new(
        inst: &'b Instance,
        start: &'b Plan,
        pins: &'b Pins,
        settings: &Settings,
        round: u32,
        span: &Span,
        from: &'b Plan,
        standing: &Standing,
    ) -> Leg<'b>
        requires { let s : LegState = record {
          instance = inst.now.draft;
          start = start.now;
          pins = pins.now;
          settings = settings.now;
          round = round;
          span = span.now;
          from = from.now;
        } in IsLeg s standing.now }
        ensures { result ≡ record {
          instance = inst.entry.now.draft;
          start = start.entry.now;
          pins = pins.entry.now;
          settings = settings.now;
          round = round;
          span = span.now;
          from = from.entry.now;
        } }
    {
        Leg {
            inst,
            start,
            pins,
            settings: *settings,
            round,
            span: *span,
            from,
            standing: *standing,
        }
    }

    /// The instance on which the search works.
    pub(crate) fn instance(&self) -> &Instance
        ensures { result.now.draft ≡ self.now.instance }
    {
        self.inst
    }

    /// The timetable from which the search began.
    pub(crate) fn start(&self) -> &Plan
        ensures { result.now ≡ self.now.start }
    {
        self.start
    }

    /// Which of its choices are pinned.
    pub(crate) fn pins(&self) -> &Pins
        ensures { result.now ≡ self.now.pins }
    {
        self.pins
    }

    /// The search's settings.
    pub(crate) fn settings(&self) -> &Settings
        ensures { result.now ≡ self.now.settings }
    {
        &self.settings
    }

    /// The number of the round, from 0.
    pub(crate) fn round(&self) -> u32
        ensures { result ≡ self.now.round }
    {
        self.round
    }

    /// What the round is to do.
    pub(crate) fn span(&self) -> &Span
        ensures { result.now ≡ self.now.span }
    {
        &self.span
    }

    /// The timetable from which the round goes on.
    pub(crate) fn from(&self) -> &Plan
        ensures { result.now ≡ self.now.from }
    {
        self.from
    }

    /// What the timetable from which the round goes on is judged by.
    pub(crate) fn standing(&self) -> &Standing
        ensures { result.now ≡ standing_of (terms_of_leg self.now) self.now.from }
    {
        &self.standing
    }

    /// By what timetables are judged.
    pub(crate) fn measure(&self) -> Measure<'_>
        ensures { result ≡ terms_of_leg self.now }
    {
        Measure {
            inst: self.inst,
            start: self.start,
            pins: self.pins,
            settings: &self.settings,
        }
    }

    /// A fact for the caller's proof: the timetables fit the instance, and the settings are lawful.
    pub(crate) fn know_leg(&self)
        ensures { IsLeg self.now (standing_of (terms_of_leg self.now) self.now.from) }
    {
        let _ = &self.standing;
    }
}
