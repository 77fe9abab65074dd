//! Faults that a test plans for the calls of one kind.

ghost use Rattle.std.specs.Prelude.{◌≡◌};
ghost use Rattle.ih_shelf.specs.Faults.{kept_by};

use std::alloc::{AllocError, Global};
use std::marker::Model;

/// The call of a number, counted from 1, is to fail and to keep so many bytes.
#[derive(Drop)]
pub struct PlannedFault {
    number: u64,
    kept: u64,
}

fn find(plan: &[PlannedFault], number: u64) -> Option<u64>
    ensures { result ≡ kept_by plan.now number }
{
    for call in plan {
        if call.number == number {
            return Some(call.kept);
        }
    }
    None
}

/// The calls so far, those that are to fail, and the count of faults. Both counts stand still at
/// 2^64 - 1.
#[derive(Drop)]
pub struct FaultPlan {
    calls: u64,
    plan: Vec<PlannedFault>,
    count: u64,
}

impl Model for FaultPlan {
    ghost use Rattle.ih_shelf.specs.Faults.{Faults};

    ghost Value = { Faults };

    ghost view = { λ f. record { calls = f.calls; plan = f.plan.items; count = f.count } };
}

impl FaultPlan {
    ghost use Rattle.std.specs.Prelude.{◌≡◌, ◌≤◌, OnOk, OnErr};
    ghost use Rattle.ih_shelf.specs.Faults.{no_faults, planned, due, called, failed};

    /// A plan under which no call fails, before the first call. It takes no memory.
    pub fn new(alloc: Global) -> FaultPlan
        ensures { result ≡ no_faults }
    {
        FaultPlan {
            calls: 0,
            plan: Vec::new(alloc),
            count: 0,
        }
    }

    /// The call of this number, from 1, is to fail and to keep so many bytes.
    pub fn plan(&mut self, number: u64, kept: u64) -> Result<(), AllocError>
        ensures ok { OnOk result (self.new ≡ planned self.old number kept) }
        ensures err { OnErr result (self.new ≡ self.old) }
    {
        self.plan.insert(0, PlannedFault { number, kept })?;
        Ok(())
    }

    /// Counts a call, and tells how many bytes it keeps if it is to fail.
    #[tactic(auto, unfolding(crate::specs::Faults::due))]
    pub fn call(&mut self) -> Option<u64>
        ensures fails { result ≡ due self.old }
        ensures counted { self.new ≡ called self.old }
    {
        let number = self.calls.checked_add(1)?;
        self.calls = number;
        find(self.plan.as_slice(), number)
    }

    /// Counts a fault.
    pub fn fail(&mut self)
        ensures counted { self.new ≡ failed self.old }
        ensures grows { self.old.count ≤ self.new.count }
    {
        self.count = self.count.saturating_add(1);
    }

    /// How many faults there were.
    pub fn count(&self) -> u64
        ensures { result ≡ self.now.count }
    {
        self.count
    }
}
