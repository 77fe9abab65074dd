//! The table of loads: the workload of each nurse in each shift, beside the most that it may be.

ghost use Rattle.std.specs.Prelude.{◌≡◌, ◌<◌, ◌≤◌, ◌+◌, ◌-◌, ◌*◌, ◌^◌, ◌≤ℤ◌, ℕ, neg_ℤ, pos, Option, IfSome};
ghost use Rattle.ih_tables.specs.{declared.ids.NurseNo.NurseNo, Sizes.nurse_count, Sizes.shift_count, Works.max_load};
ghost use Rattle.ih_plan.specs.Costs.{overload};
ghost use Rattle.ih_nurses.specs.Loads.{IsTable, load_at, most_of, share, excess_increase};

use ih_plan::increase;
use ih_tables::{Instance, NurseNo, Shift};

/// A nurse's workload in a shift, and the most that it may be.
#[derive(Clone, Copy)]
pub struct NurseLoad {
    pub work: u32,
    /// The nurse's maximum. Where the nurse doesn't work the shift it is the greatest number: no workload is above.
    pub most: u32,
}

// Where a nurse's load in a shift stands.
fn place(inst: &Instance, nurse: NurseNo, shift: Shift) -> usize
    requires nurse { nurse.0 < nurse_count inst.now.draft }
    requires shift { shift.0 < shift_count inst.now.draft }
    ensures value { result ≡ nurse.0 * shift_count inst.now.draft + shift.0 }
    ensures inside { result < nurse_count inst.now.draft * shift_count inst.now.draft }
{
    nurse.0 as usize * inst.shifts() as usize + shift.0 as usize
}

/// A nurse's load in a shift.
pub fn load(inst: &Instance, loads: &[NurseLoad], nurse: NurseNo, shift: Shift) -> NurseLoad
    requires table { IsTable inst.now.draft loads.now }
    requires nurse { nurse.0 < nurse_count inst.now.draft }
    requires shift { shift.0 < shift_count inst.now.draft }
    ensures work { result.work ≡ load_at inst.now.draft loads.now nurse.0 shift.0 }
    ensures most { result.most ≡ most_of (max_load inst.now.draft nurse.0 shift.0) }
{
    loads[place(inst, nurse, shift)]
}

/// A workload above the most that it may be, and 0 where the nurse doesn't work the shift.
pub fn overload(load: NurseLoad, work: u32) -> u32
    ensures { (most : Option ℕ) → load.most ≡ most_of most → result ≡ overload most work }
{
    work.saturating_sub(load.most)
}

/// Adds to the load of a nurse, where there is one.
pub fn add_load(
    inst: &Instance,
    loads: &mut [NurseLoad],
    nurse: Option<NurseNo>,
    shift: Shift,
    load: u32,
)
    requires table { IsTable inst.now.draft loads.old }
    requires nurse { IfSome nurse (λ n. n.0 < nurse_count inst.now.draft) }
    requires shift { shift.0 < shift_count inst.now.draft }
    requires fits { (n : ℕ) → n < nurse_count inst.now.draft
        → load_at inst.now.draft loads.old n shift.0 + load < 2 ^ 32 }
    ensures table { IsTable inst.now.draft loads.new }
    ensures each { (n k : ℕ) → n < nurse_count inst.now.draft → k < shift_count inst.now.draft
        → load_at inst.now.draft loads.new n k ≡ load_at inst.now.draft loads.old n k + share nurse shift.0 load n k }
{
    match nurse {
        None => {}
        Some(a) => loads[place(inst, a, shift)].work += load,
    }
}

/// Takes from the load of a nurse, where there is one.
pub fn take_load(
    inst: &Instance,
    loads: &mut [NurseLoad],
    nurse: Option<NurseNo>,
    shift: Shift,
    load: u32,
)
    requires table { IsTable inst.now.draft loads.old }
    requires nurse { IfSome nurse (λ n. n.0 < nurse_count inst.now.draft) }
    requires shift { shift.0 < shift_count inst.now.draft }
    requires enough { (n : ℕ) → n < nurse_count inst.now.draft
        → share nurse shift.0 load n shift.0 ≤ load_at inst.now.draft loads.old n shift.0 }
    ensures table { IsTable inst.now.draft loads.new }
    ensures each { (n k : ℕ) → n < nurse_count inst.now.draft → k < shift_count inst.now.draft
        → load_at inst.now.draft loads.new n k + share nurse shift.0 load n k ≡ load_at inst.now.draft loads.old n k }
{
    match nurse {
        None => {}
        Some(a) => loads[place(inst, a, shift)].work -= load,
    }
}

/// Takes a load from one nurse in a shift, where there is one, and gives it to another.
pub fn move_load(
    inst: &Instance,
    loads: &mut [NurseLoad],
    from: Option<NurseNo>,
    to: Option<NurseNo>,
    shift: Shift,
    load: u32,
)
    requires table { IsTable inst.now.draft loads.old }
    requires from { IfSome from (λ n. n.0 < nurse_count inst.now.draft) }
    requires to { IfSome to (λ n. n.0 < nurse_count inst.now.draft) }
    requires shift { shift.0 < shift_count inst.now.draft }
    requires small { (n : ℕ) → n < nurse_count inst.now.draft
        → load_at inst.now.draft loads.old n shift.0 ≤ 256000000 }
    requires load { load ≤ 256000000 }
    requires enough { (n : ℕ) → n < nurse_count inst.now.draft
        → share from shift.0 load n shift.0 ≤ load_at inst.now.draft loads.old n shift.0 }
    ensures table { IsTable inst.now.draft loads.new }
    ensures each { (n k : ℕ) → n < nurse_count inst.now.draft → k < shift_count inst.now.draft
        → load_at inst.now.draft loads.new n k + share from shift.0 load n k
        ≡ load_at inst.now.draft loads.old n k + share to shift.0 load n k }
{
    take_load(inst, loads, from, shift, load);
    add_load(inst, loads, to, shift, load);
}

/// What changes in the workload above its maximum of a nurse, where there is one, when one load goes and another comes.
#[inline(always)]
pub fn excess_change(
    inst: &Instance,
    loads: &[NurseLoad],
    nurse: Option<NurseNo>,
    shift: Shift,
    less: u32,
    more: u32,
) -> i64
    requires table { IsTable inst.now.draft loads.now }
    requires nurse { IfSome nurse (λ n. n.0 < nurse_count inst.now.draft) }
    requires shift { shift.0 < shift_count inst.now.draft }
    requires enough { IfSome nurse (λ a. less ≤ load_at inst.now.draft loads.now a.0 shift.0) }
    requires fits { IfSome nurse (λ a. load_at inst.now.draft loads.now a.0 shift.0 - less + more < 2 ^ 32) }
    ensures increase { result ≡ excess_increase inst.now.draft loads.now nurse shift.0 (λ load. load - less + more) }
    ensures low { neg_ℤ (pos (10 ^ 11)) ≤ℤ result }
    ensures high { result ≤ℤ pos (10 ^ 11) }
{
    let Some(a) = nurse else {
        return 0;
    };
    let before = load(inst, loads, a, shift);
    increase(
        overload(before, before.work - less + more),
        overload(before, before.work),
    )
}
