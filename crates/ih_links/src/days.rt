//! Lists of several days, in their compact form.

ghost use Rattle.std.specs.Prelude.{◌≡◌, replicate, IfOk};
ghost use Rattle.ih_links.specs.Days.{empty_lists};

use crate::CompactLinks;
use std::alloc::{AllocError, Global};

/// For each of so many days, lists that are all empty.
pub fn empty_days(
    alloc: Global,
    days: u32,
    heads: u32,
    nodes: u32,
) -> Result<Vec<CompactLinks>, AllocError>
    ensures { IfOk result (λ all. all.items ≡ replicate days (empty_lists heads nodes)) }
{
    let mut all = Vec::with_capacity(alloc, days as usize)?;
    for _ in 0..days {
        all.push(CompactLinks::compact(alloc, heads, nodes)?)?;
    }
    Ok(all)
}
