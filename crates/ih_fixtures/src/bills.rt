//! What an entry adds to a bill.

use ih_tables::Bill;

// Whether each number is the sum of both.
fn are_sums(sums: &[i64], first: &[i64], second: &[i64]) -> bool {
    if first.len() != sums.len() || second.len() != sums.len() {
        return false;
    }
    for k in 0..sums.len() {
        if sums[k] != first[k].wrapping_add(second[k]) {
            return false;
        }
    }
    true
}

/// Whether one bill is the other and this price, number by number.
pub fn is_dearer_by(after: &Bill, before: &Bill, price: &Bill) -> bool {
    are_sums(&after.v, &before.v, &price.v) && are_sums(&after.s, &before.s, &price.s)
}
