//! What bills are to have, as texts.

use ih_tables::Bill;

// Whether just these numbers stand in a text, with a space between.
fn are_in(numbers: &[i64], text: &str) -> bool {
    let mut words = text.split(' ');
    for number in numbers {
        let word = words.next().unwrap_or("");
        if word.parse::<i64>().ok() != Some(*number) {
            return false;
        }
    }
    words.next().is_none()
}

/// Whether a bill has these numbers of broken rules, and these of costs.
pub fn has(bill: &Bill, broken: &str, costs: &str) -> bool {
    are_in(&bill.v, broken) && are_in(&bill.s, costs)
}

/// No broken rule.
pub const KEPT: &str = "0 0 0 0 0 0 0 0 0";

/// No costs.
pub const FREE: &str = "0 0 0 0 0 0 0 0";
