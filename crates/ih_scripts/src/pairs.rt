//! Journals of two workers, of whom each attempt of one stands beside one of the other.

use crate::held::text_under;
use ih_shelf::MemShelf;

// Whether the word is there and is this number.
fn is_number(word: Option<&str>, number: u32) -> bool {
    match word {
        Some(text) => match text.parse::<u32>() {
            Ok(found) => found == number,
            Err(_) => false,
        },
        None => false,
    }
}

// Whether the line begins as that of the attempt at this place: worker 1's at even places, and worker 0's at odd ones,
// priced before that of worker 1.
fn is_in_turn(line: &str, place: u32) -> bool {
    let number = place / 2;
    let worker = 1 - place % 2;
    let mut words = line.split(' ');
    is_number(words.next(), place)
        && is_number(words.next(), worker)
        && is_number(words.next(), number)
        && (worker == 1 || is_number(words.next(), number * 2))
}

// Whether each of a hundred attempts of worker 0 stands right behind that of worker 1, and was priced before it.
fn stand_side_by_side(journal: &str) -> bool {
    let mut place: u32 = 0;
    for line in journal.split('\n').skip(1) {
        if line.is_empty() {
            return place == 200;
        }
        if !is_in_turn(line, place) {
            return false;
        }
        place = place.saturating_add(1);
    }
    false
}

/// Whether the name has such a journal.
pub(crate) fn has_pairs(shelf: &MemShelf, name: &str) -> bool {
    match text_under(shelf, name) {
        Some(journal) => stand_side_by_side(journal),
        None => false,
    }
}
