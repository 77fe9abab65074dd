//! Whole calls of a program over files in memory, as a script: what is done, and what is then so. Which program it is,
//! is handed in as a closure, so that no test is proved over a program's contract. A script is one text, since each item
//! of a table is dear to prove.
//!
//! Each event begins on a line of its own behind `> `, and the lines below it are its text. `= NAME` in place of a text
//! is the text of that name in examples.rt. Of a text with three dots (one sign) only what stands before and behind them
//! counts. In lines that are said or had, `report V1 .. V9, S1 .. S8, COST` is that report on a small ward. A FILE is a
//! text of examples.rt, or else what the name has.
//!
//! | event | what it does, or what is then so |
//! |---|---|
//! | `anew` | there are no files, and nothing is to fail |
//! | `store NAME` | the name gets the text, without a line feed at its end |
//! | `add NAME` | the name gets the text behind what it has |
//! | `lay INSTANCE SOLUTION` | `i` and `s` get the texts of these names |
//! | `change NAME FILE` | the name gets the text of FILE, in which the first line gives way to the second |
//! | `spaces NAME N` | the name gets so many spaces |
//! | `fail-read N`, `fail-write N KEPT` | the read, or the write, of this number is to fail, and to leave so many bytes |
//! | `CODE CALL` | the call ends with this status and says these lines, in one put |
//! | `says CODE CALL` | the call ends with this status and says these lines, in any number of puts |
//! | `cut PUT CODE CALL` | the put of this number fails, and the call ends with this status and says these lines |
//! | `changes NAME FILE CODE CALL` | each row `FROM \| TO \| LINE`: NAME gets FILE so changed, CALL says LINE |
//! | `each CODE LINE` | each call of the text ends with this status and says this line |
//! | `alike` | two calls are done and say the same |
//! | `replays` | the replay of the first line and each search below are done, say the same, and leave one solution |
//! | `hold N CALL` | the call is done past a gate that holds worker 0's attempts of the numbers below N |
//! | `meet N CALL`, `pass N CALL` | past a gate at which N workers meet, or which each of two workers passes N times |
//! | `is NAME`, `has NAME`, `no NAME` | the name has the text, has the lines, or isn't there |
//! | `shows NAME` | the text stands in that of the name |
//! | `same NAME NAME`, `same-lines NAME NAME` | both have the same bytes, or lines behind the first |
//! | `lines NAME N`, `sum NAME N` | the name has so many lines, or a text of this checksum |
//! | `pairs NAME`, `together N` | attempts stand side by side in the journal, or N first moves were priced at once |
//! | `#` | nothing: the rest of the line is for the reader |
//!
//! The calls past gates begin with the two patients of whom the first is admitted.
#![tactic(auto)]

mod calls;
mod changing;
mod counting;
mod examples;
mod gates;
mod held;
mod meeting;
mod pairs;
mod reports;
mod script;
mod texts;

pub use calls::words_of;
pub use counting::CountingGate;
pub use examples::given;
pub use gates::TestGate;
pub use script::first_wrong;
