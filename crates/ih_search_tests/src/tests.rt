//! The tests, by what they are of, and what reads their texts.

mod desk;
mod histories;
mod playing;
mod rounds;
mod scenes;
mod snapshot;
mod words;
