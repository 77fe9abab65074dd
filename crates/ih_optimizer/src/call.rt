//! A call of the optimizer: what is searched, and how.

use crate::pacing::Pace;
use ih_arguments::start::Start;
use ih_improve::Given;

/// `improve INSTANCE OUT` with its options.
#[derive(Debug, Drop)]
pub struct Improve<'a> {
    /// The name of the instance's file.
    pub instance: &'a str,
    /// The name of the file that the solution goes to.
    pub out: &'a str,
    /// Whether the timetable that this file has stays where it is cheaper.
    pub keeps: bool,
    /// How long the search goes on.
    pub pace: Pace,
    /// The settings, of which some may be left out.
    pub settings: Given,
    /// What the search starts from.
    pub start: Start<'a>,
    /// The name of the file for the timetable with the least score, where none is feasible.
    pub draft: Option<&'a str>,
    /// The ids of the patients whose stays are those of the start.
    pub pins: Vec<&'a str>,
    /// Whether so are the nurses of all rooms that are occupied there.
    pub pin_nurses: bool,
    /// Whether it is told what no plan costs less than, and how far the best may be from that.
    pub is_bounded: bool,
}
