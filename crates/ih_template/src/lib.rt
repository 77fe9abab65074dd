//! The template of a page, with data in its place that HTML reads as nothing but data.
#![tactic(auto)]

mod escapes;
mod filling;
mod template;

pub use filling::page_with;
pub use template::{HEAD, TAIL};
