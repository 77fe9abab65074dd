//! The tests, by what they are of.

mod bills;
mod costs;
mod fill;
mod footprint;
mod ledgers;
mod links;
mod nurses;
mod roomdays;
mod theatres;
