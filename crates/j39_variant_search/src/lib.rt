//! The first variant in a box and in none of some others.
#![tactic(auto)]

mod flags;
mod outside;
mod parts;
mod search;

pub use search::first_outside;
