//! Searches of lists by rules: what is found of each value, and of each two values.
#![tactic(auto)]

mod rules;

pub use rules::{
    FindResult, PairRule, Rule, TestRule, find_each, find_pairs, find_tested, push_if,
};
