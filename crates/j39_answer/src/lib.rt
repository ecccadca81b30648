//! All that is known of one plan by itself, found once for every command that asks: its findings, its loads, its
//! delays.
#![tactic(auto)]

mod plan_answer;

pub use plan_answer::PlanAnswer;
