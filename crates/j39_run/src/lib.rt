//! The run command: a schedule on a simulated bus of a plan.
#![tactic(auto)]

mod closing;
mod halt;
mod laws;
mod planned;
mod refusal;
mod run;
mod run_lines;
mod running;
mod schedule_reader;
mod unit_state;

pub use laws::refused_lines_end_the_text;
pub use planned::run_planned;
pub use run::run_text;
