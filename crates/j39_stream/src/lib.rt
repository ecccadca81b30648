//! Sources and sinks of bytes, why reading or writing them fails, and the loop that reads the lines of a source.
#![tactic(auto)]

mod failed;
mod fault;
mod from_read;
mod intake;
mod limits;
mod line_reader;
mod line_reading;
mod loading;
mod sink;
mod source;
mod to_write;
mod verdict;
mod writing;

pub use failed::Failed;
pub use fault::{CommandResult, Fault};
pub use from_read::FromRead;
pub use intake::{Intake, PIECE_BYTES};
pub use limits::{LOG_LIMITS, Limits, PLAN_LIMITS};
pub use line_reader::LineReader;
pub use line_reading::read_lines;
pub use loading::read_whole;
pub use sink::Sink;
pub use source::Source;
pub use to_write::ToWrite;
pub use verdict::Verdict;
pub use writing::put_all;
