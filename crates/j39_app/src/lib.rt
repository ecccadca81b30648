//! The commands of the plan checker, over any source and sink of bytes, and the program.
#![tactic(auto)]

mod answering;
mod answering_vehicles;
mod auditing;
mod by_plan;
mod exit_status;
mod folder;
mod plan_command;
mod program;

pub use answering::answer;
pub use auditing::audit_planned;
pub use exit_status::status;
pub use folder::{Folder, SystemFiles};
pub use j39_audit::audit_text;
pub use j39_command_line::{Order, WordsFault, order};
pub use j39_follow::follow_text;
pub use j39_line_text::{addresses_line_text, check_line_text, load_line_text};
pub use j39_log::read_text;
pub use j39_plan_text::{line_text, refuse_choices, show_text, variant_text};
pub use j39_run::{refused_lines_end_the_text, run_planned, run_text};
pub use j39_schedule::LineFault;
pub use j39_stream::{
    CommandResult, Failed, Fault, FromRead, Sink, Source, ToWrite, Verdict, put_all, read_whole,
};
pub use j39_text::{frame_text, input_text};
pub use j39_vehicle_text::{bus_plan, vehicle_file, vehicle_text};
pub use program::run_program;
