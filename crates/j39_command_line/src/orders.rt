//! What a command line asks for.
ghost use Rattle.std.specs.Prelude.{◌≡◌};
ghost use Rattle.j39_command_line.specs.Orders.{are_all};
ghost use Rattle.j39_command_line.specs.declared.orders.WordsFault.TheVariants.{Memory};

use std::alloc::AllocError;
use thiserror::Error;

/// Which frames of a log are reported.
#[derive(Clone, Copy)]
pub enum Frames {
    /// The frames of planned groups.
    Planned,
    /// All frames.
    All,
}

impl Frames {
    /// Whether all frames are reported.
    pub fn are_all(self) -> bool
        ensures { result ≡ are_all self }
    {
        match self {
            Frames::All => true,
            Frames::Planned => false,
        }
    }
}

/// What a command line asks for.
#[derive(Drop)]
pub enum Order {
    /// No words: the first line of standard input is a frame line.
    Input,
    /// `frame LINE`: what the line says.
    Frame(String),
    /// `show PLAN`: the values of the plan of the file of this name.
    Show(String),
    /// `variant PLAN LABEL ..`: the values of the plan of a variant that takes the alternatives of these labels, of the
    /// plan of the file of this name.
    Variant(String, Vec<String>),
    /// `check PLAN`: what is wrong with the plan of the file of this name.
    Check(String),
    /// `addresses PLAN`: which units of the plan of the file of this name hold their planned addresses whatever
    /// happens.
    Addresses(String),
    /// `load PLAN`: how long frames wait, and how full the bus is, by the plan of the file of this name.
    Load(String),
    /// `run PLAN SCHEDULE`: what happens on the bus of the plan by the schedule, the files of these names.
    Run(String, String),
    /// `read PLAN LOG`: what the log says of the plan's groups, the files of these names.
    Read(String, String),
    /// `follow PLAN LOG`: who sent what in the log, by its own claims, the files of these names; with `--all` of all
    /// frames.
    Follow(String, String, Frames),
    /// `audit PLAN LOG`: which premises of the plan the log refutes, the files of these names; with `--part`, which is
    /// true then, of a log in which frames may be missing; with `--stamps US` by a logger of this error in
    /// microseconds; and with `--quiet MS`, which may be absent, so many milliseconds without a frame are a gap.
    Audit(String, String, bool, u64, Option<u64>),
    /// `vehicle VEHICLE`: what is wrong with the vehicle of several buses of the file of this name.
    Vehicle(String),
    /// The help of the program or of a command, or the program's version: this text.
    Help(String),
}

/// Why words are no order.
#[derive(Clone, Copy, Debug, Error)]
pub enum WordsFault {
    /// The words are no command with its values.
    #[error("bad command line")]
    Bad,
    /// An allocation was refused.
    #[error("out of memory")]
    Memory,
}

impl From<AllocError> for WordsFault {
    ghost from_gives = { λ _ fault. fault ≡ Memory };

    fn from(_error: AllocError) -> WordsFault {
        WordsFault::Memory
    }
}
