//! What is told of sessions of the transport protocol.
ghost use Rattle.std.specs.Prelude.{◌≡◌, OnOk};
ghost use Rattle.j39_audit.specs.ToldSessions.{ToldSessions, fault_noted, forgotten, no_sessions_told, sessions_before};
ghost use Rattle.j39_audit.specs.ToldSessions.{sessions_with, sessions_with_frame, word_of_fault};
ghost use Rattle.j39_audit.specs.inside.Recalling.{Notes, RecallsSessions, settings_of};

use crate::basis::Basis;
use crate::mark::{Word, make_mark};
use crate::tally::MarkTally;
use j39_id::Frame;
use j39_sessions::{SessionFault, Sessions};
use std::alloc::{AllocError, Global};

/// The sessions that frames showed, and what was found of them.
#[derive(Drop)]
pub(crate) struct SessionMarks {
    pub sessions: Sessions,
    pub told: MarkTally,
}

fn word_of_fault(fault: SessionFault) -> Word
    ensures { result ≡ word_of_fault fault }
{
    match fault {
        SessionFault::Announcement => Word::WrongAnnouncement,
        SessionFault::Grant => Word::WrongGrant,
        SessionFault::Packet => Word::WrongPacket,
        SessionFault::Acknowledged => Word::WrongReceipt,
    }
}

// Notes what a frame of a unit does that it mustn't, if its unit is known.
fn note_fault(
    told: &mut MarkTally,
    unit: Option<usize>,
    fault: Option<SessionFault>,
    line: u64,
) -> Result<(), AllocError>
    ensures { OnOk result (Notes told.old told.new (fault_noted unit line fault)) }
{
    let Some(unit) = unit else {
        return Ok(());
    };
    match fault {
        Some(fault) => told.note(make_mark(word_of_fault(fault), unit), line, 0),
        None => Ok(()),
    }
}

impl SessionMarks {
    pub fn new(alloc: Global) -> Self
        ensures { RecallsSessions result no_sessions_told }
    {
        SessionMarks {
            sessions: Sessions::new(alloc),
            told: MarkTally::new(alloc),
        }
    }

    /// Forgets the sessions, where frames may be missing.
    pub fn forget(&mut self)
        ensures { (m : ToldSessions) → RecallsSessions self.old m → RecallsSessions self.new (forgotten m) }
    {
        self.sessions.forget();
    }

    /// Comes to a frame just before which the log breaks off, or a gap ends.
    #[tactic(auto, unfolding(crate::specs::ToldSessions::sessions_before))]
    pub fn come_to(&mut self, broken: bool, gap: bool)
        ensures { (m : ToldSessions) → RecallsSessions self.old m
            → RecallsSessions self.new (sessions_before broken gap m) }
    {
        if broken || gap {
            self.forget();
        }
    }

    // Takes a frame of a unit, if it is known whose it is.
    fn take_frame(
        &mut self,
        unit: Option<usize>,
        frame: &Frame,
        line: u64,
    ) -> Result<(), AllocError>
        ensures { OnOk result ((m : ToldSessions) → RecallsSessions self.old m
            → RecallsSessions self.new (sessions_with unit frame.now line m)) }
    {
        let fault = self.sessions.take(frame)?;
        note_fault(&mut self.told, unit, fault, line)
    }

    /// Takes a frame of a whole log.
    #[tactic(auto, unfolding(crate::specs::ToldSessions::sessions_with_frame))]
    pub fn take(
        &mut self,
        basis: &Basis<'_>,
        unit: Option<usize>,
        frame: &Frame,
        line: u64,
    ) -> Result<(), AllocError>
        ensures { OnOk result ((m : ToldSessions) → RecallsSessions self.old m
            → RecallsSessions self.new (sessions_with_frame (settings_of basis.now) unit frame.now line m)) }
    {
        if basis.part {
            Ok(())
        } else {
            self.take_frame(unit, frame, line)
        }
    }
}
