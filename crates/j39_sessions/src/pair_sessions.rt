//! The sessions from one address to another.
ghost use Rattle.std.specs.Prelude.{◌≡◌};
ghost use Rattle.j39_sessions.specs.Sessions.{with_later, pair_with, fault_in, first_known, is_it_acknowledged, is_it_cleared};
ghost use Rattle.j39_sessions.specs.Sessions.{is_wrong_clearance, is_wrong_receipt, stays, with_clearance};
ghost use Rattle.j39_sessions.specs.Sessions.{with_receipt};

use crate::fault::SessionFault;
use crate::role::{Clearance, Receipt, Role};
use crate::session::LoggedSession;

/// The session before the newest one.
#[derive(Clone, Copy)]
pub enum Before {
    /// It isn't known: all may be right by it.
    Unknown,
    /// None is.
    Nothing,
    /// This one.
    Known(LoggedSession),
}

impl Before {
    // Whether a CTS is right by it.
    fn is_cleared(&self, clearance: Clearance) -> bool
        ensures { result ≡ is_it_cleared clearance self.now }
    {
        match self {
            Before::Unknown => true,
            Before::Nothing => false,
            Before::Known(session) => session.is_cleared(clearance),
        }
    }

    // Whether an acknowledgement is right by it.
    fn is_acknowledged(&self, receipt: Receipt) -> bool
        ensures { result ≡ is_it_acknowledged receipt self.now }
    {
        match self {
            Before::Unknown => true,
            Before::Nothing => false,
            Before::Known(session) => session.is_acknowledged(receipt),
        }
    }

    // Whether it stays behind a CTS that is right by the newest: a known one by which the CTS is right too.
    fn stays(&self, clearance: Clearance) -> bool
        ensures { result ≡ stays clearance self.now }
    {
        match self {
            Before::Known(session) => session.is_cleared(clearance),
            _ => false,
        }
    }
}

/// The sessions from one address to another: the newest, the one before it, and whether none is before the next one.
#[derive(Clone, Copy)]
pub struct PairSessions {
    pub newest: LoggedSession,
    pub before: Before,
    pub is_over: bool,
}

impl PairSessions {
    /// Behind the first RTS that is known.
    pub(crate) fn first(session: LoggedSession) -> Self
        ensures { result ≡ first_known session }
    {
        PairSessions {
            newest: session,
            before: Before::Unknown,
            is_over: false,
        }
    }

    /// Behind one more.
    pub(crate) fn begin(&mut self, session: LoggedSession)
        ensures { self.new ≡ with_later session self.old }
    {
        self.before = if self.is_over {
            Before::Nothing
        } else {
            Before::Known(self.newest)
        };
        self.newest = session;
        self.is_over = false;
    }

    // Whether a CTS of the newest session's group is right by none.
    fn is_wrong_clearance(&self, clearance: Clearance) -> bool
        ensures { result ≡ is_wrong_clearance clearance self.now }
    {
        clearance.group == self.newest.group
            && !(self.newest.is_cleared(clearance) || self.before.is_cleared(clearance))
    }

    // Whether an acknowledgement of the newest session's group is right by none.
    fn is_wrong_receipt(&self, receipt: Receipt) -> bool
        ensures { result ≡ is_wrong_receipt receipt self.now }
    {
        receipt.group == self.newest.group
            && !(self.newest.is_acknowledged(receipt) || self.before.is_acknowledged(receipt))
    }

    /// What a frame does that it mustn't.
    pub(crate) fn fault_in(&self, role: &Role) -> Option<SessionFault>
        ensures { result ≡ fault_in role.now self.now }
    {
        match role {
            Role::Clears(clearance) => self
                .is_wrong_clearance(*clearance)
                .then_some(SessionFault::Grant),
            Role::Acknowledges(receipt) => {
                self.is_wrong_receipt(*receipt)
                    .then_some(SessionFault::Acknowledged)
            }
            Role::Carries(number) => (!self.newest.is_permitted(*number)).then_some(
                SessionFault::Packet,
            ),
            _ => None,
        }
    }

    // Behind a CTS of the newest session's group.
    fn clear(&mut self, clearance: Clearance)
        ensures { self.new ≡ with_clearance clearance self.old }
    {
        if self.newest.is_cleared(clearance) && !self.before.stays(clearance) {
            self.before = Before::Nothing;
        }
        self.newest.clear(clearance);
    }

    // Behind an acknowledgement of its group.
    fn acknowledge(&mut self, receipt: Receipt)
        ensures { self.new ≡ with_receipt receipt self.old }
    {
        if self.newest.is_acknowledged(receipt) || !self.before.is_acknowledged(receipt) {
            self.is_over = true;
        } else {
            self.before = Before::Nothing;
        }
    }

    /// Behind a frame that begins no session.
    pub(crate) fn take(&mut self, role: &Role)
        ensures { self.new ≡ pair_with role.now self.old }
    {
        match role {
            Role::Clears(clearance) => {
                if clearance.group == self.newest.group {
                    self.clear(*clearance);
                }
            }
            Role::Acknowledges(receipt) => {
                if receipt.group == self.newest.group {
                    self.acknowledge(*receipt);
                }
            }
            Role::Carries(number) => self.newest.send(*number),
            _ => {}
        }
    }
}
