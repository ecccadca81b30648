//! The sessions of all pairs of addresses.
ghost use Rattle.std.specs.Prelude.{◌≡◌, ◌≢◌, ◌<◌, ℕ, Some, None, OnOk, IfOk};
ghost use Rattle.j39_sessions.specs.KeptSessions.{KeepsSessions, kept_at, key_of_pair};
ghost use Rattle.j39_sessions.specs.Sessions.{AllSessions, behind_known, fault_at, fault_of, goes_back, no_sessions};
ghost use Rattle.j39_sessions.specs.Sessions.{pair_behind};
ghost use Rattle.j39_sessions.specs.Sessions.{receiver_by, sender_by, sessions_behind};

use crate::fault::SessionFault;
use crate::pair_sessions::PairSessions;
use crate::reading::role_of;
use crate::role::Role;
use crate::session::LoggedSession;
use j39_id::{Frame, Ident};
use std::alloc::{AllocError, Global};
use std::collections::BTreeMap;

/// The sessions that frames showed, from each address to each other one.
#[derive(Drop)]
pub struct Sessions {
    kept: BTreeMap<u32, PairSessions>,
}

// The number of a pair.
fn key_of_pair(from: u8, to: u8) -> u32
    ensures { result ≡ key_of_pair from to }
{
    u32::from(from) * 256 + u32::from(to)
}

// Whether a frame of this kind goes from who receives the session.
fn goes_back(role: &Role) -> bool
    ensures { result ≡ goes_back role.now }
{
    matches!(role, Role::Clears(_) | Role::Acknowledges(_))
}

// The number of the pair whose session a frame is of.
fn key_of(ident: Ident, role: &Role) -> u32
    ensures { result ≡ key_of_pair (sender_by ident role.now) (receiver_by ident role.now) }
{
    if goes_back(role) {
        key_of_pair(ident.ps, ident.sa)
    } else {
        key_of_pair(ident.sa, ident.ps)
    }
}

impl Sessions {
    /// None yet.
    #[tactic(auto, unfolding(crate::specs::KeptSessions::KeepsSessions))]
    pub fn new(alloc: Global) -> Self
        ensures { KeepsSessions result no_sessions }
    {
        Sessions {
            kept: BTreeMap::new(alloc),
        }
    }

    /// Forgets them all: what comes may be of sessions that the log doesn't show.
    #[tactic(auto, unfolding(crate::specs::KeptSessions::KeepsSessions))]
    pub fn forget(&mut self)
        ensures { KeepsSessions self.new no_sessions }
    {
        self.kept.clear();
    }

    // A pair's session begins.
    fn begin(&mut self, key: u32, session: LoggedSession) -> Result<(), AllocError>
        ensures here { OnOk result (kept_at self.new key ≡ pair_behind (Role.Begins session) (kept_at self.old key)) }
        ensures others { OnOk result ((other : ℕ) → other ≢ key → kept_at self.new other ≡ kept_at self.old other) }
    {
        if let Some(pair) = self.kept.get_mut(&key) {
            pair.begin(session);
            return Ok(());
        }
        match self.kept.insert(key, PairSessions::first(session)) {
            Ok(_) => Ok(()),
            Err(_) => Err(AllocError),
        }
    }

    // What is kept of a pair is forgotten.
    fn break_off(&mut self, key: u32)
        ensures here { kept_at self.new key ≡ None }
        ensures others { (other : ℕ) → other ≢ key → kept_at self.new other ≡ kept_at self.old other }
    {
        let _ = self.kept.remove(&key);
    }

    // What a frame of a pair does that it mustn't.
    fn fault_of(&self, key: u32, role: &Role) -> Option<SessionFault>
        ensures { result ≡ fault_of role.now (kept_at self.now key) }
    {
        if matches!(role, Role::Breaks) {
            return Some(SessionFault::Announcement);
        }
        match self.kept.get(&key) {
            Some(pair) => pair.fault_in(role),
            None => None,
        }
    }

    // A frame that begins no session goes to those of its pair.
    fn go_on(&mut self, key: u32, role: &Role)
        ensures here { kept_at self.new key ≡ behind_known role.now (kept_at self.old key) }
        ensures others { (other : ℕ) → other ≢ key → kept_at self.new other ≡ kept_at self.old other }
    {
        if let Some(pair) = self.kept.get_mut(&key) {
            pair.take(role);
        }
    }

    // A frame goes to the sessions of its pair.
    fn turn(&mut self, key: u32, role: &Role) -> Result<(), AllocError>
        ensures here { OnOk result (kept_at self.new key ≡ pair_behind role.now (kept_at self.old key)) }
        ensures others { OnOk result ((other : ℕ) → other ≢ key → kept_at self.new other ≡ kept_at self.old other) }
    {
        match role {
            Role::Begins(session) => self.begin(key, *session),
            Role::Breaks => {
                self.break_off(key);
                Ok(())
            }
            _ => {
                self.go_on(key, role);
                Ok(())
            }
        }
    }

    /// Takes a frame, and answers what it does that it mustn't, by the sessions up to it.
    pub fn take(&mut self, frame: &Frame) -> Result<Option<SessionFault>, AllocError>
        ensures fault { IfOk result (λ fault. (s : AllSessions) → KeepsSessions self.old s → fault ≡ fault_at frame.now s) }
        ensures sessions { OnOk result ((s : AllSessions) → KeepsSessions self.old s
            → KeepsSessions self.new (sessions_behind frame.now s)) }
    {
        let role = role_of(frame);
        let key = key_of(frame.ident, &role);
        let fault = self.fault_of(key, &role);
        self.turn(key, &role)?;
        Ok(fault)
    }
}
