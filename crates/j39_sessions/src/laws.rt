//! Laws of what is told of sessions.
ghost use Rattle.j39_sessions.specs.SessionLaws.{ClearedPacketsArent, EarlyReceiptsAreTold, RightAnnouncementsArent};
ghost use Rattle.j39_sessions.specs.SessionLaws.{RightGrantsArent, RightReceiptsArent, UnclearedPacketsAreTold};
ghost use Rattle.j39_sessions.specs.SessionLaws.{WrongAnnouncementsAreTold, WrongGrantsAreTold};

/// An announcement that isn't right is told, and no other frame is told so.
pub fn wrong_announcements_are_told()
    ensures told { WrongAnnouncementsAreTold }
    ensures others { RightAnnouncementsArent }
{}

/// A packet with a number above all that CTSs cleared since the last RTS is told, where nothing was forgotten since;
/// one up to what a CTS cleared isn't.
pub fn uncleared_packets_are_told()
    ensures told { UnclearedPacketsAreTold }
    ensures others { ClearedPacketsArent }
{}

/// Behind a CTS that is right by the last RTS, and not by the RTS before, each CTS of the group that isn't is told, and
/// each acknowledgement before a packet of the message was sent.
pub fn wrong_answers_are_told()
    ensures grants { WrongGrantsAreTold }
    ensures receipts { EarlyReceiptsAreTold }
{}

/// What is right by the last RTS isn't told: a CTS, and an acknowledgement behind each packet of the message.
pub fn right_answers_are_not_told()
    ensures grants { RightGrantsArent }
    ensures receipts { RightReceiptsArent }
{}
