//! Packets, senders and receivers on a worked message.
use j39_id::Pgn;
use j39_tp::{
    Dest, Heard, Message, Outcome, Packet, PacketError, Phase, Reaction, Receiver, Sender, from_cm,
    from_dt, sent_packets_read_back, to_data,
};
use std::process::Abort;
use std::test::Fail;

// The bytes of the message, of the group 65260.
const TEXT: [u8; 17] = [0, 1, 2, 3, 4, 5, 6, 7, 8, 9, 10, 11, 12, 13, 14, 15, 16];

const RTS: [u8; 8] = [0x10, 0x11, 0x00, 0x03, 0xFF, 0xEC, 0xFE, 0x00];

const BAM: [u8; 8] = [0x20, 0x11, 0x00, 0x03, 0xFF, 0xEC, 0xFE, 0x00];

const END_ACK: [u8; 8] = [0x13, 0x11, 0x00, 0x03, 0xFF, 0xEC, 0xFE, 0x00];

const FIRST: [u8; 8] = [0x01, 0x00, 0x01, 0x02, 0x03, 0x04, 0x05, 0x06];

const SECOND: [u8; 8] = [0x02, 0x07, 0x08, 0x09, 0x0A, 0x0B, 0x0C, 0x0D];

const THIRD: [u8; 8] = [0x03, 0x0E, 0x0F, 0x10, 0xFF, 0xFF, 0xFF, 0xFF];

const fn cts(count: u8, first: u8) -> [u8; 8] {
    [0x11, count, first, 0xFF, 0xFF, 0xEC, 0xFE, 0x00]
}

const fn abort(reason: u8) -> [u8; 8] {
    [0xFF, reason, 0xFF, 0xFF, 0xFF, 0xEC, 0xFE, 0x00]
}

fn packet_of(bytes: &[u8; 8]) -> Result<Packet, PacketError> {
    from_cm(bytes).or(from_dt(bytes))
}

fn message() -> Result<Message, Fail> {
    let pgn = Pgn::new(65260).ok_or("no group")?;
    Ok(Message::new(pgn, &TEXT).ok_or("no message")?)
}

#[test]
fn packets_are_read_and_sent_again(rt: HostRuntime) -> Result<(), Fail> {
    sent_packets_read_back();
    for (bytes, sent) in [
        (RTS, RTS),
        (END_ACK, END_ACK),
        (SECOND, SECOND),
        ([0x11, 3, 1, 0, 0, 0xEC, 0xFE, 0], cts(3, 1)),
    ] {
        assert!(rt; to_data(&packet_of(&bytes)?) == sent);
    }
    Ok(())
}

#[test]
fn a_message_is_reported_as_it_was_given(rt: HostRuntime) -> Result<(), Fail> {
    let message = message()?;
    assert!(rt; (message.pgn().number(), message.size().bytes()) == (65260, 17));
    assert!(rt; message.bytes() == TEXT.as_slice());
    assert!(rt; message.chunk(3) == [14, 15, 16, 255, 255, 255, 255]);
    Ok(())
}

// What a sender or a receiver meets: a packet, hearing nothing in time, or that it may send a packet.
#[derive(Clone, Copy)]
enum Met {
    Heard([u8; 8]),
    Late,
    Sends,
}

// What it answers.
#[derive(Clone, Copy, PartialEq, Eq)]
enum Answer {
    Nothing,
    Packet([u8; 8]),
    Go,
    Ended,
    Complete,
    CompletePacket([u8; 8]),
    Closed,
}

fn answer_of(packet: Option<Packet>) -> Answer {
    match packet {
        Some(packet) => Answer::Packet(to_data(&packet)),
        None => Answer::Nothing,
    }
}

// What a sender answers.
fn said(sender: &mut Sender, met: Met) -> Result<Answer, PacketError> {
    Ok(match met {
        Met::Late => answer_of(sender.late()),
        Met::Sends => answer_of(sender.next_packet()),
        Met::Heard(bytes) => match sender.hear(&packet_of(&bytes)?) {
            Reaction::Nothing => Answer::Nothing,
            Reaction::Go => Answer::Go,
            Reaction::Ended => Answer::Ended,
            Reaction::Reply(packet) => Answer::Packet(to_data(&packet)),
        },
    })
}

// Sends the message, and sees each answer on the way and the outcome.
fn sends(
    rt: &impl Abort,
    dest: Dest,
    announcement: [u8; 8],
    turns: &[(Met, Answer)],
    outcome: Option<Outcome>,
) -> Result<Sender, Fail> {
    let mut sender = Sender::new();
    let Ok(packet) = sender.begin(message()?, dest) else {
        return Err("busy").map_err(Fail::from);
    };
    assert!(rt; to_data(&packet) == announcement);
    for (met, answer) in turns {
        assert!(rt; said(&mut sender, *met)? == *answer);
    }
    assert!(rt; sender.outcome() == outcome);
    Ok(sender)
}

#[test]
fn a_message_to_all_is_sent_without_answers(rt: HostRuntime) -> Result<(), Fail> {
    let turns = [
        (Met::Sends, Answer::Packet(FIRST)),
        (Met::Sends, Answer::Packet(SECOND)),
        (Met::Sends, Answer::Packet(THIRD)),
        (Met::Sends, Answer::Nothing),
        (Met::Heard(abort(9)), Answer::Nothing),
    ];
    let mut sender = sends(&rt, Dest::All, BAM, &turns, Some(Outcome::Sent))?;
    assert!(rt; sender.phase() == Phase::Resting);
    assert!(rt; sender.rest());
    assert!(rt; !sender.rest());
    Ok(())
}

#[test]
fn a_message_to_one_is_sent_as_it_is_granted(rt: HostRuntime) -> Result<(), Fail> {
    let turns = [
        (Met::Heard(cts(0, 1)), Answer::Nothing),
        (Met::Heard(cts(5, 2)), Answer::Go),
        (Met::Sends, Answer::Packet(SECOND)),
        (Met::Sends, Answer::Packet(THIRD)),
        (Met::Sends, Answer::Nothing),
        (Met::Heard(END_ACK), Answer::Ended),
    ];
    let _acked = sends(&rt, Dest::One, RTS, &turns, Some(Outcome::Acked))?;
    let turns = [
        (Met::Heard(cts(3, 1)), Answer::Go),
        (Met::Heard(cts(3, 1)), Answer::Packet(abort(4))),
    ];
    let _twice = sends(&rt, Dest::One, RTS, &turns, Some(Outcome::Aborted(4)))?;
    let turns = [
        (Met::Late, Answer::Packet(abort(3))),
        (Met::Late, Answer::Nothing),
    ];
    let _late = sends(&rt, Dest::One, RTS, &turns, Some(Outcome::GaveUp))?;
    Ok(())
}

#[test]
fn a_resting_sender_hands_a_message_back(rt: HostRuntime) -> Result<(), Fail> {
    let turns = [(Met::Heard(abort(9)), Answer::Ended)];
    let mut sender = sends(&rt, Dest::One, RTS, &turns, Some(Outcome::Aborted(9)))?;
    match sender.begin(message()?, Dest::One) {
        Ok(_) => Err("not busy")?,
        Err(busy) => assert!(rt; busy.message.bytes() == TEXT.as_slice()),
    }
    Ok(())
}

// What a receiver answers. It is never asked to send.
fn answered(receiver: &mut Receiver, met: Met) -> Result<Answer, PacketError> {
    Ok(match met {
        Met::Late | Met::Sends => answer_of(receiver.late()),
        Met::Heard(bytes) => match receiver.hear(&packet_of(&bytes)?) {
            Heard::Nothing => Answer::Nothing,
            Heard::Reply(packet) => Answer::Packet(to_data(&packet)),
            Heard::Complete => Answer::Complete,
            Heard::CompleteReply(packet) => Answer::CompletePacket(to_data(&packet)),
            Heard::Closed => Answer::Closed,
        },
    })
}

// How many bytes the message has that is then complete.
fn completed(receiver: &Receiver, met: Met) -> Result<Option<u16>, PacketError> {
    Ok(match met {
        Met::Late | Met::Sends => None,
        Met::Heard(bytes) => receiver
            .completes(&packet_of(&bytes)?)
            .map(|size| size.bytes()),
    })
}

// Receives, and sees before each answer whether it completes the message, that nothing is open at the end, and the
// bytes that came whole.
fn receives(
    rt: &impl Abort,
    mut receiver: Receiver,
    turns: &[(Met, Answer)],
    bytes: &[u8],
) -> Result<(), Fail> {
    for (met, answer) in turns {
        let is_whole = matches!(answer, Answer::Complete | Answer::CompletePacket(_));
        assert!(rt; completed(&receiver, *met)? == if is_whole { Some(17) } else { None });
        assert!(rt; answered(&mut receiver, *met)? == *answer);
    }
    assert!(rt; !receiver.is_open());
    let pgn = receiver.group().map(|pgn| pgn.number());
    assert!(rt; pgn == if bytes.is_empty() { None } else { Some(65260) });
    assert!(rt; receiver.bytes() == bytes);
    Ok(())
}

#[test]
fn a_window_of_two_takes_three_packets(rt: HostRuntime) -> Result<(), Fail> {
    assert!(rt; Receiver::new(0).is_none());
    assert!(rt; packet_of(&RTS)?.is_announcement());
    assert!(rt; !packet_of(&FIRST)?.is_announcement());
    let turns = [
        (Met::Heard(RTS), Answer::Packet(cts(2, 1))),
        (Met::Heard(FIRST), Answer::Nothing),
        (Met::Heard(SECOND), Answer::Packet(cts(1, 3))),
        (Met::Heard(SECOND), Answer::Nothing),
        (Met::Heard(THIRD), Answer::CompletePacket(END_ACK)),
    ];
    receives(&rt, Receiver::new(2).ok_or("no receiver")?, &turns, &TEXT)
}

#[test]
fn a_receiver_asks_again_twice(rt: HostRuntime) -> Result<(), Fail> {
    let turns = [
        (Met::Heard(RTS), Answer::Packet(cts(3, 1))),
        (Met::Late, Answer::Packet(cts(3, 1))),
        (Met::Late, Answer::Packet(cts(3, 1))),
        (Met::Late, Answer::Packet(abort(3))),
    ];
    receives(&rt, Receiver::new(255).ok_or("no receiver")?, &turns, &[])?;
    let turns = [
        (Met::Heard(RTS), Answer::Packet(cts(3, 1))),
        (Met::Heard(SECOND), Answer::Nothing),
        (Met::Heard(THIRD), Answer::Packet(cts(3, 1))),
        (Met::Heard(SECOND), Answer::Nothing),
        (Met::Heard(THIRD), Answer::Packet(cts(3, 1))),
        (Met::Heard(SECOND), Answer::Nothing),
        (Met::Heard(THIRD), Answer::Packet(abort(5))),
    ];
    receives(&rt, Receiver::new(255).ok_or("no receiver")?, &turns, &[])
}

#[test]
fn a_listener_answers_nothing(rt: HostRuntime) -> Result<(), Fail> {
    let turns = [
        (Met::Heard(RTS), Answer::Nothing),
        (Met::Heard(FIRST), Answer::Nothing),
        (Met::Heard(THIRD), Answer::Nothing),
        (Met::Heard(SECOND), Answer::Nothing),
        (Met::Heard(THIRD), Answer::Complete),
    ];
    receives(&rt, Receiver::listener(), &turns, &TEXT)?;
    let turns = [
        (Met::Heard(BAM), Answer::Nothing),
        (Met::Heard(FIRST), Answer::Nothing),
        (Met::Heard(BAM), Answer::Nothing),
        (Met::Heard(SECOND), Answer::Closed),
        (Met::Heard(THIRD), Answer::Nothing),
    ];
    receives(&rt, Receiver::listener(), &turns, &[])
}
