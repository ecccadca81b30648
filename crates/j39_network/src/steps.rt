//! The steps of a schedule.

/// A step of a bus. Units are named by their places from 0.
#[derive(Drop)]
pub enum Step {
    /// The unit is switched on and claims the address that it prefers.
    Up(usize),
    /// The unit is switched off. What was sent to it is gone, and what it reported of addresses is heard later; on a
    /// live bus all that it sent of messages is gone too.
    Down(usize),
    /// The second unit hears the oldest claim or request of the first that it has not heard yet.
    Give(usize, usize),
    /// The unit asks all others for their claims, and sends its own.
    Ask(usize),
    /// The sender of the flow at this place begins to send these bytes.
    Begin(usize, Vec<u8>),
    /// The sender of the flow at this place sends these bytes at once, in one frame, beside whatever message it sends
    /// or receives.
    Send(usize, Vec<u8>),
    /// The unit sends the next data packet of its message.
    Emit(usize),
    /// The second unit takes the oldest transport frame of the first that it has not taken yet.
    Take(usize, usize),
    /// That frame is lost.
    Lose(usize, usize),
    /// The unit, which waits for its receiver, hears nothing in time.
    LateSender(usize),
    /// The second unit, which receives a message of the first, hears nothing in time.
    LateReceiver(usize, usize),
    /// The unit's message has ended, and it may begin another one.
    Rest(usize),
}
