//! Cutting a byte stream into lines.
ghost use Rattle.std.specs.Prelude.{◌≡◌, ◌≤◌, ◌<◌, ◌≢◌, [], false, length, take, All, slice_index, IsTrue, IfSome};
ghost use Rattle.std.specs.Prelude.{unwrap_or};
ghost use Rattle.std.specs.Option.{option_copied};
ghost use Rattle.j39_id.specs.Lines.{is_line_feed, at_start, answer_to, behind, answer_to_end, cutter_line, yields};
ghost use Rattle.j39_id.specs.Lines.{yielded, behind_all};
ghost use Rattle.j39_id.specs.inside.Cutting.{pending_of, line_in, phase_after};

use crate::{Advance, Cut};
use arrayvec::ArrayVec;
use memchr::memchr;
use std::marker::Model;

/// The most bytes that a line may have, its line feed apart.
pub const LINE_LIMIT: usize = 8192;

const LINE_FEED: u8 = b'\n';

// What the bytes of a cutter are.
#[derive(Clone, Copy, PartialEq, Eq)]
pub(crate) enum CutterPhase {
    // Those of the line so far.
    Inside,
    // The first ones of a line that was reported as long.
    Beyond,
    // The line that just ended.
    Ended,
}

/// Cuts a byte stream into lines, byte by byte or piece by piece. It takes no memory: a line lies in it whole.
///
/// A line above 8,192 bytes is reported as soon as it is, and without its bytes.
#[derive(Drop)]
pub struct Cutter {
    bytes: ArrayVec<u8, LINE_LIMIT>,
    phase: CutterPhase,
}

impl Model for Cutter {
    ghost use Rattle.j39_id.specs.Lines.{CutterParts};
    ghost use Rattle.j39_id.specs.inside.Cutting.{pending_of, line_in};

    ghost Value = { CutterParts };

    ghost view = { λ c. record { pending = pending_of c.phase c.bytes.items; line = line_in c.phase c.bytes.items } };
}

// How many bytes stand before the first line feed of the piece, or in all of it.
fn bytes_to_feed(piece: &[u8]) -> usize
    ensures within { result ≤ length piece.now }
    ensures none { All (λ b. is_line_feed b ≡ false) (take result piece.now) }
    ensures feed { result < length piece.now → slice_index piece.now result ≡ 10 }
{
    memchr(LINE_FEED, piece).unwrap_or(piece.len())
}

// Where a cutter is within a line once it answered so.
fn phase_after(cut: Cut) -> CutterPhase
    ensures { result ≡ phase_after cut }
{
    match cut {
        Cut::Long => CutterPhase::Beyond,
        _ => CutterPhase::Inside,
    }
}

// Holds the bytes of a line, or so many of them that it is long.
fn hold(bytes: &mut ArrayVec<u8, LINE_LIMIT>, part: &[u8]) -> (Cut, usize)
    requires some { 0 < length part.now }
    requires none { All (λ b. is_line_feed b ≡ false) part.now }
    ensures within { result.1 ≤ length part.now }
    ensures some { 0 < result.1 }
    ensures yielded { yielded (pending_of CutterPhase.Inside bytes.old.items) (take result.1 part.now) ≡ yields result.0 [] }
    ensures pending { pending_of (phase_after result.0) bytes.new.items
        ≡ behind_all (pending_of CutterPhase.Inside bytes.old.items) (take result.1 part.now) }
    ensures line { line_in (phase_after result.0) bytes.new.items ≡ [] }
{
    let room = LINE_LIMIT - bytes.len();
    if part.len() <= room {
        let _ = bytes.try_extend_from_slice(part);
        return (Cut::More, part.len());
    }
    let _ = bytes.try_extend_from_slice(&part[..room]);
    (Cut::Long, room + 1)
}

impl Cutter {
    /// A cutter at the start of a line.
    pub fn new() -> Self
        ensures pending { result.pending ≡ at_start }
        ensures line { result.line ≡ [] }
    {
        Cutter {
            bytes: ArrayVec::new(),
            phase: CutterPhase::Inside,
        }
    }

    // Is at the start of a line.
    fn start_anew(&mut self)
        ensures pending { self.new.pending ≡ at_start }
        ensures line { self.new.line ≡ [] }
    {
        self.bytes.clear();
        self.phase = CutterPhase::Inside;
    }

    /// The answer to the next byte of the stream.
    pub fn feed(&mut self, byte: u8) -> Cut
        ensures answer { result ≡ answer_to self.old.pending byte }
        ensures pending { self.new.pending ≡ behind self.old.pending byte }
        ensures line { self.new.line ≡ cutter_line result self.old.pending }
    {
        match self.phase {
            CutterPhase::Inside => {}
            CutterPhase::Beyond if byte == LINE_FEED => {
                self.start_anew();
                return Cut::More;
            }
            CutterPhase::Beyond => return Cut::More,
            CutterPhase::Ended => {
                self.bytes.clear();
                self.phase = CutterPhase::Inside;
            }
        }
        if byte == LINE_FEED {
            self.phase = CutterPhase::Ended;
            return Cut::Line;
        }
        if self.bytes.try_push(byte).is_err() {
            self.phase = CutterPhase::Beyond;
            return Cut::Long;
        }
        Cut::More
    }

    // Whether it is at the start of a line.
    fn is_at_start(&self) -> bool
        ensures { IsTrue result → self.now.pending ≡ at_start }
    {
        match self.phase {
            CutterPhase::Inside => self.bytes.is_empty(),
            CutterPhase::Beyond => false,
            CutterPhase::Ended => true,
        }
    }

    // Goes on within a line: the answer to its bytes, or to so many of them that it is long.
    fn go_on(&mut self, part: &[u8]) -> (Cut, usize)
        requires some { 0 < length part.now }
        requires none { All (λ b. is_line_feed b ≡ false) part.now }
        ensures within { result.1 ≤ length part.now }
        ensures some { 0 < result.1 }
        ensures yielded { yielded self.old.pending (take result.1 part.now) ≡ yields result.0 [] }
        ensures pending { self.new.pending ≡ behind_all self.old.pending (take result.1 part.now) }
        ensures line { self.new.line ≡ [] }
    {
        match self.phase {
            CutterPhase::Inside => {}
            CutterPhase::Beyond => return (Cut::More, part.len()),
            CutterPhase::Ended => self.bytes.clear(),
        }
        let (cut, used) = hold(&mut self.bytes, part);
        self.phase = phase_after(cut);
        (cut, used)
    }

    /// Reads on in a piece of the stream as `feed` does, to the first answer that is not More: or it answers More
    /// behind a part of the piece, which is not empty unless the piece is. A line that lies whole in the piece is given
    /// as it lies there, without a copy. An empty piece changes nothing.
    #[inline(always)]
    pub fn advance<'p>(&mut self, piece: &'p [u8]) -> Advance<'p>
        ensures within { result.used ≤ length piece.now }
        ensures some { 0 < length piece.now → 0 < result.used }
        ensures yielded { yielded self.old.pending (take result.used piece.now)
            ≡ yields result.cut (unwrap_or (option_copied result.whole) self.new.line) }
        ensures pending { self.new.pending ≡ behind_all self.old.pending (take result.used piece.now) }
        ensures whole { IfSome result.whole (λ _. (result.cut ≡ Cut.Line) × (self.new.line ≡ [])) }
        ensures line { 0 < length piece.now → result.cut ≢ Cut.Line → self.new.line ≡ [] }
        ensures empty { length piece.now ≡ 0 → self.new ≡ self.old }
    {
        let length = bytes_to_feed(piece);
        if length < piece.len() && length <= LINE_LIMIT && self.is_at_start() {
            self.start_anew();
            return Advance {
                cut: Cut::Line,
                used: length + 1,
                whole: Some(&piece[..length]),
            };
        }
        let (cut, used) = match piece.first() {
            None => (Cut::More, 0),
            Some(byte) if length == 0 => (self.feed(*byte), 1),
            Some(_) => self.go_on(&piece[..length]),
        };
        Advance {
            cut,
            used,
            whole: None,
        }
    }

    /// The answer to the end of the stream. The cutter is at the start of a line then.
    pub fn end(&mut self) -> Cut
        ensures answer { result ≡ answer_to_end self.old.pending }
        ensures pending { self.new.pending ≡ at_start }
        ensures line { self.new.line ≡ cutter_line result self.old.pending }
    {
        if self.phase != CutterPhase::Inside || self.bytes.is_empty() {
            self.start_anew();
            return Cut::More;
        }
        self.phase = CutterPhase::Ended;
        Cut::Line
    }

    /// The line, where the last call that read a byte or the end answered Line and gave no line of the piece; else
    /// nothing.
    pub fn line(&self) -> &[u8]
        ensures { result.now ≡ self.now.line }
    {
        match self.phase {
            CutterPhase::Ended => self.bytes.as_slice(),
            _ => &[],
        }
    }
}
