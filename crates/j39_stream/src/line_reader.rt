//! What reads an input line after line.
use crate::{Fault, Sink, Verdict};
use j39_id::Cut;
use std::alloc::AllocError;

/// What reads the lines of an input, one after another, and keeps what is to be written of them until it is put.
pub trait LineReader {
    ghost use Rattle.std.specs.Prelude.{◌≡◌, ◌≤◌, ◌<◌, ◌^◌, ◌++◌, ℕ, Bool, true, List, IfOk, OnOk, OnErr, IfErr};
    ghost use Rattle.std.specs.Io.KnownBytes.{Appends};
    ghost use Rattle.j39_id.specs.Lines.{Line, yields};
    ghost use Rattle.j39_stream.specs.LineReading.{AreTextsOf, HasLines, IsSoFar};
    ghost use Rattle.j39_stream.specs.Streams.{AppendsPart, HasFailed};
    ghost use Rattle.j39_stream.specs.declared.verdict.Verdict.{Verdict as AVerdict};

    /// What is to be written next.
    ghost text: { Self → List ℕ };

    /// Whether it goes on to read, or stopped at a line.
    ghost goes: { Self → Bool };

    /// These lines of an input were read, and of what is to be written of them this much was written.
    ghost has_read: { Self → List Line → List ℕ → Type 0 };

    /// This is written of an input, with this verdict.
    ghost is_text: { Self → List ℕ → List ℕ → AVerdict → Type 0 };

    /// No more lines were counted than this.
    ghost within: { Self → ℕ → Type 0 };

    /// Whether it goes on to read. What stands behind the line at which it stopped makes no difference to the text.
    fn goes_on(&self) -> bool
        ensures { result ≡ goes self.now };

    /// Reads what a cutter yields: a line, a line that is too long, or nothing yet.
    fn read(&mut self, cut: Cut, line: &[u8]) -> Result<(), AllocError>
        requires room { (most : ℕ) × within self.old most × (most ≤ 2 ^ 62) }
        ensures lines { OnOk result ((before : List Line) (written : List ℕ) → has_read self.old before written
            → IsSoFar (has_read self.new) (is_text self.new) (goes self.new) (text self.new) (before
            ++ yields cut line.now) written) }
        ensures texts { OnOk result (AreTextsOf (is_text self.new) (is_text self.old)) }
        ensures count { OnOk result ((most more : ℕ) → within self.old most → most < more → within self.new more) };

    /// Adds what stands at the end of the text, and answers with the verdict: it is Done only where the reader goes on.
    fn close(&mut self) -> Result<Verdict, AllocError>
        requires begun { (yielded : List Line) × (written : List ℕ) × has_read self.old yielded written }
        ensures text { IfOk result (λ verdict. (input : List ℕ) (yielded : List Line) (written : List ℕ)
            → has_read self.old yielded written
            → HasLines (goes self.old) yielded input → is_text self.old input (written ++ text self.new) verdict) }
        ensures done { IfOk result (λ verdict. verdict ≡ Verdict.Done → goes self.old ≡ true) };

    /// Puts what is to be written.
    fn put<W: Sink>(&mut self, sink: &mut W) -> Result<(), Fault>
        ensures ok { OnOk result (Appends (W.state sink.old).taken (W.state sink.new).taken (text self.old)) }
        ensures lines { OnOk result ((yielded : List Line) (written : List ℕ) → has_read self.old yielded written
            → IsSoFar (has_read self.new) (is_text self.new) (goes self.new) (text self.new) yielded (written
            ++ text self.old)) }
        ensures texts { OnOk result (AreTextsOf (is_text self.new) (is_text self.old)) }
        ensures goes { OnOk result (goes self.new ≡ goes self.old) }
        ensures count { OnOk result ((most : ℕ) → within self.old most → within self.new most) }
        ensures cut { OnErr result (AppendsPart (W.state sink.old).taken (W.state sink.new).taken (text self.old)) }
        ensures whole { OnOk result ((W.state sink.new).failures ≡ (W.state sink.old).failures) }
        ensures device { IfErr result (λ fault. (fault ≡ Fault.Device)
            × HasFailed (W.state sink.old).failures (W.state sink.new).failures) };
}
