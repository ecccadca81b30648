//! What reports the lines of a log.
use crate::groups::Groups;
use crate::line_counts::LineCounts;
use j39_text::{TextBuffer, WriteResult};

/// What reports the lines of a log, one after another, by the groups of a plan.
pub trait LogReport: Drop {
    ghost use Rattle.std.specs.Prelude.{◌≡◌, ◌+◌, ◌^◌, ◌++◌, ◌∷◌, [], ℕ, List, length, OnOk};
    ghost use Rattle.j39_id.specs.Lines.{Line, Long, Short, lines};
    ghost use Rattle.j39_log.specs.LineCounting.{AreWithin, IsLineMore, one_more_bad};
    ghost use Rattle.j39_log.specs.ReportedLogs.{HasEnd};
    ghost use Rattle.j39_log.specs.declared.line_counts.LineCounts.{LineCounts as SomeCounts};
    ghost use Rattle.j39_network.specs.declared.plan.Plan.{Plan as APlan};

    /// By this plan these lines of a log lead to this report, with these counts, and this much is written of them.
    ghost has_reported: { Self → APlan → SomeCounts → List Line → List ℕ → Type 0 };

    /// By this plan this is written of a log.
    ghost is_log_text: { Self → APlan → List ℕ → List ℕ → Type 0 };

    /// Reads the line of this number, counts it, and writes what is reported of it.
    fn read_line(
        &mut self,
        groups: &Groups<'_>,
        number: u64,
        line: &[u8],
        counts: &mut LineCounts,
        text: &mut TextBuffer,
    ) -> WriteResult
        requires { AreWithin counts.old (2 ^ 62) }
        ensures reported { OnOk result ((before : List Line) (reports : List ℕ) → number ≡ length before + 1
            → has_reported self.old groups.now counts.old before reports
            → (piece : List ℕ)
            × has_reported self.new groups.now counts.new (before ++ Short line.now ∷ []) (reports ++ piece)
            × (text.new ≡ text.old ++ piece)) }
        ensures counted { OnOk result (IsLineMore counts.old counts.new) }
        ensures texts { OnOk result ((plan : APlan) (log written : List ℕ) → is_log_text self.new plan log written
            → is_log_text self.old plan log written) };

    /// Writes what stands at the end of the text of a log, behind what its lines report.
    fn write_end(
        &self,
        groups: &Groups<'_>,
        counts: &LineCounts,
        text: &mut TextBuffer,
    ) -> WriteResult
        ensures { OnOk result ((ls : List Line) (reports log : List ℕ)
            → has_reported self.now groups.now counts.now ls reports
            → lines log ≡ ls
            → (piece : List ℕ) × is_log_text self.now groups.now log (reports ++ piece)
            × (text.new ≡ text.old ++ piece)) };

    /// Of a line that is too long nothing is written: it is one more bad line.
    ghost long_line: { (report : Self) (plan : APlan) (counts : SomeCounts) (ls : List Line) (reports : List ℕ)
        → has_reported report plan counts ls reports
        → has_reported report plan (one_more_bad counts) (ls ++ Long ∷ []) reports };

    /// The text of a log with these lines begins with what is written of them.
    ghost ends: { (report : Self) (plan : APlan) (counts : SomeCounts) (ls : List Line) (reports : List ℕ)
        → has_reported report plan counts ls reports → HasEnd (is_log_text report plan) ls reports };
}
