//! The line of a diagnostic trouble code.
ghost use Rattle.std.specs.Prelude.{◌≡◌, [], ◌∷◌, ◌++◌, codes, OnOk};
ghost use Rattle.j39_log.specs.LogReports.{code_text, count_text, failure_mode, parameter_text, raw_code_text};
ghost use Rattle.j39_log.specs.LogReports.{suspect_parameter};

use j39_signal::Signal;
use j39_text::{TextBuffer, WriteResult};

pub(crate) fn suspect_parameter(code: u64) -> u64
    ensures { result ≡ suspect_parameter code }
{
    code % 0x1_0000 + 0x1_0000 * (code / 0x20_0000 % 8)
}

fn failure_mode(code: u64) -> u64
    ensures { result ≡ failure_mode code }
{
    code / 0x1_0000 % 32
}

#[tactic(auto, unfolding(crate::specs::LogReports::count_text))]
fn write_count(text: &mut TextBuffer, code: u64) -> WriteResult
    ensures { OnOk result (text.new ≡ text.old ++ count_text code) }
{
    text.field(" count ", code / 0x100_0000 % 128)
}

#[tactic(auto, unfolding(crate::specs::LogReports::parameter_text))]
fn write_parameter(text: &mut TextBuffer, code: u64) -> WriteResult
    ensures { OnOk result (text.new ≡ text.old ++ parameter_text code) }
{
    text.field(" dtc spn ", suspect_parameter(code))?;
    text.field(" fmi ", failure_mode(code))?;
    write_count(text, code)
}

#[tactic(auto, unfolding(crate::specs::LogReports::raw_code_text))]
fn write_raw_code(text: &mut TextBuffer, code: u64) -> WriteResult
    ensures { OnOk result (text.new ≡ text.old ++ raw_code_text code) }
{
    text.field(" dtc raw ", code)?;
    write_count(text, code)
}

/// Writes what a trouble code says.
#[tactic(auto, unfolding(crate::specs::LogReports::code_text))]
pub(crate) fn write_code(text: &mut TextBuffer, code: u64) -> WriteResult
    ensures { OnOk result (text.new ≡ text.old ++ code_text code) }
{
    if code == 0 {
        text.word(" none")
    } else if code / 0x8000_0000 % 2 == 0 {
        write_parameter(text, code)
    } else {
        write_raw_code(text, code)
    }
}

/// Writes what a trouble code says, behind the label of its signal. Few signals are codes: the loop over signals is
/// faster without it.
#[inline(never)]
pub(crate) fn write_code_line(text: &mut TextBuffer, signal: &Signal, code: u64) -> WriteResult
    ensures { OnOk result (text.new ≡ text.old
        ++ (codes "  " ++ (signal.now.label.bytes ++ (code_text code ++ 10 ∷ [])))) }
{
    text.word("  ")?;
    text.word(signal.label().as_str())?;
    write_code(text, code)?;
    text.end_line()
}
