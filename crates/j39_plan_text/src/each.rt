//! The lines of each of several values.
ghost use Rattle.std.specs.Prelude.{◌≡◌, ◌++◌, OnOk};
ghost use Rattle.j39_load.specs.LineLists.{lines_of_each};

use j39_text::{TextBuffer, WriteResult};

/// How the lines of a value are written, by its place among others.
pub trait WriteLines<T> {
    ghost use Rattle.std.specs.Prelude.{ℕ, List};

    ghost lines: { Self → ℕ → T → List ℕ };

    fn write(&self, text: &mut TextBuffer, place: usize, value: &T) -> WriteResult
        ensures { OnOk result (text.new ≡ text.old ++ lines self.now place value.now) };
}

/// Writes the lines of each value, in order.
pub fn write_each<T, W: WriteLines<T>>(
    text: &mut TextBuffer,
    writer: &W,
    values: &[T],
) -> WriteResult
    ensures { OnOk result (text.new ≡ text.old ++ lines_of_each (W.lines writer.now) 0 values.now) }
{
    for (place, value) in values.iter().enumerate() {
        writer.write(text, place, value)?;
    }
    Ok(())
}
