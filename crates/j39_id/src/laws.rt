//! Laws of frame lines, NAMEs and lines: facts about the definitions, each the contract of a function that does
//! nothing.
ghost use Rattle.hex.specs.Hex.{IsBytes};
ghost use Rattle.j39_id.specs.Lines.{YieldsLines, YieldsPieces, IsBehindPieces};
ghost use Rattle.j39_id.specs.Name.{NamesReadBack, NameBytesReadBack};
ghost use Rattle.j39_id.specs.FrameLine.{Spells, canon, SpellsAtMostOne, SpelledHasNoFault, HasAtMostOneFault};

use crate::Frame;

// The elements of a slice of bytes are bytes.
fn known_bytes(bytes: &[u8])
    ensures { IsBytes bytes.now }
{}

/// A line spells at most one frame, and has at most one fault and none if it spells a frame.
pub fn one_reading()
    ensures frame { SpellsAtMostOne }
    ensures apart { SpelledHasNoFault }
    ensures fault { HasAtMostOneFault }
{}

/// The canonical text of a frame spells it.
pub fn canonical_text_spells(frame: &Frame)
    ensures { Spells (canon frame.now) frame.now }
{
    known_bytes(frame.payload.as_slice());
    let _bits = frame.ident.to_bits();
}

/// The bytes of a NAME give the NAME, and the NAME of eight bytes gives the bytes.
pub fn names_and_bytes_are_inverse()
    ensures name { NamesReadBack }
    ensures bytes { NameBytesReadBack }
{}

/// What a new cutter answers to the bytes of a text, one after another, and to the end are the lines of the text, in
/// however many pieces the text came.
pub fn a_cutter_yields_the_lines()
    ensures lines { YieldsLines }
    ensures pieces { YieldsPieces }
    ensures behind { IsBehindPieces }
{}
