//! The laws of the texts of frames, of quotients and of quotations.
ghost use Rattle.j39_text.specs.FrameText.{LineHasOneText};
ghost use Rattle.j39_text.specs.Decimals.{QuotientsAreExact, UndividedStaysWhole};
ghost use Rattle.j39_text.specs.Quotations.{QuotationsYieldTheirBytes};

/// For a line the definition allows one text, with one verdict.
pub fn a_line_has_one_text()
    ensures { LineHasOneText }
{}

/// What the text of a quotient shows is the quotient, with nothing left behind its last decimal.
pub fn quotients_are_exact()
    ensures { QuotientsAreExact }
{}

/// Divided by 1 a number is shown as it is.
pub fn undivided_numbers_stay_whole()
    ensures { UndividedStaysWhole }
{}

/// Between its marks a quotation has visible characters and spaces, and no mark, and no two lists of bytes have the
/// same one.
pub fn quotations_yield_their_bytes()
    ensures { QuotationsYieldTheirBytes }
{}
