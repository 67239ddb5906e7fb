//! What holds of the lines of every text.
ghost use Rattle.std.specs.Prelude.{◌≡◌, ℕ, Bool, List};
ghost use Rattle.bcast_io.specs.TextLines.{AreLines, TextLine, lines_of};

/// A text has exactly one list of lines, and it is the one that is found octet by octet: put together with their ends they are
/// the text, up to its limit; each goes to its first end, the last one maybe to the end of the text; one of more than 9,000
/// octets is too long, and the one that holds octet 67,108,865 of the text is the last. Of a prefix of a text the line that has
/// no end yet is none.
pub fn a_text_is_its_lines()
    ensures are { (at_end : Bool) (text : List ℕ) → AreLines at_end text (lines_of at_end text) }
    ensures only { (at_end : Bool) (text : List ℕ) (lines : List TextLine) → AreLines at_end text lines → lines ≡ lines_of at_end text }
{}
