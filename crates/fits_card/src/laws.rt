//! Written cards are read back. Each law is the contract of a function that does nothing, and speaks of the definitions alone.

ghost use Rattle.fits_card.specs.Laws.{LogicalIsReadBack, IntegerIsReadBack, IntegerIsWhole, TextIsReadBack, DoubledQuotesAreRead};

/// The value of a written logical is that logical.
pub fn logical_is_read_back()
    ensures { LogicalIsReadBack }
{}

/// The value of a written integer is that integer, and as a whole number it is the integer too.
pub fn integer_is_read_back()
    ensures integer { IntegerIsReadBack }
    ensures whole { IntegerIsWhole }
{}

/// The value of a written text is that text without its trailing spaces.
pub fn text_is_read_back()
    ensures { TextIsReadBack }
{}

/// A string is read as the text of which it is made by doubling each quote.
pub fn doubled_quotes_are_read()
    ensures { DoubledQuotesAreRead }
{}
