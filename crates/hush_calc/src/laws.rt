//! What holds of the definitions for every word. The functions do nothing; their contracts are the laws.

ghost use Rattle.hush_calc.specs.Laws.{HexadecimalReadsBack, ExpressionsAreRead, ExpressionsAreWritten};

/// The text that `setexpr` writes of a value is read as that value.
pub fn hexadecimal_reads_back()
    ensures { HexadecimalReadsBack }
{}

/// The words of an expression, which is a term or an expression, a joint and a term, evaluate to its value.
pub fn expressions_are_read()
    ensures { ExpressionsAreRead }
{}

/// Words that have a value are those of an expression that evaluates to it.
pub fn expressions_are_written()
    ensures { ExpressionsAreWritten }
{}
