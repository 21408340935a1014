//! Laws of the lines that programs print. Each function does nothing; its contract is the law.

ghost use Rattle.juniper_demo.specs.DemoLine.{OutcomesAreTheLine, TheLineIsAnswered, WordIsAnsweredByTheLine};
ghost use Rattle.juniper_demo.specs.ReadBack.{AnswersReadBack};

/// The text of an answer is that of one JSON value, by the grammar of RFC 8259, and the value says the data and the errors that were
/// answered: each message, place in the text, path and extension. Ints are of 32 bits, and other numbers of 64 (sections 7.1 and 7.2.2).
pub fn answers_read_back()
    ensures { AnswersReadBack }
{}

/// The demo's stored request: each outcome is written as its line, byte for byte, or memory is wanting; there is such an outcome; and to
/// the request as the program's one word the line is answered, with status 0, or that memory was wanting. The context is as it was.
pub fn demo_line()
    ensures outcomes { OutcomesAreTheLine }
    ensures exists { TheLineIsAnswered }
    ensures program { WordIsAnsweredByTheLine }
{}
