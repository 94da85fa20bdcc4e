// The grammar of sequence text: its definitions, and the laws of reading and writing.
#![tactic(auto)]

ghost use Rattle.grammar.specs.Laws.{ReadIsWritten, ReadIsValid, WrittenIsRead, EveryTextFits, OneSequenceToAText, ReadOrRefused, RefusedIsNoSequence, FaultsLieInTheText};

pub mod in_memory;
pub mod stage;

// What was read is what would be written, byte for byte, and the rest is the rest.
pub fn read_is_written()
    ensures { ReadIsWritten }
{}

// What is read breaks no limit.
pub fn read_is_valid()
    ensures { ReadIsValid }
{}

// Every sequence is read back from its text, whatever stands behind it.
pub fn written_is_read()
    ensures { WrittenIsRead }
{}

// No sequence's text is too long.
pub fn every_text_fits()
    ensures { EveryTextFits }
{}

// A text begins with the text of at most one sequence.
pub fn one_sequence_to_a_text()
    ensures { OneSequenceToAText }
{}

// A text is read or refused, and never both.
pub fn read_or_refused()
    ensures { ReadOrRefused }
{}

// A refused text that is not too long does not begin with the text of any sequence.
pub fn refused_is_no_sequence()
    ensures { RefusedIsNoSequence }
{}

// A fault lies in the text, but for a text that is too long.
pub fn faults_lie_in_the_text()
    ensures { FaultsLieInTheText }
{}
