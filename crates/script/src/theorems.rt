//! What is proved of text, and of the rounds that are read. Each function's contract is one statement of `specs/Theorems.antt`,
//! so that the crate is not proved without it; what the function does is nothing.
ghost use Rattle.script.specs.Theorems.{TextHasItsWords, DigitsWriteTheBytes, ReadRoundsAreWithin};

/// The text that an entry with only numbers is printed as has the words of this entry.
pub fn text_has_its_words()
    ensures { TextHasItsWords }
{}

/// The digits that bytes are printed as write these bytes.
pub fn digits_write_the_bytes()
    ensures { DigitsWriteTheBytes }
{}

/// Each round that a reader gives out is within the limits of its cluster: it gives no jitter past the error and no drift past
/// the cluster's, and its messages are of bad nodes to good ones.
pub fn rounds_that_are_read_are_within()
    ensures { ReadRoundsAreWithin }
{}
