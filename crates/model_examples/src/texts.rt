//! Texts that are read and written.
ghost use Rattle.model_examples.specs.{Documents.DocumentsAreWritten, Keys.KeysHold, Matches.FindingsAreMatched, NameTexts.NamesAreRead};
ghost use Rattle.model_examples.specs.Problems.{ProblemsAreSaid};

/// Thumbprints and the texts that challenges ask for (RFC 7638, 3.1; RFC 8555, 8.1, 8.4).
pub fn keys_hold()
    ensures { KeysHold }
{}

/// The document of each refusal, byte for byte (RFC 8555, 6.7).
pub fn problems_are_said()
    ensures { ProblemsAreSaid }
{}

/// Which texts are names, and of what (RFC 8555, 7.1.3, 7.1.4; UTS 46).
pub fn names_are_read()
    ensures { NamesAreRead }
{}

/// Which findings match, and which texts are nonces (RFC 8555, 6.5, 8.3, 8.4).
pub fn findings_are_matched()
    ensures { FindingsAreMatched }
{}

/// Keys and their canonical texts, contacts, and an authorization that failed (RFC 8555, 7.1; RFC 7638, 3).
pub fn documents_are_written()
    ensures { DocumentsAreWritten }
{}
