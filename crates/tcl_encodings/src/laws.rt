// What decoding is of encoding.

ghost use Rattle.tcl_encodings.specs.Laws.{DecodesEncodings, DecodesNothingElse};

/// Base64 of bytes decodes to those bytes.
pub fn decodes_encodings()
    ensures { DecodesEncodings }
{}

/// A text that decodes to some bytes is the base64 of those bytes.
pub fn decodes_nothing_else()
    ensures { DecodesNothingElse }
{}
