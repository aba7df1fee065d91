// Texts of TOML.

ghost use Rattle.toml_strings.specs.Texts.{TextsAreUtf8};

/// Each text of a value is UTF-8.
pub fn texts_are_utf8()
    ensures { TextsAreUtf8 }
{}
