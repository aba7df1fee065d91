// The forms of the command `string`.

ghost use Rattle.std.specs.Prelude.{◌≡◌};
ghost use Rattle.tcl_strings.specs.Form.{form_named};

/// A form of the command `string`, by its second word.
#[derive(Clone, Copy)]
pub(crate) enum Form {
    Length,
    Index,
    Range,
    ToLower,
    ToUpper,
    Trim,
    TrimLeft,
    TrimRight,
    First,
    Last,
    Match,
    Equal,
    Compare,
    Repeat,
    Map,
}

/// The form of this name.
pub(crate) fn form_named(name: &[u8]) -> Option<Form>
    ensures { result ≡ form_named name.now }
{
    match name {
        b"length" => Some(Form::Length),
        b"index" => Some(Form::Index),
        b"range" => Some(Form::Range),
        b"tolower" => Some(Form::ToLower),
        b"toupper" => Some(Form::ToUpper),
        b"trim" => Some(Form::Trim),
        b"trimleft" => Some(Form::TrimLeft),
        b"trimright" => Some(Form::TrimRight),
        b"first" => Some(Form::First),
        b"last" => Some(Form::Last),
        b"match" => Some(Form::Match),
        b"equal" => Some(Form::Equal),
        b"compare" => Some(Form::Compare),
        b"repeat" => Some(Form::Repeat),
        b"map" => Some(Form::Map),
        _ => None,
    }
}
