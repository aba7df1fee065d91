// The forms of texts.

ghost use Rattle.std.specs.Prelude.{◌≡◌};
ghost use Rattle.std.specs.List.{list_all};
ghost use Rattle.config.specs.Forms.{has_form, is_name, is_name_byte};

use crate::key::Form;
use tcl_encodings::addr_of;

const NAME_LIMIT: usize = 64;

fn is_name_byte(byte: u8) -> bool
    ensures { result ≡ is_name_byte byte }
{
    matches!(byte, b'a'..=b'z' | b'A'..=b'Z' | b'0'..=b'9' | b'_' | b'-' | b'.' | b'/')
}

fn all_in_names(text: &[u8]) -> bool
    ensures { result ≡ list_all is_name_byte text.now }
{
    text.iter().all(|byte| is_name_byte(*byte))
}

fn is_name(text: &[u8]) -> bool
    ensures { result ≡ is_name text.now }
{
    !text.is_empty() && text.len() <= NAME_LIMIT && all_in_names(text)
}

pub(crate) fn has_form(form: Form, text: &[u8]) -> bool
    ensures { result ≡ has_form form text.now }
{
    match form {
        Form::Any => true,
        Form::Name => is_name(text),
        Form::Address => addr_of(text).is_some(),
    }
}
