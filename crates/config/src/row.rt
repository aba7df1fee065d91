// The rows of data groups.

ghost use Rattle.std.specs.Prelude.{◌≡◌, option_map};
ghost use Rattle.toml.specs.Data.{as_str};
ghost use Rattle.toml.specs.View.{items_view, view};
ghost use Rattle.config.specs.GroupView.{row_view};
ghost use Rattle.config.specs.Groups.{row_in, row_of, row_with};
ghost use Rattle.std.specs.Option.{option_copied};

use toml::Value;

/// A key with its value, which is empty where there is none.
#[derive(Clone, Copy)]
pub(crate) struct RowTexts<'a> {
    pub key: &'a [u8],
    pub value: &'a [u8],
}

fn row_with<'a>(key: Option<&'a str>, value: Option<&'a str>) -> Option<RowTexts<'a>>
    ensures { option_map row_view result
        ≡ row_with (option_copied key.entry) (option_copied value.entry) }
{
    match (key, value) {
        (Some(key), Some(value)) => Some(RowTexts {
            key: key.as_bytes(),
            value: value.as_bytes(),
        }),
        _ => None,
    }
}

fn row_in(items: &[Value]) -> Option<RowTexts<'_>>
    ensures { option_map row_view result ≡ row_in (items_view items.now) }
{
    match items {
        [] => None,
        [key] => row_with(key.as_str(), Some("")),
        [key, value] => row_with(key.as_str(), value.as_str()),
        [_, _, _, ..] => None,
    }
}

/// The key and the value that an array of one or two texts is.
pub(crate) fn row_of(value: &Value) -> Option<RowTexts<'_>>
    ensures { option_map row_view result ≡ row_of (view value.now) }
{
    match value.as_array() {
        Some(items) => row_in(items.as_slice()),
        None => None,
    }
}
