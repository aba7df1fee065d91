// Quoted tokens.

ghost use Rattle.std.specs.Prelude.{◌≡◌, ◌^◌, ◌<◌, ◌≤◌, IfOk, IfSome, option_map, length};
ghost use Rattle.tmsh_read.specs.Quoted.{escape_after, high_after, low_after, plain_after};
ghost use Rattle.tmsh_read.specs.Quoted.{quote_after, unquoted, unquoted_view};

use px_bytes::M;
use std::alloc::Global;

/// Where a byte within quotes stands.
#[derive(Clone, Copy)]
pub(crate) enum Quote {
    Plain,
    /// Behind a backslash.
    Escape,
    /// Behind `\x`.
    High,
    /// Behind `\x` and a digit of this value.
    Low(u32),
}

/// What a byte within quotes does.
#[derive(Clone, Copy)]
pub(crate) enum Quoting {
    /// It is the closing quote.
    Ends,
    Goes(Quote),
    /// It stands for this byte, or completes it.
    Adds(u8),
    /// No escape has it here.
    Breaks,
}

/// A quoted token.
#[derive(Drop)]
pub(crate) struct Inside {
    pub value: Vec<u8>,
    /// Its bytes behind the opening quote, with the closing one.
    pub size: usize,
}

fn plain_after(byte: u8) -> Quoting
    ensures { result ≡ plain_after byte }
{
    match byte {
        b'"' => Quoting::Ends,
        b'\\' => Quoting::Goes(Quote::Escape),
        _ => Quoting::Adds(byte),
    }
}

fn escape_after(byte: u8) -> Quoting
    ensures { result ≡ escape_after byte }
{
    match byte {
        b'"' | b'\\' => Quoting::Adds(byte),
        b'x' => Quoting::Goes(Quote::High),
        _ => Quoting::Breaks,
    }
}

fn high_after(byte: u8) -> Quoting
    ensures { result ≡ high_after byte }
{
    match char::from(byte).to_digit(16) {
        Some(high) => Quoting::Goes(Quote::Low(high)),
        None => Quoting::Breaks,
    }
}

fn low_after(high: u32, byte: u8) -> Quoting
    ensures { result ≡ low_after high byte }
{
    match char::from(byte).to_digit(16) {
        Some(low) if high < 16 => Quoting::Adds((16 * high + low) as u8),
        _ => Quoting::Breaks,
    }
}

impl Quote {
    fn after(self, byte: u8) -> Quoting
        ensures { result ≡ quote_after self byte }
    {
        match self {
            Quote::Plain => plain_after(byte),
            Quote::Escape => escape_after(byte),
            Quote::High => high_after(byte),
            Quote::Low(high) => low_after(high, byte),
        }
    }
}

/// The token of these bytes behind an opening quote; none where it doesn't close, or has an escape
/// that there isn't.
pub(crate) fn unquoted(alloc: Global, bytes: &[u8]) -> M<Option<Inside>>
    ensures value { IfOk result (λ found. option_map unquoted_view found
        ≡ unquoted Quote.Plain bytes.now) }
    ensures within { IfOk result (λ found. IfSome found (λ it. it.size ≤ length bytes.now)) }
{
    let mut value = Vec::new(alloc);
    let mut quote = Quote::Plain;
    let mut size = 0;
    for byte in bytes {
        size += 1;
        match quote.after(*byte) {
            Quoting::Ends => return Ok(Some(Inside { value, size })),
            Quoting::Goes(next) => quote = next,
            Quoting::Adds(one) => {
                value.push(one)?;
                quote = Quote::Plain;
            }
            Quoting::Breaks => return Ok(None),
        }
    }
    Ok(None)
}
