// Bytes of a file as text that is safe to print, whatever they are.
ghost use Rattle.std.specs.Prelude.{◌≡◌, [], codes};

use std::fmt;

/// How many bytes are shown at most.
const MOST: usize = 40;

/// One byte: a quote or a backslash after a backslash, other printable ASCII as it is, all else by two hex digits.
// `escape_ascii` writes a double quote, a tab and an end of line in other ways.
fn put_byte<W: fmt::Write>(byte: u8, f: &mut fmt::Formatter<W>) -> fmt::Result {
    match byte {
        b'\'' | b'\\' => write!(f, "\\{}", char::from(byte)),
        32..=126 => f.write_char(char::from(byte)),
        _ => write!(f, "\\x{byte:02x}"),
    }
}

/// Bytes of a file, and the quote that stands before and after them, if any.
#[derive(Clone, Copy)]
pub struct Excerpt<'a> {
    bytes: &'a [u8],
    quote: &'static str,
}

impl<'a> Excerpt<'a> {
    /// The bytes with no quotes.
    pub fn bare(bytes: &'a [u8]) -> Excerpt<'a>
        ensures bytes { result.bytes.now ≡ bytes.now }
        ensures quote { result.quote.now ≡ [] }
    {
        Excerpt { bytes, quote: "" }
    }

    /// The bytes between single quotes.
    pub fn quoted(bytes: &'a [u8]) -> Excerpt<'a>
        ensures bytes { result.bytes.now ≡ bytes.now }
        ensures quote { result.quote.now ≡ codes "'" }
    {
        Excerpt { bytes, quote: "'" }
    }
}

/// At most 40 of the bytes between the quotes, and two dots after them where there are more.
impl fmt::Display for Excerpt<'_> {
    fn fmt<W: fmt::Write>(&self, f: &mut fmt::Formatter<W>) -> fmt::Result {
        f.write_str(self.quote)?;
        for byte in self.bytes.iter().take(MOST) {
            put_byte(*byte, f)?;
        }
        f.write_str(self.quote)?;
        if self.bytes.len() > MOST {
            f.write_str("..")?;
        }
        Ok(())
    }
}
