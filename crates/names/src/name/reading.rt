ghost use Rattle.std.specs.Prelude.{◌≡◌, true, false, Decides, Some, MatchOption};
ghost use Rattle.names.specs.Naming.{is_name, is_name_byte, all_name_bytes};
ghost use Rattle.names.specs.Names.{text_of};

use super::Name;
use arrayvec::ArrayString;
use std::{fmt, str};

/// Whether a byte may stand in a name.
fn is_name_byte(b: u8) -> bool
    ensures { result ≡ is_name_byte b }
{
    matches!(b, b'a'..=b'z' | b'0'..=b'9')
}

/// Whether every byte may stand in a name.
fn all_name_bytes(text: &[u8]) -> bool
    ensures { result ≡ all_name_bytes text.now }
{
    text.iter().all(|b| is_name_byte(*b))
}

/// Whether a text is a name.
pub fn is_name(text: &[u8]) -> bool
    ensures { result ≡ is_name text.now }
{
    (1..=8).contains(&text.len()) && all_name_bytes(text)
}

impl Name {
    /// The name with this text, where the text is a name.
    #[tactic(auto, using(crate::proofs::Texts::name_utf8))]
    pub fn new(text: &[u8]) -> Option<Name>
        ensures { MatchOption result (is_name text.now ≡ false) (λ n. (is_name text.now ≡ true) × (text_of n ≡ text.now)) }
    {
        if !is_name(text) {
            return None;
        }
        let text = str::from_utf8(text).ok()?;
        let text = ArrayString::from(text).ok()?;
        Some(Name { text })
    }

    /// The text of the name.
    pub fn text(&self) -> &[u8]
        ensures { result.now ≡ text_of self.now }
    {
        self.text.as_bytes()
    }

    /// Whether the name has this text.
    // No `PartialEq` with a text: written by hand it would be no plainer.
    pub fn is(&self, text: &[u8]) -> bool
        ensures { Decides result (text_of self.now ≡ text.now) }
    {
        self.text() == text
    }
}

/// The text of the name.
impl fmt::Display for Name {
    ghost output = { λ name. Some (text_of name) };

    fn fmt<W: fmt::Write>(&self, f: &mut fmt::Formatter<W>) -> fmt::Result {
        f.write_str(self.text.as_str())
    }
}
