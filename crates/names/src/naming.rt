// Names made from text, checked, compared and spelled.
ghost use Rattle.std.specs.Prelude.{◌≡◌, ◌≤◌, ◌++◌, length, take, drop};
ghost use Rattle.names.specs.Names.{name_byte, blank, is_name, is_text, name_bytes, held, spelled};

use super::name::{NAME_BYTES, Name};

/// Whether a zone name may have this byte.
pub fn is_name_byte(byte: u8) -> bool
    ensures { result ≡ name_byte byte }
{
    byte.is_ascii_alphanumeric() || matches!(byte, b'/' | b'_' | b'+' | b'-')
}

// Whether they are name bytes only.
fn are_name_bytes(text: &[u8]) -> bool
    ensures { result ≡ name_bytes text.now }
{
    text.iter().all(|byte| is_name_byte(*byte))
}

// Whether they are zero bytes only.
fn are_blank(bytes: &[u8]) -> bool
    ensures { result ≡ blank bytes.now }
{
    bytes.iter().all(|byte| *byte == 0)
}

/// Whether the text is that of a zone name: 1 to 48 letters, digits, '/', '_', '+' and '-'.
pub fn is_name_text(text: &[u8]) -> bool
    ensures { result ≡ is_text text.now }
{
    1 <= text.len() && text.len() <= NAME_BYTES && are_name_bytes(text)
}

impl Name {
    /// The name with this text; 48 zero bytes, which are no valid name, where the text is no name's.
    // No Option: by the rules anything may stand in a name's bytes and the calls check it, so a word that is no name comes to refusal 1.
    pub fn from_text(text: &[u8]) -> Name
        ensures { result.bytes ≡ held text.now }
    {
        let mut bytes = [0; NAME_BYTES];
        if is_name_text(text) {
            bytes[..text.len()].copy_from_slice(text);
        }
        Name { bytes }
    }

    /// Whether this is a zone name.
    #[tactic(auto, using(crate::proofs::Spelling::spelled_short, crate::proofs::Spelling::valid_told, crate::proofs::Spelling::valid_not))]
    pub fn is_valid(&self) -> bool
        ensures { result ≡ is_name self.now.bytes }
    {
        let text = self.text();
        is_name_text(text) && are_blank(&self.bytes[text.len()..])
    }

    // How many bytes stand before the padding.
    fn text_len(&self) -> usize
        ensures within { result ≤ NAME_BYTES }
        ensures text { take result self.now.bytes ≡ spelled self.now.bytes }
    {
        self.bytes
            .iter()
            .position(|b| *b == 0)
            .unwrap_or(NAME_BYTES)
    }

    /// The bytes before the padding.
    pub fn text(&self) -> &[u8]
        ensures { result.now ≡ spelled self.now.bytes }
    {
        &self.bytes[..self.text_len()]
    }
}
