// Making and reading names.
ghost use Rattle.std.specs.Prelude.{◌≡◌};
ghost use Rattle.terms.specs.Names.{all_visible, legal_name};
ghost use Rattle.terms.specs.Named.{name_text, Named};

use crate::name::Name;
use crate::refusal::Refusal;
use crate::short_bytes::ShortBytes;

// Whether each byte shows as a character.
fn all_visible(text: &[u8]) -> bool
    ensures { result ≡ all_visible text.now }
{
    text.iter().all(|b| *b >= 33 && *b <= 126)
}

// Whether the bytes may be the name of an item.
pub fn is_legal_name(text: &[u8]) -> bool
    ensures { result ≡ legal_name text.now }
{
    !text.is_empty() && text.len() <= 32 && all_visible(text)
}

impl Name {
    pub fn new(text: &[u8]) -> Result<Name, Refusal>
        ensures { Named text.now result }
    {
        if !is_legal_name(text) {
            return Err(Refusal::IllegalName);
        }
        let text = ShortBytes::from_slice(text).map_err(|_| Refusal::IllegalName)?;
        Ok(Name { text })
    }

    // The bytes of the name.
    pub fn text(&self) -> &[u8]
        ensures { result.now ≡ name_text self.now }
    {
        self.text.as_slice()
    }
}
