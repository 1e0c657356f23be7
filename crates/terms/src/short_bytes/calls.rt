// Making, reading and extending short byte strings.
ghost use Rattle.std.specs.Prelude.{◌≡◌, ◌+◌, ◌≤◌, ◌↔◌, [], ◌++◌, length, IsOk, IfOk, OnOk, OnErr};
ghost use Rattle.terms.specs.Short.{held, Holds};

use crate::short_bytes::{NoRoom, ShortBytes};

impl<const N: usize> ShortBytes<N> {
    // No bytes.
    pub fn empty() -> ShortBytes<N>
        ensures { held result ≡ [] }
    {
        ShortBytes {
            bytes: [0; N],
            len: 0,
        }
    }

    // The bytes held.
    pub fn as_slice(&self) -> &[u8]
        ensures { result.now ≡ held self.now }
    {
        &self.bytes[..self.len]
    }

    // Those bytes, at most N.
    pub fn from_slice(text: &[u8]) -> Result<ShortBytes<N>, NoRoom>
        ensures ok { IfOk result (Holds text.now) }
        ensures room { IsOk result ↔ (length text.now ≤ N) }
    {
        let mut all = ShortBytes::empty();
        all.extend_from_slice(text)?;
        Ok(all)
    }

    // Adds the bytes at the end, or changes nothing where there is no room for them.
    pub fn extend_from_slice(&mut self, part: &[u8]) -> Result<(), NoRoom>
        ensures ok { OnOk result (held self.new ≡ held self.old ++ part.now) }
        ensures room { IsOk result ↔ (length (held self.old) + length part.now ≤ N) }
        ensures err { OnErr result (self.new ≡ self.old) }
    {
        if part.len() > N - self.len {
            return Err(NoRoom);
        }
        let end = self.len + part.len();
        let bytes = &mut self.bytes[..];
        bytes[self.len..end].copy_from_slice(part);
        self.len = end;
        Ok(())
    }
}
