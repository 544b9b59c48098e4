//! Bytes that may be no text, as a line that is read.

ghost use Rattle.std.specs.Prelude.{◌≡◌, ◌==◌, ◌++◌, ◌∷◌, ◌↔◌, Contains, IfSome, IsSome, position};
ghost use Rattle.std.specs.List.{after_first, before_first};

// The index of the first such byte.
fn find(bytes: &[u8], byte: u8) -> Option<usize>
    ensures { result ≡ position (λ b. b == byte) bytes.now }
{
    bytes.iter().position(|b| *b == byte)
}

/// The bytes before the first such byte and the bytes after it, or `None` if there is no such byte.
///
/// ```rust
/// let parts = split_at_byte(b"EUR=1=2", b'=');
/// assert!(rt; parts == Some((b"EUR".as_slice(), b"1=2".as_slice())));
/// assert!(rt; split_at_byte(b"EUR", b'=').is_none());
/// ```
#[tactic(auto, using(crate::proofs::Parts::Found::split_bytes))]
pub fn split_at_byte(bytes: &[u8], byte: u8) -> Option<(&[u8], &[u8])>
    ensures found { IsSome result ↔ Contains bytes.now byte }
    ensures whole { IfSome result (λ parts. bytes.now ≡ parts.0.now ++ byte ∷ parts.1.now) }
    ensures absent { IfSome result (λ parts. ¬ Contains parts.0.now byte) }
    ensures before { IfSome result (λ parts. parts.0.now ≡ before_first (λ b. b == byte) bytes.now) }
    ensures after { IfSome result (λ parts. parts.1.now ≡ after_first (λ b. b == byte) bytes.now) }
{
    match find(bytes, byte) {
        None => None,
        Some(at) => Some((&bytes[..at], &bytes[at + 1..])),
    }
}
