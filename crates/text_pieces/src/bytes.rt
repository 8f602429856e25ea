//! Bytes of names, and parts of a text.
ghost use Rattle.std.specs.Prelude.{◌≡◌, ◌==◌, not, drop, take, length};
ghost use Rattle.std.specs.List.{take_while, list_all, before_first, after_first};
ghost use Rattle.std.specs.Str.{bytes_eq};
ghost use Rattle.sloth_base.specs.ImageRange.{continues_word};
ghost use Rattle.text_pieces.specs.Bytes.{is_name, is_byte_of};

/// What follows the first `n` bytes.
pub fn after(text: &[u8], n: usize) -> &[u8]
    ensures { result.now ≡ drop n text.now }
{
    if n < text.len() {
        return &text[n..];
    }
    &text[text.len()..]
}

/// The first `n` bytes.
pub fn front(text: &[u8], n: usize) -> &[u8]
    ensures { result.now ≡ take n text.now }
{
    if n < text.len() {
        return &text[..n];
    }
    text
}

/// Whether two texts have the same bytes.
pub fn same(one: &[u8], other: &[u8]) -> bool
    ensures { result ≡ bytes_eq one.now other.now }
{
    one == other
}

/// How many bytes stand before the first `stop`, or all.
fn length_until(text: &[u8], stop: u8) -> usize
    ensures { result ≡ length (take_while (λ b. not (b == stop)) text.now) }
{
    text.iter().take_while(|b| **b != stop).count()
}

/// Whether this byte stands in the text.
#[tactic(auto, unfolding(crate::specs::Bytes::is_byte_of))]
pub fn has(text: &[u8], stop: u8) -> bool
    ensures { result ≡ is_byte_of stop text.now }
{
    text.iter().any(|b| *b == stop)
}

/// What stands before the first `stop`, or all.
pub fn before(text: &[u8], stop: u8) -> &[u8]
    ensures { result.now ≡ before_first (λ b. b == stop) text.now }
{
    front(text, length_until(text, stop))
}

/// What stands behind the first `stop`.
pub fn behind(text: &[u8], stop: u8) -> &[u8]
    ensures { result.now ≡ after_first (λ b. b == stop) text.now }
{
    let n = length_until(text, stop);
    if n < text.len() {
        return after(text, n + 1);
    }
    &text[text.len()..]
}

/// A letter, a digit or `_`.
pub fn continues_word(byte: u8) -> bool
    ensures { result ≡ continues_word byte }
{
    byte.is_ascii_alphanumeric() || byte == b'_'
}

fn continue_word(text: &[u8]) -> bool
    ensures { result ≡ list_all continues_word text.now }
{
    text.iter().all(|byte| continues_word(*byte))
}

/// A letter or `_`, then letters, digits and `_`.
#[tactic(auto, unfolding(crate::specs::Bytes::is_name))]
pub fn is_name(text: &[u8]) -> bool
    ensures { result ≡ is_name text.now }
{
    !text.is_empty() && (text[0].is_ascii_alphabetic() || text[0] == b'_') && continue_word(text)
}
