//! Texts in a caller's buffer.

ghost use Rattle.std.specs.Prelude.{◌≡◌, length};
ghost use Rattle.gate_calls.specs.Buffers.{filled};

/// Writes as much of a text as fits, and returns the text's length.
pub(crate) fn copy_in(out: &mut [u8], text: &[u8]) -> usize
    ensures needed { result ≡ length text.now }
    ensures written { out.new ≡ filled text.now out.old }
{
    let count = out.len().min(text.len());
    out[..count].copy_from_slice(&text[..count]);
    text.len()
}
