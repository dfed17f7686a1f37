// A walk over bytes up to a mark.
ghost use Rattle.std.specs.Prelude.{◌≡◌, ◌≤◌, length};
ghost use Rattle.sheet.specs.Lines.{length_before};

// How many bytes stand before the first `mark`.
pub(crate) fn length_before(bytes: &[u8], mark: u8) -> usize
    ensures value { result ≡ length_before mark bytes.now }
    ensures within { result ≤ length bytes.now }
{
    bytes
        .iter()
        .position(|byte| *byte == mark)
        .unwrap_or(bytes.len())
}
