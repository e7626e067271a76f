//! Bytes round a mark.
ghost use Rattle.std.specs.Prelude.{◌≡◌, ◌==◌, position};
ghost use Rattle.std.specs.List.{before_first, after_first};

/// The place of the first `mark`.
fn place_of(bytes: &[u8], mark: u8) -> Option<usize>
    ensures { result ≡ position (λ c. c == mark) bytes.now }
{
    bytes.iter().position(|byte| *byte == mark)
}

/// What stands before the first `mark` and what stands after it: all bytes and none where there is no `mark`.
pub fn split_at_first(bytes: &[u8], mark: u8) -> (&[u8], &[u8])
    ensures before { result.0.now ≡ before_first (λ c. c == mark) bytes.now }
    ensures after { result.1.now ≡ after_first (λ c. c == mark) bytes.now }
{
    match place_of(bytes, mark) {
        Some(place) => (&bytes[..place], &bytes[place + 1..]),
        None => (bytes, &[]),
    }
}
