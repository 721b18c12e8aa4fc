//! Parts of a slice that may be shorter than what is asked for.

ghost use Rattle.std.specs.Prelude.{◌≡◌, take, drop};

/// Returns the bytes from offset `at` on. If there are none, the result is empty.
#[tactic(auto, using(std::proofs::lemmas::List::drop_min))]
pub(crate) fn rest_at(bytes: &[u8], at: usize) -> &[u8]
    ensures { result.now ≡ drop at bytes.now }
{
    &bytes[at.min(bytes.len())..]
}

/// Returns at most `size` bytes from offset `at` on: all that are there, if they are fewer.
#[tactic(auto, using(std::proofs::lemmas::List::take_min))]
pub(crate) fn part_at(bytes: &[u8], at: usize, size: usize) -> &[u8]
    ensures { result.now ≡ take size (drop at bytes.now) }
{
    let rest = rest_at(bytes, at);
    &rest[..size.min(rest.len())]
}
