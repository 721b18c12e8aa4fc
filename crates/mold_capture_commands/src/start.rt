//! Whether a file begins as a capture.

ghost use Rattle.std.specs.Prelude.{◌≡◌};
ghost use Rattle.mold_capture_commands.specs.Start.{begins_as_capture};

/// Returns whether the bytes begin as a capture: with a magic of classic pcap, or as pcapng. Four bytes decide.
#[tactic(auto, unfolding(crate::specs::Start::begins_as_capture))]
pub fn begins_as_capture(bytes: &[u8]) -> bool
    ensures { result ≡ begins_as_capture bytes.now }
{
    bytes.starts_with(&[0xa1, 0xb2, 0xc3, 0xd4])
        || (bytes.starts_with(&[0xd4, 0xc3, 0xb2, 0xa1])
            || (bytes.starts_with(&[0xa1, 0xb2, 0x3c, 0x4d])
                || (bytes.starts_with(&[0x4d, 0x3c, 0xb2, 0xa1])
                    || bytes.starts_with(&[0x0a, 0x0d, 0x0d, 0x0a]))))
}
