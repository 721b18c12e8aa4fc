//! The eight bytes that identify a journal's file and its version.

ghost use Rattle.std.specs.Prelude.{◌≡◌};
ghost use Rattle.mold_session.specs.File.{magic_1, magic_2};
ghost use Rattle.mold_session.specs.Records.{magic_3};

/// The length of the magic bytes at the start of a file.
pub const MAGIC_LENGTH: usize = 8;

/// The magic bytes of version 1.
#[tactic(auto, unfolding(crate::specs::File::magic_1))]
pub fn first_magic() -> [u8; MAGIC_LENGTH]
    ensures { result ≡ magic_1 }
{
    *b"MOLDJNL1"
}

/// The magic bytes of version 2.
#[tactic(auto, unfolding(crate::specs::File::magic_2))]
pub fn second_magic() -> [u8; MAGIC_LENGTH]
    ensures { result ≡ magic_2 }
{
    *b"MOLDJNL2"
}

/// The magic bytes of version 3.
#[tactic(auto, unfolding(crate::specs::Records::magic_3))]
pub fn third_magic() -> [u8; MAGIC_LENGTH]
    ensures { result ≡ magic_3 }
{
    *b"MOLDJNL3"
}
