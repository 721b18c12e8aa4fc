//! The room of a store as a number.

ghost use Rattle.std.specs.Prelude.{◌≡◌};
ghost use Rattle.mold_ffi.specs.Listener.Room.{room_of};

/// The room of a store, in bytes. If the number is 0, the store is not limited.
pub(crate) fn room_of(store: u64) -> Option<u64>
    ensures { result ≡ room_of store }
{
    if store == 0 { None } else { Some(store) }
}
