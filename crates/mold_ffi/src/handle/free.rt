//! The call that empties a handle.

ghost use Rattle.std.specs.Prelude.{◌≡◌, None};

use crate::handle::mold_handle::MoldHandle;
use std::alloc::Global;

/// Frees what the handle holds, if anything. The handle is then empty, and may be filled again.
#[unsafe(no_mangle)]
pub extern "C" fn mold_free(alloc: Global, held: &mut MoldHandle)
    ensures { held.new.handle.value ≡ None }
{
    *held = MoldHandle::empty(alloc);
}

// Compiles only for types whose values may move to another thread.
fn needs_send<T: Send>() {}

// A handle may be made on one thread and used on another, one call at a time.
fn handles_move() {
    needs_send::<MoldHandle>();
}
