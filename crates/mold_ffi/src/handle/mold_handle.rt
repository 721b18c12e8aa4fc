//! The handle as a program in C declares it.

ghost use Rattle.std.specs.Prelude.{◌≡◌, ◌⊎◌, None, Some, is_some};
ghost use Rattle.mold_ffi.specs.declared.code.TheConstants as codes;

use crate::code::{DONE, MEMORY};
use crate::handle::Handle;
use crate::handle::held::Held;
use std::alloc::Global;

/// A handle as a program in C declares it: `{ NULL, false }` is empty. The program that declares it calls `mold_free`
/// at the end.
#[repr(C)]
pub struct MoldHandle {
    /// What it holds.
    pub(crate) handle: Handle,
    /// Whether it holds something.
    pub(crate) live: bool,
    ghost tied: { is_some handle.value ≡ live },
}

impl MoldHandle {
    /// An empty handle.
    pub(crate) fn empty(alloc: Global) -> MoldHandle
        ensures { result.handle.value ≡ None }
    {
        MoldHandle {
            handle: Handle::empty(alloc),
            live: false,
        }
    }

    /// A handle of what the box holds.
    pub(crate) fn of(boxed: Box<Held>) -> MoldHandle
        ensures { result.handle.value ≡ Some boxed.value }
    {
        MoldHandle {
            handle: Handle::of(boxed),
            live: true,
        }
    }

    /// Moves a value into the handle and returns `DONE`. If an allocation fails, the code is `MEMORY`, the value is
    /// dropped, and the handle is unchanged.
    pub(crate) fn hold(&mut self, alloc: Global, held: Held) -> u32
        ensures { ((result ≡ codes.DONE) × (self.new.handle.value ≡ Some held))
            ⊎ ((result ≡ codes.MEMORY) × (self.new.handle.value ≡ self.old.handle.value)) }
    {
        match Box::new(alloc, held) {
            Ok(boxed) => {
                *self = MoldHandle::of(boxed);
                DONE
            }
            Err(_) => MEMORY,
        }
    }
}

impl Drop for MoldHandle {
    fn drop(self) {
        let MoldHandle { handle, live } = self;
        if live {
            drop(handle.into_box());
        }
    }
}
