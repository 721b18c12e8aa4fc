//! The handle through which a program in C holds what the library made.

ghost use Rattle.std.specs.Prelude.{◌≡◌, Option, None, Some, is_some, true};
ghost use Rattle.std.specs.Coded.{coded_option};
ghost use Rattle.mold_ffi.specs.contracts.handle.held.Held.{the_row as held_row};
ghost use Rattle.mold_ffi.specs.declared.handle.held.Held.{Held};

pub(crate) mod borrow;
mod box_parts;
pub(crate) mod free;
pub(crate) mod held;
pub(crate) mod mold_handle;

use crate::handle::box_parts::BoxParts;
use crate::handle::held::Held;
use std::alloc::{AllocError, Global};
use std::marker::Model;
use std::ptr::null_mut;

/// What a handle holds, if anything: a box, as a pointer that may cross to C. Only `into_box` gives the box back.
#[repr(C)]
#[derive(Drop)]
pub struct Handle {
    at: *mut u8,
    alloc: Global,
    pub ghost value: { Option Held } by { coded_option held_row.coded },
}

impl Model for Handle {
    ghost use Rattle.mold_ffi.specs.Handle.Ownership.{handle_owns};

    ghost also_owns = { λ h. handle_owns h.alloc h.at h.value };
}

impl Handle {
    ghost use Rattle.std.specs.Borrow.{sem};
    ghost use Rattle.mold_ffi.specs.Handle.Lending.{LendsHeld};

    /// An empty handle.
    pub(crate) fn empty(alloc: Global) -> Handle
        ensures { result.value ≡ None }
    {
        Handle {
            at: null_mut(),
            alloc,
        }
    }

    // A handle of the box with these parts.
    fn of_parts(parts: BoxParts<Held, Global>) -> Handle
        ensures { result.value ≡ Some parts.value }
    {
        let BoxParts { pointer, alloc } = parts;
        Handle {
            at: pointer as *mut u8,
            alloc,
        }
    }

    // The pointer and the allocator of a handle that holds something.
    fn into_parts(self) -> BoxParts<Held, Global>
        requires { is_some self.value ≡ true }
        ensures { Some result.value ≡ self.value }
    {
        let Handle { at, alloc } = self;
        BoxParts {
            pointer: at as *mut Held,
            alloc,
        }
    }

    /// Borrows what the handle holds, to change it in place.
    pub(crate) fn lend(&mut self) -> &mut Held
        requires { is_some self.old.value ≡ true }
        ensures* writes_back { sem 𝓛 (LendsHeld self.entry result) }
        ensures value { Some result.now ≡ self.old.value }
    {
        unsafe { &mut *(self.at as *mut Held) }
    }

    /// A handle of what the box holds.
    pub(crate) fn of(boxed: Box<Held>) -> Handle
        ensures { result.value ≡ Some boxed.value }
    {
        Handle::of_parts(BoxParts::of(boxed))
    }

    /// Returns what the handle holds, as a box.
    pub(crate) fn into_box(self) -> Box<Held>
        requires { is_some self.value ≡ true }
        ensures { Some result.value ≡ self.value }
    {
        self.into_parts().into_box()
    }
}

unsafe impl Send for Handle {}
