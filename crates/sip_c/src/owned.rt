//! A boxed value behind a pointer, or no value.

ghost use Rattle.std.specs.Prelude.{◌≡◌, Option, IsSome, Some, None};
ghost use Rattle.sip_host.specs.declared.host.Host.{Host};
ghost use Rattle.sip_c.specs.Owned.{host_coded, owned_owns};

use sip_host::Host;
use std::alloc::Global;
use std::marker::Model;
use std::ptr;

/// The owner of a boxed host, or of none, in a form that C can hold. It can't be dropped, so that no
/// host is lost: `into_box` gives the box back, and `end` ends an owner that has none.
#[repr(C)]
pub struct Owned {
    at: *mut u8,
    alloc: Global,
    pub ghost host: { Option Host } by { host_coded },
}

impl Model for Owned {
    ghost also_owns = { λ owned. owned_owns owned.alloc owned.at owned.host };
}

impl Owned {
    /// An owner that has no host.
    pub fn empty(alloc: Global) -> Owned
        ensures { result.host ≡ None }
    {
        let at = ptr::null_mut();
        Owned { at, alloc }
    }

    /// The owner of this host.
    pub fn of(host: Box<Host>) -> Owned
        ensures { result.host ≡ Some host.value }
    {
        let (at, alloc) = Box::into_raw_with_allocator(host);
        Owned {
            at: at as *mut u8,
            alloc,
        }
    }

    /// The host that it owns.
    pub fn into_box(self) -> Box<Host>
        requires { IsSome self.host }
        ensures { self.host ≡ Some result.value }
    {
        let Owned { at, alloc } = self;
        unsafe { Box::from_raw(alloc, at as *mut Host) }
    }

    /// Ends an owner that has no host.
    pub fn end(self)
        requires { self.host ≡ None }
    {
        let Owned { at: _, alloc: _ } = self;
    }
}
