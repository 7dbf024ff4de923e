//! The handle of an agent, which a C program owns.

ghost use Rattle.std.specs.Prelude.{◌≡◌, None, Some, is_some};
ghost use Rattle.std.specs.Option.{option_map};

use crate::owned::Owned;
use sip_host::Host;
use std::alloc::Global;
use std::mem;

/// A handle: whether it holds an agent, and where. If all its bytes are 0, it holds none.
#[repr(C)]
pub struct Handle {
    held: bool,
    owned: Owned,
    ghost agrees: { held ≡ is_some owned.host },
}

impl Handle {
    /// Whether it holds an agent.
    pub(crate) fn is_held(&self) -> bool
        ensures { result ≡ is_some self.now.owned.host }
    {
        self.held
    }

    /// Puts an agent in, where there is none.
    pub(crate) fn put(&mut self, host: Box<Host>)
        requires { self.old.owned.host ≡ None }
        ensures { self.new.owned.host ≡ Some host.value }
    {
        let owned = Owned::of(host);
        let held = true;
        let Handle { held: _, owned } = mem::replace(self, Handle { held, owned });
        owned.end();
    }

    /// Takes its agent out, if it holds one.
    pub(crate) fn take(&mut self, alloc: Global) -> Option<Box<Host>>
        ensures taken { self.old.owned.host ≡ option_map (λ host. host.value) result }
        ensures left { self.new.owned.host ≡ None }
    {
        let owned = Owned::empty(alloc);
        let held = false;
        let Handle { held, owned } = mem::replace(self, Handle { held, owned });
        if held {
            return Some(owned.into_box());
        }
        owned.end();
        None
    }
}
