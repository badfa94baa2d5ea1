//! A pointer that C can keep: null, or a session's.
ghost use Rattle.std.specs.Prelude.{◌≡◌, Option, Some, None, is_some, true};
ghost use Rattle.rx_session.specs.declared.sessions.State.{State};

use crate::loose::Loose;
use rx_session::Session;
use std::alloc::Global;
use std::marker::Model;
use std::ptr;

/// A pointer that C can keep: null, or that of a session, which it owns. It can't be dropped, so that no session is lost: it
/// is held again, released or discarded.
#[repr(C)]
pub struct Handle {
    at: *mut u8,
    ghost session: { Option State },
}

impl Model for Handle {
    ghost use Rattle.rdfax_c.specs.Held.{held};
    ghost use Rattle.std.specs.Prelude.{Option};
    ghost use Rattle.rx_session.specs.declared.sessions.State.{State};

    ghost also_owns = { λ h. held h.at h.session };
}

impl Handle {
    /// Nothing.
    pub(crate) fn none() -> Handle
        ensures { result.session ≡ None }
    {
        Handle {
            at: ptr::null_mut(),
        }
    }

    /// Lets nothing go.
    pub(crate) fn discard(self)
        requires { self.session ≡ None }
    {
        let Handle { at } = self;
        let _at = at;
    }

    /// The pointer of a session.
    pub(crate) fn hold(loose: Loose<Session, Global>) -> Handle
        ensures { result.session ≡ Some loose.value }
    {
        let Loose { at, alloc } = loose;
        let _alloc = alloc;
        Handle { at: at as *mut u8 }
    }

    /// The session of the pointer.
    pub(crate) fn release(self, alloc: Global) -> Loose<Session, Global>
        requires { is_some self.session ≡ true }
        ensures { Some result.value ≡ self.session }
    {
        let Handle { at } = self;
        Loose {
            at: at as *mut Session,
            alloc,
        }
    }
}
