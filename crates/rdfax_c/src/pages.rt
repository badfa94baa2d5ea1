//! A page as C keeps it.
ghost use Rattle.std.specs.Prelude.{◌≡◌, Some, None, option_map, is_some};

use crate::handles::Handle;
use crate::loose::Loose;
use rx_session::Session;
use std::alloc::Global;
use std::mem;

/// A page as C keeps it: the pointer of a session, and whether there is one. C begins with all bytes zero, which is none, and
/// leaves both fields alone.
#[repr(C)]
pub struct Page {
    pub(crate) handle: Handle,
    pub(crate) opened: bool,
    pub(crate) ghost fits: { opened ≡ is_some handle.session },
}

impl Page {
    /// A page of which no session is open.
    pub(crate) fn none() -> Page
        ensures { result.handle.session ≡ None }
    {
        Page {
            handle: Handle::none(),
            opened: false,
        }
    }

    /// Takes the session, where one is open.
    pub(crate) fn take(&mut self, alloc: Global) -> Option<Box<Session>>
        ensures taken { option_map (λ session. session.value) result ≡ self.old.handle.session }
        ensures none { self.new.handle.session ≡ None }
    {
        let Page { handle, opened } = mem::replace(self, Page::none());
        if opened {
            return Some(handle.release(alloc).into_box());
        }
        handle.discard();
        None
    }

    /// Keeps a session, where none is open.
    pub(crate) fn put(&mut self, session: Box<Session>)
        requires { self.old.handle.session ≡ None }
        ensures { self.new.handle.session ≡ Some session.value }
    {
        let handle = Handle::hold(Loose::of(session));
        let page = Page {
            handle,
            opened: true,
        };
        let Page { handle, opened } = mem::replace(self, page);
        let _before = opened;
        handle.discard();
    }
}
