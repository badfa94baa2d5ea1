//! Context files.
ghost use Rattle.rx_page.specs.Contexts.{ContextGives};

use rx_names::{Context, ContextError};
use std::alloc::Global;

/// The most bytes that a context file has.
pub const LARGEST_CONTEXT: usize = 65_536;

/// The context of a file of these bytes. One that is too long is none.
pub fn context_of(alloc: Global, bytes: &[u8]) -> Result<Context, ContextError>
    ensures { ContextGives bytes.now result }
{
    if bytes.len() > LARGEST_CONTEXT {
        return Err(ContextError::BadContext);
    }
    Context::of_json(alloc, bytes)
}
