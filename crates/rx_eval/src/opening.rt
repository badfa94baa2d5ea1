//! The opening of an element on the stack.
ghost use Rattle.std.specs.Prelude.{◌≡◌, ◌<◌, ◌^◌, ◌+◌};
ghost use Rattle.rx_eval.specs.Contexts.{context_seen};
ghost use Rattle.rx_eval.specs.Opening.{around_in, drawn_after};

use crate::blanks::is_blank;
use crate::contexts::EvaluationContext;
use crate::frames::Frame;

/// The context in which a child of the innermost open element stands.
pub(crate) fn around<'a>(page: &'a EvaluationContext, frames: &'a [Frame]) -> &'a EvaluationContext
    ensures { result.now ≡ around_in page.now frames.now }
{
    match frames {
        [.., frame] => &frame.context,
        [] => page,
    }
}

/// The number after that of a new node, if the context has it.
pub(crate) fn next_number(context: &EvaluationContext, fresh: u64) -> u64
    requires { fresh + 1 < 2 ^ 64 }
    ensures { result ≡ drawn_after (context_seen context.now) fresh }
{
    if is_blank(&context.subject, fresh) || is_blank(&context.object, fresh) {
        return fresh + 1;
    }
    fresh
}
