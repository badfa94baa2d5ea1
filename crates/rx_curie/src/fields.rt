//! Fields into which a tag is read after another tag.
ghost use Rattle.std.specs.Prelude.{◌≡◌, None};

/// Empties the field. Most fields are empty for most tags, and aren't written then.
#[inline(always)]
pub(crate) fn empty<T: Drop>(field: &mut Option<T>)
    ensures { field.new ≡ None }
{
    if field.is_some() {
        *field = None;
    }
}
