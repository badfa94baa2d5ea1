//! A tag as borrowed slices.
ghost use Rattle.std.specs.Prelude.{◌≡◌, ◌<◌, length, slice_get, None, Some};
ghost use Rattle.rx_grammar.specs.Common.{same, chars};
ghost use Rattle.rx_reader.specs.TagReader.{parts_of};
ghost use Rattle.rx_tags.specs.Seen.{IsValueOf, tag_seen};

use crate::tag_text::TagText;
use rx_reader::TagPhase;

/// A tag that was read to its `>`. Its name, its attributes' names and their values are slices of the buffer in which
/// they were decoded. No call takes memory.
#[derive(Clone, Copy)]
pub struct Tag<'a> {
    /// The byte offset of `<`.
    pub token: u64,
    /// The byte offset of `>`.
    pub at: u64,
    text: &'a TagText,
}

impl<'a> Tag<'a> {
    /// The tag that the buffer holds.
    pub(crate) fn of(text: &'a TagText, token: u64, at: u64) -> Tag<'a>
        ensures tag { tag_seen result ≡ parts_of text.now.state }
        ensures token { result.token ≡ token }
        ensures at { result.at ≡ at }
    {
        Tag { token, at, text }
    }

    /// The tag's name, in HTML in lower case.
    pub fn name(&self) -> &'a str
        ensures { chars result.now ≡ (tag_seen self.now).name }
    {
        let text = self.text;
        text.name()
    }

    /// Whether the tag is an end tag.
    pub fn closing(&self) -> bool
        ensures { result ≡ (tag_seen self.now).closing }
    {
        let text = self.text;
        text.phase() == TagPhase::Closed
    }

    /// Whether a `/` stands directly before the tag's `>`.
    pub fn slash(&self) -> bool
        ensures { result ≡ (tag_seen self.now).slash }
    {
        let text = self.text;
        text.phase() == TagPhase::Emptied
    }

    /// How many attributes the tag has.
    pub fn count(&self) -> usize
        ensures { result ≡ length (tag_seen self.now).attributes }
    {
        let text = self.text;
        text.count()
    }

    /// The name and the value of an attribute, by its place in the tag.
    pub fn attr_at(&self, i: usize) -> (&'a str, &'a str)
        requires { i < length (tag_seen self.now).attributes }
        ensures { slice_get (tag_seen self.now).attributes i ≡ Some (chars result.0.now, chars result.1.now) }
    {
        let text = self.text;
        text.attr_at(i)
    }

    /// The value of the first attribute of that name, or `None` exactly where the tag has none.
    pub fn attr(&self, name: &str) -> Option<&'a str>
        ensures { IsValueOf (tag_seen self.now).attributes (chars name.now) result }
    {
        for i in 0..self.count() {
            let (key, value) = self.attr_at(i);
            if is_same(key, name) {
                return Some(value);
            }
        }
        None
    }
}

fn is_same(a: &str, b: &str) -> bool
    ensures { result ≡ same (chars a.now) (chars b.now) }
{
    a == b
}
