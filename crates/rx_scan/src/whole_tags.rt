//! Tags that stand whole, which are taken at once.
ghost use Rattle.std.specs.Prelude.{◌≡◌, ◌<◌, ◌≤◌, ◌+◌, ◌^◌, Some, length, slice_get};
ghost use Rattle.rx_terms.specs.Ascii.{less_than_sign};
ghost use Rattle.rx_scan.specs.WholeTags.{ReadsWholeTag};

use crate::fronts::{at_most, opens_tag};
use crate::marks::TokenState;
use crate::moves::has_markup;
use crate::readers::Reader;

impl Reader {
    /// Takes a tag that stands whole at the front, where no token is begun, and tells how many bytes it has; 0 where none stands
    /// there in its usual form within the limits, or there is no memory. Then nothing is changed.
    #[inline(always)]
    pub(crate) fn take_tag(&mut self, bytes: &[u8]) -> usize
        ensures fits { result ≤ length bytes.now }
        ensures none { result ≡ 0 → self.new ≡ self.old }
        ensures takes { 0 < result → ReadsWholeTag self.old bytes.now result self.new }
    {
        if self.pending.mark() != TokenState::Nothing {
            return 0;
        }
        if !matches!(bytes.first(), Some(b'<')) {
            return 0;
        }
        self.whole_tag(bytes)
    }

    // The same behind these looks at its first byte.
    #[inline(never)]
    fn whole_tag(&mut self, bytes: &[u8]) -> usize
        requires first { slice_get bytes.now 0 ≡ Some less_than_sign }
        requires between { self.old.pending.mark ≡ TokenState.Nothing }
        ensures fits { result ≤ length bytes.now }
        ensures none { result ≡ 0 → self.new ≡ self.old }
        ensures takes { 0 < result → ReadsWholeTag self.old bytes.now result self.new }
    {
        if !self.utf8.is_whole() || self.place.starts != self.place.at {
            return 0;
        }
        if !has_markup(self.setting.inside) {
            return 0;
        }
        let limit = self.whole_limit(bytes.len());
        if limit == 0 {
            return 0;
        }
        let behind = &bytes[1..limit];
        if !opens_tag(behind) {
            return 0;
        }
        let count = self.pending.take_whole(behind);
        if count == 0 {
            return 0;
        }
        self.place = self.place.begun(false).fed((count - 1) as u64);
        self.end_tag(false);
        count + 1
    }

    // How many bytes of a tag that begins here are past neither the page's limit nor the tag's.
    fn whole_limit(&self, length: usize) -> usize
        ensures fits { result ≤ length }
        ensures page { 0 < result → self.now.place.at + result ≤ self.now.setting.limits.page }
        ensures tag { result ≤ self.now.setting.limits.tag }
        ensures room { 0 < result → self.now.place.at + result < 2 ^ 64 }
    {
        let rest = self.setting.limits.page.saturating_sub(self.place.at);
        at_most(self.setting.limits.tag, at_most(rest, length))
    }
}
