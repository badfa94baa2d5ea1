//! How the setting changes behind a token.
ghost use Rattle.std.specs.Prelude.{◌≡◌};
ghost use Rattle.rx_scan.specs.Entries as entries;

use crate::places::Setting;
use rx_grammar::Content;

// These write the fields that change and leave the others where they are, since a whole setting is large.
impl Setting {
    /// Behind a token no line feed is dropped.
    pub(crate) fn drop_none(&mut self)
        ensures { self.new ≡ entries.undropped self.old }
    {
        self.drops = false;
    }

    /// Behind a document type there may be no other.
    pub(crate) fn pass_doctype(&mut self)
        ensures { self.new ≡ entries.after_doctype self.old }
    {
        self.leads = false;
        self.drops = false;
    }

    /// Behind a start tag there may be no document type.
    pub(crate) fn pass_tag(&mut self, closing: bool)
        ensures { self.new ≡ entries.after_tag self.old closing }
    {
        self.leads = self.leads && closing;
        self.drops = false;
    }
}

pub(crate) fn is_dropped(setting: Setting, c: char) -> bool
    ensures { result ≡ entries.is_dropped setting c }
{
    setting.drops && c == '\n'
}

pub(crate) fn is_bracket(setting: Setting, c: char) -> bool
    ensures { result ≡ entries.is_bracket setting c }
{
    setting.inside == Content::Strict && c == ']'
}
