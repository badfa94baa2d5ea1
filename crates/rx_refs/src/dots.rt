//! Paths without their dot segments (RFC 3986, section 5.2.4), written at the end of one buffer.
ghost use Rattle.std.specs.Prelude.{◌≡◌, [], ◌++◌, IfOk, OnOk, false, string_bytes};
ghost use Rattle.rx_terms.specs.Common.{chars, solidus};
ghost use Rattle.rx_refs.specs.Dots.{holds, without_dots, without_last_segment};
ghost use Rattle.rx_refs.specs.Resolve.{behind_base, through_last_slash};
ghost use Rattle.rx_refs.specs.Segments.{Takes, segment_pushed, cut_back, after_segment, after_last};
ghost use Rattle.rx_refs.specs.Views.{GainsText};

use crate::slices::{last_slash, split_once};
use rx_terms::NoMemory;
use std::marker::Model;

/// Adds the path without its dot segments at the end of the text.
pub fn push_path(text: String, path: &str) -> Result<String, NoMemory>
    ensures { IfOk result (λ whole. GainsText text whole (without_dots (chars path.now))) }
{
    let mut grown = GrownPath::behind(text);
    let last = grown.push_closed(path)?;
    grown.push_last(last)?;
    Ok(grown.into_text())
}

/// The same of the path that begins with the base's up to its last `/` (section 5.2.3).
pub fn push_merged_path(text: String, base: &str, path: &str) -> Result<String, NoMemory>
    ensures { IfOk result (λ whole. GainsText text whole (behind_base (chars base.now) (chars path.now))) }
{
    let mut grown = GrownPath::behind(text);
    let _left_out = grown.push_closed(base)?;
    let last = grown.push_closed(path)?;
    grown.push_last(last)?;
    Ok(grown.into_text())
}

/// A text whose end is a path. The path grows by whole segments, and `..` cuts it back.
#[derive(Drop)]
struct GrownPath {
    text: String,
    /// Where the path begins, in bytes.
    start: usize,
    /// Whether a `/` stands before the next segment.
    slash: bool,
}

impl Model for GrownPath {
    ghost use Rattle.std.specs.Prelude.{string_bytes, take, drop};
    ghost use Rattle.std.specs.Str.{chars, IsCharBoundary};
    ghost use Rattle.rx_refs.specs.Segments.{Grown};

    ghost Value = { Grown };

    ghost view = { λ g. record { front = chars (take g.start (string_bytes g.text)); path = chars (drop g.start (string_bytes g.text)); slash = g.slash } };

    ghost invariant = { λ g. IsCharBoundary (string_bytes g.text) g.start };
}

impl GrownPath {
    fn behind(text: String) -> GrownPath
        ensures { result ≡ record { front = chars (string_bytes text); path = []; slash = false } }
    {
        GrownPath {
            start: text.as_str().len(),
            text,
            slash: false,
        }
    }

    fn into_text(self) -> String
        ensures { chars (string_bytes result) ≡ self.front ++ self.path }
    {
        self.text
    }

    /// Takes every segment that a `/` follows, and gives what stands behind the last `/`.
    fn push_closed<'a>(&mut self, path: &'a str) -> Result<&'a str, NoMemory>
        ensures takes { OnOk result (Takes self.old self.new (through_last_slash (chars path.now))) }
        ensures rest { IfOk result (λ rest. chars path.now ≡ through_last_slash (chars path.now) ++ chars rest.now) }
        ensures last { IfOk result (λ rest. holds solidus (chars rest.now) ≡ false) }
    {
        let mut rest = path;
        while let Some((segment, behind)) = split_once(rest, '/') {
            self.push_segment(segment)?;
            rest = behind;
        }
        Ok(rest)
    }

    /// Takes a segment that a `/` follows.
    fn push_segment(&mut self, segment: &str) -> Result<(), NoMemory>
        ensures { OnOk result (self.new ≡ after_segment self.old (chars segment.now)) }
    {
        match segment {
            "." => {}
            ".." => self.cut_back(),
            _ => {
                self.push(segment)?;
                self.slash = true;
            }
        }
        Ok(())
    }

    /// Takes the last segment.
    fn push_last(&mut self, segment: &str) -> Result<(), NoMemory>
        ensures { OnOk result (self.new ≡ after_last self.old (chars segment.now)) }
    {
        match segment {
            "." => self.push(""),
            ".." => {
                self.cut_back();
                self.push("")
            }
            _ => self.push(segment),
        }
    }

    fn push(&mut self, segment: &str) -> Result<(), NoMemory>
        ensures { OnOk result (self.new ≡ segment_pushed self.old (chars segment.now)) }
    {
        if self.slash {
            self.push_text("/")?;
        }
        self.push_text(segment)
    }

    fn push_text(&mut self, text: &str) -> Result<(), NoMemory>
        ensures { OnOk result (self.new ≡ record self.old { path = self.old.path ++ chars text.now }) }
    {
        self.text.push_str(text)?;
        Ok(())
    }

    /// Takes the last segment back, with the `/` before it, for a `..` behind a `/`.
    fn cut_back(&mut self)
        ensures { self.new ≡ cut_back self.old }
    {
        if self.slash {
            self.cut_last_segment();
        }
    }

    fn cut_last_segment(&mut self)
        ensures { self.new ≡ record self.old { path = without_last_segment self.old.path } }
    {
        let at = last_slash(&self.text.as_str()[self.start..]);
        self.text.truncate(self.start + at);
    }
}
