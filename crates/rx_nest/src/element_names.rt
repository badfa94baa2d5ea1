//! What the grammar says of the names of elements.
ghost use Rattle.std.specs.Prelude.{◌≡◌, ◌==◌, true, option_map, codes, [], ◌∷◌};
ghost use Rattle.rx_grammar.specs.Common.{list_any, hyphen, chars, same, is_among};
ghost use Rattle.rx_grammar.specs.Names as the_names;
ghost use Rattle.rx_grammar.specs.Contents as contents;
ghost use Rattle.rx_grammar.specs.Omission as omission;
ghost use Rattle.rx_nest.specs.Ordinary.{IsPlain, IsOrdinary};
ghost use Rattle.rx_nest.specs.Rows.{row_seen};

use crate::places::Place;
use crate::tables;
use crate::tables::OmittedEnd;

/// Whether two names are one.
pub(crate) fn is_same(a: &str, b: &str) -> bool
    ensures { result ≡ same (chars a.now) (chars b.now) }
{
    a == b
}

/// Whether an element of this name has no content (HTML, 13.1.2).
pub(crate) fn is_void(name: &str) -> bool
    ensures { result ≡ contents.is_void (chars name.now) }
{
    tables::is_void(name)
}

/// Whether the name surely stands in none of the tables. It is told in one comparison for all of them.
pub(crate) fn is_ordinary(name: &str) -> bool
    ensures { result ≡ true → IsOrdinary (chars name.now) }
{
    tables::is_ordinary(name)
}

/// Whether the name surely stands in none of the tables but that of omitted end tags.
pub(crate) fn is_omissible(name: &str) -> bool
    ensures { result ≡ true → IsPlain (chars name.now) }
{
    tables::is_omissible(name)
}

/// The row of the name, where its end tag may be omitted (HTML, 13.1.2.4).
pub(crate) fn row_of(name: &str) -> Option<OmittedEnd>
    ensures { option_map row_seen result ≡ the_names.row_of (chars name.now) }
{
    tables::row_of(name)
}

/// Whether a start tag of this name ends an element of the row.
pub(crate) fn has(row: OmittedEnd, name: &str) -> bool
    ensures { result ≡ is_among (row_seen row) (chars name.now) }
{
    tables::has(row, name)
}

/// Whether a p may not end with a parent of this name.
fn holds_paragraphs(parent: &str) -> bool
    ensures { result ≡ the_names.holds_paragraphs (chars parent.now) }
{
    is_holding(parent) || has_hyphen(parent)
}

fn is_holding(parent: &str) -> bool
    ensures { result ≡ is_among the_names.holding_names (chars parent.now) }
{
    tables::is_holding(parent)
}

fn has_hyphen(name: &str) -> bool
    ensures { result ≡ list_any (λ c. c == hyphen) (chars name.now) }
{
    name.chars().any(|c| c == '-')
}

/// Whether the element isn't ended by its parent's end.
pub(crate) fn is_held(parent: &str, name: &str) -> bool
    ensures { result ≡ omission.is_held (chars parent.now) (chars name.now) }
{
    is_paragraph(name) && holds_paragraphs(parent)
}

fn is_paragraph(name: &str) -> bool
    ensures { result ≡ same (chars name.now) (codes "p") }
{
    tables::is_word(name, "p")
}

/// Whether the name is the root's.
pub(crate) fn is_root(name: &str) -> bool
    ensures { result ≡ same (chars name.now) (codes "html") }
{
    tables::is_word(name, "html")
}

pub(crate) fn is_plaintext(name: &str) -> bool
    ensures { result ≡ same (chars name.now) (codes "plaintext") }
{
    tables::is_word(name, "plaintext")
}

pub(crate) fn is_template(name: &str) -> bool
    ensures { result ≡ same (chars name.now) (codes "template") }
{
    tables::is_word(name, "template")
}

pub(crate) fn is_foreign_root(name: &str) -> bool
    ensures { result ≡ contents.is_foreign_root (chars name.now) }
{
    tables::is_foreign_root(name)
}

pub(crate) fn drops(name: &str) -> bool
    ensures { result ≡ is_among (codes "pre" ∷ codes "textarea" ∷ codes "listing" ∷ []) (chars name.now) }
{
    tables::drops(name)
}

pub(crate) fn holds_html_in_svg(name: &str) -> bool
    ensures { result ≡ is_among contents.html_in_svg (chars name.now) }
{
    tables::holds_html_in_svg(name)
}

pub(crate) fn inside_html(name: &str) -> Place
    ensures { result ≡ contents.inside_html (chars name.now) }
{
    tables::inside_html(name)
}
