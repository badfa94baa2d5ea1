//! Names of the kinds of faults.
ghost use Rattle.std.specs.Prelude.{◌≡◌};
ghost use Rattle.rx_grammar.specs.Kinds.{kind_name};

use crate::faults::Kind;

/// The kind's name, as it is said on a refusal.
pub fn name_of(kind: Kind) -> &'static str
    ensures { result.now ≡ kind_name kind }
{
    match kind {
        Kind::NotUtf8 => "NotUtf8",
        Kind::Nul => "Nul",
        Kind::BadTag => "BadTag",
        Kind::Mismatch => "Mismatch",
        Kind::NothingOpen => "NothingOpen",
        Kind::SelfClosed => "SelfClosed",
        Kind::UnknownReference => "UnknownReference",
        Kind::BadReference => "BadReference",
        Kind::TooDeep => "TooDeep",
        Kind::TagTooLong => "TagTooLong",
        Kind::Outside => "Outside",
        Kind::RootNotHtml => "RootNotHtml",
        Kind::BadDoctype => "BadDoctype",
        Kind::Unended => "Unended",
        Kind::RepeatedAttribute => "RepeatedAttribute",
        Kind::StrictText => "StrictText",
        Kind::Plaintext => "Plaintext",
        Kind::PageTooLong => "PageTooLong",
        Kind::RelativeVocab => "RelativeVocab",
        Kind::XmlLiteral => "XmlLiteral",
        Kind::HtmlLiteral => "HtmlLiteral",
        Kind::Cycle => "Cycle",
        Kind::ItemsTooNested => "ItemsTooNested",
        Kind::ItemsTooMany => "ItemsTooMany",
    }
}
