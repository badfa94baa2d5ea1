//! Kinds of faults by numbers.
ghost use Rattle.std.specs.Prelude.{◌≡◌};
ghost use Rattle.rx_session.specs.Kinds.{kind_number};

use rx_walk::Kind;

/// The number of the kind, from 1.
pub fn kind_number(kind: Kind) -> u32
    ensures { result ≡ kind_number kind }
{
    match kind {
        Kind::NotUtf8 => 1,
        Kind::Nul => 2,
        Kind::BadTag => 3,
        Kind::Mismatch => 4,
        Kind::NothingOpen => 5,
        Kind::SelfClosed => 6,
        Kind::UnknownReference => 7,
        Kind::BadReference => 8,
        Kind::TooDeep => 9,
        Kind::TagTooLong => 10,
        Kind::Outside => 11,
        Kind::RootNotHtml => 12,
        Kind::BadDoctype => 13,
        Kind::Unended => 14,
        Kind::RepeatedAttribute => 15,
        Kind::StrictText => 16,
        Kind::Plaintext => 17,
        Kind::PageTooLong => 18,
        Kind::RelativeVocab => 19,
        Kind::XmlLiteral => 20,
        Kind::HtmlLiteral => 21,
        Kind::Cycle => 22,
        Kind::ItemsTooNested => 23,
        Kind::ItemsTooMany => 24,
    }
}
