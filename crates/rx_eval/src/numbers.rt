//! How many numbers the labels of an element may draw.
ghost use Rattle.std.specs.Prelude.{◌≡◌, ◌≤◌, ◌^◌, ◌+◌, length, option_map, flat_map};
ghost use Rattle.rx_rdfa.specs.Inherited.{listed};
ghost use Rattle.rx_rdfa.specs.Renaming.{label_of, label_of_option, labels as labels_of};
ghost use Rattle.rx_curie.specs.Seen.{ref_seen, refs_seen, facts_seen};

use rx_curie::{Facts, Ref, TypeList};

/// How many labels the facts have, each counted as often as it stands.
pub(crate) fn label_count(facts: &Facts) -> u128
    ensures count { result ≡ length (labels_of (facts_seen facts.now)) }
    ensures bound { result ≤ 2 ^ 64 + 4 }
{
    let named = count_of(&facts.about) + count_of(&facts.resource);
    let linked = count_of(&facts.href) + count_of(&facts.src);
    named + linked + type_count(&facts.types)
}

fn count_of(name: &Option<Ref>) -> u128
    ensures count { result ≡ length (label_of_option (option_map ref_seen name.now)) }
    ensures one { result ≤ 1 }
{
    match name {
        Some(name) => one_if_label(name),
        None => 0,
    }
}

fn one_if_label(name: &Ref) -> u128
    ensures count { result ≡ length (label_of (ref_seen name.now)) }
    ensures one { result ≤ 1 }
{
    match name {
        Ref::Label(_label) => 1,
        Ref::Iri(_iri) => 0,
        Ref::Relative(_reference) => 0,
    }
}

fn type_count(types: &Option<TypeList>) -> u128
    ensures count { result ≡ length (flat_map label_of (listed (option_map refs_seen types.now))) }
    ensures bound { result ≤ 2 ^ 64 }
{
    match types {
        Some(types) => count_all(types),
        None => 0,
    }
}

fn count_all(types: &TypeList) -> u128
    ensures count { result ≡ length (flat_map label_of (refs_seen types.now)) }
    ensures bound { result ≤ 2 ^ 64 }
{
    let mut count = 0;
    for i in 0..types.len() {
        count += one_if_label(types.at(i));
    }
    count
}
