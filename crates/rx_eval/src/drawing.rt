//! The labels of an element draw their numbers.
ghost use Rattle.std.specs.Prelude.{◌≡◌, ◌<◌, ◌^◌, ◌+◌, IfOk, OnErr, length, option_map, flat_map, map};
ghost use Rattle.rx_rdfa.specs.Renaming.{label_of, label_of_option, labels as labels_of};
ghost use Rattle.rx_rdfa.specs.Inherited.{listed};
ghost use Rattle.rx_curie.specs.Seen.{ref_seen, refs_seen, facts_seen};
ghost use Rattle.rx_eval.specs.Labels.{Drawn, DrawnSome};

use crate::labels::Labels;
use rx_curie::{Facts, Ref, TypeList};
use rx_terms::NoMemory;

/// Gives each label of the facts that has none the next number, and answers the number that comes next then. After want
/// of memory the first of them may have drawn theirs.
pub fn draw_labels(labels: &mut Labels, facts: &Facts, next: u64) -> Result<u64, NoMemory>
    requires { next + length (labels_of (facts_seen facts.now)) < 2 ^ 64 }
    ensures ok { IfOk result (λ after. Drawn labels.old next (labels_of (facts_seen facts.now)) labels.new after) }
    ensures err { OnErr result (DrawnSome labels.old next (labels_of (facts_seen facts.now)) labels.new) }
{
    let next = draw_option(labels, &facts.about, next)?;
    let next = draw_option(labels, &facts.resource, next)?;
    let next = draw_option(labels, &facts.href, next)?;
    let next = draw_option(labels, &facts.src, next)?;
    draw_all_types(labels, &facts.types, next)
}

#[inline(always)]
fn draw_all_types(labels: &mut Labels, types: &Option<TypeList>, next: u64) -> Result<u64, NoMemory>
    requires { next + length (flat_map label_of (listed (option_map refs_seen types.now))) < 2 ^ 64 }
    ensures ok { IfOk result (λ after. Drawn labels.old next (flat_map label_of (listed (option_map refs_seen types.now))) labels.new after) }
    ensures err { OnErr result (DrawnSome labels.old next (flat_map label_of (listed (option_map refs_seen types.now))) labels.new) }
{
    match types {
        Some(types) => draw_types(labels, types, next),
        None => Ok(next),
    }
}

#[inline(always)]
fn draw_option(labels: &mut Labels, name: &Option<Ref>, next: u64) -> Result<u64, NoMemory>
    requires { next + length (label_of_option (option_map ref_seen name.now)) < 2 ^ 64 }
    ensures ok { IfOk result (λ after. Drawn labels.old next (label_of_option (option_map ref_seen name.now)) labels.new after) }
    ensures err { OnErr result (labels.new ≡ labels.old) }
{
    match name {
        Some(name) => draw_ref(labels, name, next),
        None => Ok(next),
    }
}

#[inline(always)]
fn draw_ref(labels: &mut Labels, name: &Ref, next: u64) -> Result<u64, NoMemory>
    requires { next + length (label_of (ref_seen name.now)) < 2 ^ 64 }
    ensures ok { IfOk result (λ after. Drawn labels.old next (label_of (ref_seen name.now)) labels.new after) }
    ensures err { OnErr result (labels.new ≡ labels.old) }
{
    match name {
        Ref::Label(label) => labels.draw(label, next),
        Ref::Iri(_iri) => Ok(next),
        Ref::Relative(_reference) => Ok(next),
    }
}

#[inline(never)]
fn draw_types(labels: &mut Labels, types: &TypeList, next: u64) -> Result<u64, NoMemory>
    requires { next + length (flat_map label_of (refs_seen types.now)) < 2 ^ 64 }
    ensures ok { IfOk result (λ after. Drawn labels.old next (flat_map label_of (refs_seen types.now)) labels.new after) }
    ensures err { OnErr result (DrawnSome labels.old next (flat_map label_of (refs_seen types.now)) labels.new) }
{
    let mut after = next;
    for i in 0..types.len() {
        after = draw_ref(labels, types.at(i), after)?;
    }
    Ok(after)
}
