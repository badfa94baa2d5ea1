//! What `about`, `resource`, `href` and `src` name.
ghost use Rattle.std.specs.Prelude.{◌≡◌, IfOk, OnOk, option_map};
ghost use Rattle.rx_terms.specs.Common.{chars, seen_slice};
ghost use Rattle.rx_rdfa.specs.Facts as the;
ghost use Rattle.rx_names.specs.Views.{Along};
ghost use Rattle.rx_curie.specs.Given.{resource_in};
ghost use Rattle.rx_curie.specs.Seen.{ref_seen};

use crate::fields::empty;
use crate::made::ref_of;
use crate::makers::IriMaker;
use crate::readings::read_resource;
use crate::refs::Ref;
use rx_names::NamesView;
use rx_terms::{NoMemory, Text};
use std::alloc::Global;

/// Puts the resource of `about` or `resource` into the field, where the attribute counts as present: brackets without a
/// CURIE inside make it absent.
#[inline(always)]
pub(crate) fn put_resource(
    field: &mut Option<Ref>,
    maker: &mut IriMaker,
    names: &NamesView<'_>,
    value: Option<&str>,
) -> Result<(), NoMemory>
    ensures { OnOk result (Along names.now (λ context line. option_map ref_seen field.new ≡ resource_in context line (seen_slice value.entry))) }
{
    let Some(value) = value else {
        empty(field);
        return Ok(());
    };
    *field = resource_of(maker, names, value)?;
    Ok(())
}

/// The resource that the value names. Most tags have no such attribute, and don't come here.
#[inline(never)]
fn resource_of(
    maker: &mut IriMaker,
    names: &NamesView<'_>,
    value: &str,
) -> Result<Option<Ref>, NoMemory>
    ensures { IfOk result (λ made. Along names.now (λ context line. option_map ref_seen made ≡ the.resource_of context line (chars value.now))) }
{
    let Some(reading) = read_resource(names, value) else {
        return Ok(None);
    };
    let resource = ref_of(maker, reading)?;
    Ok(Some(resource))
}

/// Puts the reference of `href` or `src` into the field, where the attribute is there.
#[inline(always)]
pub(crate) fn put_reference(
    field: &mut Option<Ref>,
    alloc: Global,
    value: Option<&str>,
) -> Result<(), NoMemory>
    ensures { OnOk result (option_map ref_seen field.new ≡ option_map the.RelativeRef (seen_slice value.entry)) }
{
    let Some(value) = value else {
        empty(field);
        return Ok(());
    };
    let reference = Text::of(alloc, value)?;
    *field = Some(Ref::Relative(reference));
    Ok(())
}

/// Puts the text into the field, where there is one.
#[inline(always)]
pub(crate) fn put_text(
    field: &mut Option<Text>,
    alloc: Global,
    value: Option<&str>,
) -> Result<(), NoMemory>
    ensures { OnOk result (field.new ≡ seen_slice value.entry) }
{
    let Some(value) = value else {
        empty(field);
        return Ok(());
    };
    let text = Text::of(alloc, value)?;
    *field = Some(text);
    Ok(())
}
