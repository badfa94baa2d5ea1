//! The components of a target joined again (RFC 3986, section 5.3).
ghost use Rattle.std.specs.Prelude.{◌≡◌, ◌++◌, IfOk, OnOk, codes, string_bytes};
ghost use Rattle.rx_terms.specs.Common.{chars, seen_slice};
ghost use Rattle.rx_refs.specs.Parts.{recomposed, delimited, behind_delimiter};
ghost use Rattle.rx_refs.specs.Views.{seen_path, seen_target, GainsText};

use crate::dots::{push_merged_path, push_path};
use crate::targets::{Target, TargetPath};
use rx_terms::NoMemory;
use std::alloc::Global;

/// The target's components with their delimiters, its path worked out.
pub fn recompose(alloc: Global, target: &Target<'_>) -> Result<String, NoMemory>
    ensures { IfOk result (λ text. chars (string_bytes text) ≡ recomposed (seen_target target.now)) }
{
    let mut front = String::new(alloc);
    push_scheme(&mut front, target.scheme)?;
    push_behind(&mut front, "//", target.authority)?;
    let mut text = push_target_path(front, target.path)?;
    push_behind(&mut text, "?", target.query)?;
    push_behind(&mut text, "#", target.fragment)?;
    Ok(text)
}

fn push_scheme(text: &mut String, scheme: Option<&str>) -> Result<(), NoMemory>
    ensures { OnOk result (GainsText text.old text.new (delimited (λ s. s ++ codes ":") (seen_slice scheme.entry))) }
{
    let Some(scheme) = scheme else {
        return Ok(());
    };
    push_text(text, scheme)?;
    push_text(text, ":")
}

fn push_behind(text: &mut String, delimiter: &str, component: Option<&str>) -> Result<(), NoMemory>
    ensures { OnOk result (GainsText text.old text.new (behind_delimiter (chars delimiter.now) (seen_slice component.entry))) }
{
    let Some(component) = component else {
        return Ok(());
    };
    push_text(text, delimiter)?;
    push_text(text, component)
}

fn push_text(text: &mut String, piece: &str) -> Result<(), NoMemory>
    ensures { OnOk result (GainsText text.old text.new (chars piece.now)) }
{
    text.push_str(piece)?;
    Ok(())
}

fn push_target_path(text: String, path: TargetPath<'_>) -> Result<String, NoMemory>
    ensures { IfOk result (λ whole. GainsText text whole (seen_path path.entry)) }
{
    match path {
        TargetPath::Kept(path) => {
            let mut text = text;
            push_text(&mut text, path)?;
            Ok(text)
        }
        TargetPath::Reduced(path) => push_path(text, path),
        TargetPath::Merged(base, path) => push_merged_path(text, base, path),
    }
}
