//! Escapes for the characters that no IRI may have.
ghost use Rattle.std.specs.Prelude.{◌≡◌, ◌++◌, IfOk, OnOk, OnErr, true, string_bytes};
ghost use Rattle.rx_terms.specs.Common.{chars, is_forbidden, has_forbidden};
ghost use Rattle.rx_refs.specs.Resolve.{cleaned, escaped};
ghost use Rattle.rx_refs.specs.Views.{Keeps};

use rx_terms::{NoMemory, Text, is_forbidden};
use std::alloc::Global;

/// The text with each character that no IRI may have as `%` and the two digits of its one byte, in upper-case
/// hexadecimal (RFC 3986, section 2.1). Everything else stays, so what is escaped already is not escaped again.
pub fn clean(alloc: Global, text: &str) -> Result<Text, NoMemory>
    ensures { IfOk result (λ clean. clean ≡ cleaned (chars text.now)) }
{
    let copy = clean_copy(alloc, text)?;
    Text::of_string(alloc, copy)
}

/// The same as a string, which nobody shares.
pub fn clean_copy(alloc: Global, text: &str) -> Result<String, NoMemory>
    ensures { IfOk result (λ clean. chars (string_bytes clean) ≡ cleaned (chars text.now)) }
{
    let mut out = String::new(alloc);
    push_clean(&mut out, text)?;
    Ok(out)
}

/// The same of a text that is owned, which is copied only where something is to be escaped.
pub fn clean_string(alloc: Global, text: String) -> Result<String, NoMemory>
    ensures { IfOk result (λ clean. chars (string_bytes clean) ≡ cleaned (chars (string_bytes text))) }
{
    if has_forbidden(text.as_str()) {
        return clean_copy(alloc, text.as_str());
    }
    Ok(text)
}

fn has_forbidden(text: &str) -> bool
    ensures { result ≡ has_forbidden (chars text.now) }
{
    text.chars().any(|c| is_forbidden(c))
}

/// Adds the cleaned text at the end. After want of memory the text is what it was.
pub fn push_clean(out: &mut String, text: &str) -> Result<(), NoMemory>
    ensures ok { OnOk result (chars (string_bytes out.new) ≡ chars (string_bytes out.old) ++ cleaned (chars text.now)) }
    ensures err { OnErr result (string_bytes out.new ≡ string_bytes out.old) }
{
    if has_forbidden(text) {
        return push_or_undo(out, text);
    }
    out.push_str(text)?;
    Ok(())
}

/// The same of a text that has something to be escaped.
fn push_or_undo(out: &mut String, text: &str) -> Result<(), NoMemory>
    ensures ok { OnOk result (chars (string_bytes out.new) ≡ chars (string_bytes out.old) ++ cleaned (chars text.now)) }
    ensures err { OnErr result (string_bytes out.new ≡ string_bytes out.old) }
{
    let before = out.as_str().len();
    if let Err(error) = push_escaping(out, text) {
        out.truncate(before);
        return Err(error);
    }
    Ok(())
}

fn push_escaping(out: &mut String, text: &str) -> Result<(), NoMemory>
    ensures ok { OnOk result (chars (string_bytes out.new) ≡ chars (string_bytes out.old) ++ cleaned (chars text.now)) }
    ensures front { Keeps (string_bytes out.old) (string_bytes out.new) }
{
    for c in text.chars() {
        if is_forbidden(c) {
            push_escaped(out, c)?;
        } else {
            out.push(c)?;
        }
    }
    Ok(())
}

fn push_escaped(out: &mut String, c: char) -> Result<(), NoMemory>
    requires { is_forbidden c ≡ true }
    ensures ok { OnOk result (chars (string_bytes out.new) ≡ chars (string_bytes out.old) ++ escaped c) }
    ensures front { Keeps (string_bytes out.old) (string_bytes out.new) }
{
    const DIGITS: &[u8] = b"0123456789ABCDEF";
    out.push('%')?;
    out.push(DIGITS[(c as usize) / 16] as char)?;
    out.push(DIGITS[(c as usize) % 16] as char)?;
    Ok(())
}
