//! Bytes of text that grow at their end.
ghost use Rattle.std.specs.Prelude.{◌≡◌, ◌≤◌, ◌++◌, length, take, OnErr, OnOk, encode_utf8};
ghost use Rattle.std.specs.Str.{IsUtf8};
ghost use Rattle.rx_tags.specs.Reading.{piece};

use rx_terms::NoMemory;

/// As many bytes of a run are copied at once.
const AT_ONCE: usize = 16;

/// One more character.
pub(crate) fn push_char(text: &mut Vec<u8>, c: char) -> Result<(), NoMemory>
    ensures ok { OnOk result (text.new.items ≡ text.old.items ++ encode_utf8 c) }
    ensures err { OnErr result (text.new.items ≡ text.old.items) }
{
    let mut room = [0; 4];
    let bytes = c.encode_utf8(&mut room).as_bytes();
    text.extend_from_slice(bytes)?;
    Ok(())
}

/// So many of the first bytes.
#[inline(always)]
pub(crate) fn push_front(text: &mut Vec<u8>, bytes: &[u8], count: usize) -> Result<(), NoMemory>
    requires { count ≤ length bytes.now }
    ensures ok { OnOk result (text.new.items ≡ text.old.items ++ take count bytes.now) }
    ensures err { OnErr result (text.new.items ≡ text.old.items) }
{
    if count > AT_ONCE || bytes.len() < AT_ONCE {
        return push_bytes(text, &bytes[..count]);
    }
    // A copy whose length is known needs no call, and what is too much of it is dropped.
    text.extend_from_slice(&bytes[..AT_ONCE])?;
    text.truncate(text.len() - (AT_ONCE - count));
    Ok(())
}

#[inline(never)]
fn push_bytes(text: &mut Vec<u8>, bytes: &[u8]) -> Result<(), NoMemory>
    ensures ok { OnOk result (text.new.items ≡ text.old.items ++ bytes.now) }
    ensures err { OnErr result (text.new.items ≡ text.old.items) }
{
    text.extend_from_slice(bytes)?;
    Ok(())
}

/// The bytes from one place to another. They are known to be UTF-8, so they aren't looked at again.
pub(crate) fn text_between(bytes: &[u8], start: usize, end: usize) -> &str
    requires rises { start ≤ end }
    requires within { end ≤ length bytes.now }
    requires utf8 { IsUtf8 (piece bytes.now start end) }
    ensures { result.now ≡ piece bytes.now start end }
{
    unsafe { str::from_utf8_unchecked(&bytes[start..end]) }
}
