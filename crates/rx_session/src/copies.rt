//! Copying out.
ghost use Rattle.std.specs.Prelude.{◌≡◌, ◌++◌, length, min, take, drop};

/// Copies the front of the text for which there is room, and answers how many bytes that are. The room behind them stays as
/// it is.
pub fn copy_front(text: &[u8], out: &mut [u8]) -> usize
    ensures count { result ≡ min (length out.old) (length text.now) }
    ensures copied { out.new ≡ take result text.now ++ drop result out.old }
{
    let count = text.len().min(out.len());
    out[..count].copy_from_slice(&text[..count]);
    count
}
