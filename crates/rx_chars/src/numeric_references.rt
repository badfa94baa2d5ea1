ghost use Rattle.std.specs.Prelude.{◌≡◌, ℕ, unwrap_or, option_map, find, ◌==◌};
ghost use Rattle.rx_chars.specs.Numeric as numbers;

use crate::syntax::Syntax;

/// The character for which a reference by this number stands, `&#8364;` or `&#x20AC;`.
///
/// In HTML the numbers 80 to 9F mostly stand for what windows-1252 has there (HTML Standard, 13.2.5.80); every other
/// number stands for its own code point, as all do in XHTML. `None` comes exactly for 0, for D800 to DFFF and for what
/// is past 10FFFF.
pub fn numeric(n: u32, syntax: Syntax) -> Option<char>
    ensures { result ≡ numbers.numeric syntax n }
{
    if n == 0 {
        return None;
    }
    match syntax {
        Syntax::Html => char::from_u32(in_windows_1252(n)),
        Syntax::Xhtml => char::from_u32(n),
    }
}

// The code point of a number that the table maps, else the number.
fn in_windows_1252(n: u32) -> u32
    ensures { result ≡ unwrap_or (option_map (λ row. row.1) (find (λ row. row.0 == n) numbers.numeric_table)) n }
{
    match n {
        0x80 => 0x20AC,
        0x82 => 0x201A,
        0x83 => 0x0192,
        0x84 => 0x201E,
        0x85 => 0x2026,
        0x86 => 0x2020,
        0x87 => 0x2021,
        0x88 => 0x02C6,
        0x89 => 0x2030,
        0x8A => 0x0160,
        0x8B => 0x2039,
        0x8C => 0x0152,
        0x8E => 0x017D,
        0x91 => 0x2018,
        0x92 => 0x2019,
        0x93 => 0x201C,
        0x94 => 0x201D,
        0x95 => 0x2022,
        0x96 => 0x2013,
        0x97 => 0x2014,
        0x98 => 0x02DC,
        0x99 => 0x2122,
        0x9A => 0x0161,
        0x9B => 0x203A,
        0x9C => 0x0153,
        0x9E => 0x017E,
        0x9F => 0x0178,
        _ => n,
    }
}
