ghost use Rattle.std.specs.Prelude.{◌≡◌};
ghost use Rattle.rx_chars.specs.NcName as nc;

/// Whether an NCName may begin with the character: a NameStartChar of XML 1.0 (section 2.3) other than `:`.
pub fn is_nc_start(c: char) -> bool
    ensures { result ≡ nc.is_nc_start c }
{
    matches!(
        c,
        'A'..='Z'
            | '_'
            | 'a'..='z'
            | '\u{C0}'..='\u{D6}'
            | '\u{D8}'..='\u{F6}'
            | '\u{F8}'..='\u{2FF}'
            | '\u{370}'..='\u{37D}'
            | '\u{37F}'..='\u{1FFF}'
            | '\u{200C}'..='\u{200D}'
            | '\u{2070}'..='\u{218F}'
            | '\u{2C00}'..='\u{2FEF}'
            | '\u{3001}'..='\u{D7FF}'
            | '\u{F900}'..='\u{FDCF}'
            | '\u{FDF0}'..='\u{FFFD}'
            | '\u{10000}'..='\u{EFFFF}'
    )
}

/// Whether the character may stand in an NCName after its first one: a NameChar of XML 1.0 (section 2.3) other than `:`.
pub fn is_nc(c: char) -> bool
    ensures { result ≡ nc.is_nc c }
{
    is_nc_start(c)
        || matches!(
            c,
            '-' | '.' | '0'..='9' | '\u{B7}' | '\u{300}'..='\u{36F}' | '\u{203F}'..='\u{2040}'
        )
}
