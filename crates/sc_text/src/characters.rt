//! The characters of a text by what they may be part of.

ghost use Rattle.std.specs.Prelude.{◌≡◌};
ghost use Rattle.sc_text.specs.Characters.{ends_line, escape, is_comment_part, is_name_part, is_white_space};

/// Whether the character is a space, a tab or an end of a line.
pub fn is_white_space(byte: u8) -> bool
    ensures { result ≡ is_white_space byte }
{
    byte == b' ' || byte == b'\t' || byte == b'\r' || byte == b'\n'
}

/// Whether a name goes on with the character.
pub fn is_name_part(byte: u8) -> bool
    ensures { result ≡ is_name_part byte }
{
    byte.is_ascii_alphanumeric() || byte == b'_'
}

/// Whether a comment goes on with the character.
pub fn is_comment_part(byte: u8) -> bool
    ensures { result ≡ is_comment_part byte }
{
    byte != b'\n'
}

/// Whether the character ends the line of a manifest string.
pub fn ends_line(byte: u8) -> bool
    ensures { result ≡ ends_line byte }
{
    byte == b'\n' || byte == b'\r'
}

/// The character that an escape means, by what follows its percent sign.
pub fn escape(byte: u8) -> Option<u8>
    ensures { result ≡ escape byte }
{
    match byte {
        b'N' => Some(b'\n'),
        b'T' => Some(b'\t'),
        b'%' | b'"' | b'\'' => Some(byte),
        _ => None,
    }
}
