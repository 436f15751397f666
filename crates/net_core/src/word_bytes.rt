ghost use Rattle.std.specs.Prelude.{◌≡◌};
ghost use Rattle.net_core.specs.Names.{is_space, is_word_byte};

/// Whether a byte is white space: tab, line feed, carriage return or space. It takes constant time.
pub fn is_space(b: u8) -> bool
    ensures { result ≡ is_space b }
{
    b == 9 || b == 10 || b == 13 || b == 32
}

/// Whether a word may have the byte: it is neither white space nor a parenthesis. It takes constant time.
pub fn is_word_byte(b: u8) -> bool
    ensures { result ≡ is_word_byte b }
{
    !(is_space(b) || b == b'(' || b == b')')
}
