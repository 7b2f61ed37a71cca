ghost use Rattle.std.specs.Prelude.{◌≡◌, ◌&&◌, nat_le, length};
ghost use Rattle.std.specs.List.{list_all};
ghost use Rattle.std.specs.Str.{bytes_eq};
ghost use Rattle.dd_text.specs.Names.{names_a_thing, begins_with_letter, is_byte_of_name, is_reserved_word};

pub(crate) const TOP: &[u8] = b"top";

pub(crate) const BOTTOM: &[u8] = b"bottom";

pub(crate) const NOT: &[u8] = b"not";

pub(crate) const AND: &[u8] = b"and";

pub(crate) const OR: &[u8] = b"or";

pub(crate) const SOME: &[u8] = b"some";

pub(crate) const ALL: &[u8] = b"all";

const IMPLIES: &[u8] = b"implies";

const SUBROLE: &[u8] = b"subrole";

/// Whether a text is a name: 1 to 64 bytes, a letter first, then letters, digits, `_`, `-`, `.` and `:`, and no reserved word.
pub fn is_name(text: &[u8]) -> bool
    ensures { result ≡ names_a_thing text.now }
{
    begins_as_name(text) && has_name_bytes(text) && text.len() <= 64 && !is_reserved(text)
}

fn begins_as_name(text: &[u8]) -> bool
    ensures { result ≡ begins_with_letter text.now }
{
    match text {
        [] => false,
        [first, ..] => first.is_ascii_alphabetic(),
    }
}

fn has_name_bytes(text: &[u8]) -> bool
    ensures { result ≡ list_all is_byte_of_name text.now }
{
    text.iter().all(|byte| is_name_byte(*byte))
}

pub(crate) fn is_name_byte(byte: u8) -> bool
    ensures { result ≡ is_byte_of_name byte }
{
    byte.is_ascii_alphanumeric() || byte == b'_' || byte == b'-' || byte == b'.' || byte == b':'
}

fn is_reserved(text: &[u8]) -> bool
    ensures { result ≡ is_reserved_word text.now }
{
    is_word(text, TOP)
        || is_word(text, BOTTOM)
        || is_word(text, NOT)
        || is_word(text, AND)
        || is_word(text, OR)
        || is_word(text, SOME)
        || is_word(text, ALL)
        || is_word(text, IMPLIES)
        || is_word(text, SUBROLE)
}

pub(crate) fn is_word(text: &[u8], word: &[u8]) -> bool
    ensures { result ≡ bytes_eq text.now word.now }
{
    text == word
}
