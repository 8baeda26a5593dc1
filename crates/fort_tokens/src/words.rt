//! Tests of bytes, and the words that are tokens as they stand.
ghost use Rattle.std.specs.Prelude.{◌≡◌, ◌++◌, ◌∷◌, [], map};
ghost use Rattle.std.specs.List.{list_any};
ghost use Rattle.std.specs.Str.{bytes_eq};
ghost use Rattle.fort_tokens.specs.Texts.{is_name_byte as name_byte_test, is_kind as kind_test, begins_with as front_test, is_begun as begun_test, is_fixed as fixed_test, is_small as small_test, fixed_words as words_that_are_fixed};

/// A letter in lower case, a digit or an underscore.
pub fn is_name_byte(byte: u8) -> bool
    ensures { result ≡ name_byte_test byte }
{
    byte.is_ascii_lowercase() || byte.is_ascii_digit() || byte == b'_'
}

/// What an underscore behind digits is followed by: a number of bytes.
pub fn is_kind(byte: u8) -> bool
    ensures { result ≡ kind_test byte }
{
    matches!(byte, b'1' | b'2' | b'4' | b'8')
}

/// Whether the word begins with the text and the byte behind it.
fn begins_with(word: &[u8], text: &[u8], byte: u8) -> bool
    ensures { result ≡ front_test word.now (text.now ++ byte ∷ []) }
{
    match word.split_first() {
        None => false,
        Some((first, others)) => match text.split_first() {
            None => byte == *first,
            Some((front, rest)) => *front == *first && begins_with(others, rest, byte),
        },
    }
}

/// The words between points, the operators and the delimiters.
fn fixed_words() -> &'static [&'static [u8]]
    ensures { map (λ word. word.now) result.now ≡ words_that_are_fixed }
{
    &[
        b".true.", b".false.", b".not.", b".and.", b".or.", b".eqv.", b".neqv.", b".eq.", b".ne.",
        b".lt.", b".le.", b".gt.", b".ge.", b"(", b")", b",", b":", b"::", b"=", b"==", b"/=",
        b"<", b"<=", b">", b">=", b"+", b"-", b"*", b"/", b"**",
    ]
}

fn any_begins(words: &[&[u8]], text: &[u8], byte: u8) -> bool
    ensures { result ≡ list_any (λ word. front_test word.now (text.now ++ byte ∷ [])) words.now }
{
    words.iter().any(|word| begins_with(word, text, byte))
}

fn any_is(words: &[&[u8]], text: &[u8]) -> bool
    ensures { result ≡ list_any (λ word. bytes_eq text.now word.now) words.now }
{
    words.iter().any(|word| text == *word)
}

/// Whether the text and the byte behind it are the front of a fixed word.
pub fn is_begun(text: &[u8], byte: u8) -> bool
    ensures { result ≡ begun_test (text.now ++ byte ∷ []) }
{
    any_begins(fixed_words(), text, byte)
}

/// Whether the text is a fixed word.
pub fn is_fixed(text: &[u8]) -> bool
    ensures { result ≡ fixed_test text.now }
{
    any_is(fixed_words(), text)
}

/// Whether the number at the front of the text is at most 9223372036854775807.
pub fn is_small(text: &[u8]) -> bool
    ensures { result ≡ small_test text.now }
{
    let mut value: u64 = 0;
    for byte in text {
        if !byte.is_ascii_digit() {
            return true;
        }
        let digit = u64::from(*byte - b'0');
        if value > (9223372036854775807 - digit) / 10 {
            return false;
        }
        value = value * 10 + digit;
    }
    true
}
