use crate::{INTRINSICS, KEYWORDS, OPERATORS, REFUSED};

/// Texts with the number of tables that hold them, and what their index gives back.
#[test]
fn finds_words(rt: HostRuntime) {
    for (text, keyword, refused, operator, intrinsic) in [
        (b"call".as_slice(), Some(0), None, None, None),
        (b"use", Some(37), None, None, None),
        (b"where", None, Some(58), None, None),
        (b"**", None, None, Some(3), None),
        (b"sum", None, None, None, Some(8)),
        (b"mod", None, None, None, Some(4)),
        (b"Sum", None, None, None, None),
        (b"", None, None, None, None),
    ] {
        assert_eq!(rt; KEYWORDS.find(text), keyword);
        assert_eq!(rt; REFUSED.find(text), refused);
        assert_eq!(rt; OPERATORS.find(text), operator);
        assert_eq!(rt; INTRINSICS.find(text), intrinsic);
    }
    assert_eq!(rt; KEYWORDS.word(37), b"use".as_slice());
}
