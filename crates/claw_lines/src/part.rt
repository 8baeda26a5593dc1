//! The fixed words of the forms, and what may stand behind them. All forms are this project's own spelling of the CLAW directives, or its choice of the marks of
//! OpenMP and OpenACC.
ghost use Rattle.std.specs.Prelude.{◌≡◌, map};
ghost use Rattle.claw_lines.specs.Words.{forms, phrase as phrase_of, opening as opening_of, parts as parts_of, needs_names as names_needed, is_mark as mark_test};

use fort_tree::DirectiveWord;

/// What may stand behind the words of a directive or a mark.
#[derive(Clone, Copy, Debug, PartialEq, Eq)]
pub enum Part {
    /// `( names )`.
    List,
    /// `data ( names )`.
    Data,
    /// `private ( names )`.
    Private,
    /// `over ( positions )`.
    Over,
    /// `group ( id )`.
    Group,
    /// `collapse ( number )`.
    Collapse,
    /// `offset ( - 1 )`.
    Offset,
    /// `init`.
    Init,
}

/// The forms that a line can begin with. Where the words of one are the front of another's, the longer one stands first.
pub fn forms() -> [DirectiveWord; 13]
    ensures { result ≡ forms }
{
    [
        DirectiveWord::Define,
        DirectiveWord::Forward,
        DirectiveWord::Parallelize,
        DirectiveWord::Fusion,
        DirectiveWord::Interchange,
        DirectiveWord::Hoist,
        DirectiveWord::EndHoist,
        DirectiveWord::Transform,
        DirectiveWord::EndTransform,
        DirectiveWord::Cache,
        DirectiveWord::OpenMpLoop,
        DirectiveWord::OpenAccLoop,
        DirectiveWord::Routine,
    ]
}

/// The sentinel and the words with which a line of the form begins. A loop over columns has no text.
pub fn phrase(word: DirectiveWord) -> &'static [&'static [u8]]
    ensures { map (λ text. text.now) result.now ≡ phrase_of word }
{
    match word {
        DirectiveWord::Define => &[b"!$claw", b"define", b"dimension"],
        DirectiveWord::Parallelize => &[b"!$claw", b"parallelize"],
        DirectiveWord::Forward => &[b"!$claw", b"parallelize", b"forward"],
        DirectiveWord::Fusion => &[b"!$claw", b"loop", b"-", b"fusion"],
        DirectiveWord::Interchange => &[b"!$claw", b"loop", b"-", b"interchange"],
        DirectiveWord::Hoist => &[b"!$claw", b"loop", b"-", b"hoist"],
        DirectiveWord::EndHoist => &[b"!$claw", b"end", b"loop", b"-", b"hoist"],
        DirectiveWord::Transform => &[b"!$claw", b"array", b"-", b"transform"],
        DirectiveWord::EndTransform => &[b"!$claw", b"end", b"array", b"-", b"transform"],
        DirectiveWord::Cache => &[b"!$claw", b"kcache"],
        DirectiveWord::Column => &[],
        DirectiveWord::OpenMpLoop => &[b"!$omp", b"parallel", b"do"],
        DirectiveWord::OpenAccLoop => &[b"!$acc", b"parallel", b"loop", b"gang", b"vector"],
        DirectiveWord::Routine => &[b"!$acc", b"routine", b"seq"],
    }
}

/// The words with which the part begins.
pub fn opening(part: Part) -> &'static [&'static [u8]]
    ensures { map (λ text. text.now) result.now ≡ opening_of part }
{
    match part {
        Part::List => &[b"("],
        Part::Data => &[b"data", b"("],
        Part::Private => &[b"private", b"("],
        Part::Over => &[b"over", b"("],
        Part::Group => &[b"group", b"("],
        Part::Collapse => &[b"collapse", b"("],
        Part::Offset => &[b"offset", b"(", b"-", b"1", b")"],
        Part::Init => &[b"init"],
    }
}

/// What may stand behind the words of the form, in any order and each at most once.
pub fn parts(word: DirectiveWord) -> &'static [Part]
    ensures { result.now ≡ parts_of word }
{
    match word {
        DirectiveWord::Parallelize => &[Part::Data, Part::Over],
        DirectiveWord::Fusion => &[Part::Group, Part::Collapse],
        DirectiveWord::Interchange | DirectiveWord::Hoist => &[Part::List],
        DirectiveWord::Cache => &[Part::Data, Part::Offset, Part::Init],
        DirectiveWord::OpenMpLoop | DirectiveWord::OpenAccLoop => &[Part::Private],
        _ => &[],
    }
}

/// Whether the form isn't whole without names.
pub fn needs_names(word: DirectiveWord) -> bool
    ensures { result ≡ names_needed word }
{
    matches!(word, DirectiveWord::Hoist | DirectiveWord::Cache)
}

/// Whether it is a mark of a made program, and no directive of a source.
pub fn is_mark(word: DirectiveWord) -> bool
    ensures { result ≡ mark_test word }
{
    matches!(
        word,
        DirectiveWord::OpenMpLoop | DirectiveWord::OpenAccLoop | DirectiveWord::Routine
    )
}
