//! What one line gives to a text that goes on over lines.
ghost use Rattle.std.specs.Prelude.{◌≡◌, ◌≤◌, ◌<◌, ◌-◌, length, position, not, true, false, drop, slice_index_or, None};
ghost use Rattle.fort_lex.specs.Joined.{is_blank, all_blank as all_blank_of, mark_off as mark_off_of, without_blanks as without_blanks_of, continuing};
ghost use Rattle.fort_lex.specs.Machine.{part as part_of};
ghost use Rattle.fort_lex.specs.Shown.{shown_part, no_char};

use fort_tokens::Char;
use fort_tree::Place;

/// A text, the blank before it if there is one, and the place of the `&` that it goes on after.
#[derive(Clone, Copy, Debug)]
pub struct Part<'a> {
    /// The place of the blank.
    pub gap: Option<Place>,
    pub text: &'a [Char],
    pub mark: Option<Place>,
}

/// Whether no other characters than blanks are there.
pub fn all_blank(line: &[Char]) -> bool
    ensures { result ≡ all_blank_of line.now }
{
    line.iter().all(|c| c.byte == b' ')
}

fn end_of_text(line: &[Char]) -> usize
    ensures within { result ≤ length line.now }
    ensures behind { all_blank_of (drop result line.now) ≡ true }
    ensures last { 0 < result → is_blank (slice_index_or line.now (result - 1) no_char) ≡ false }
{
    let mut end = line.len();
    while end > 0 && line[end - 1].byte == b' ' {
        end -= 1;
    }
    end
}

/// The text before a last `&`.
pub fn mark_off(line: &[Char]) -> Part<'_>
    ensures value { shown_part result ≡ mark_off_of line.now }
    ensures gap { result.gap ≡ None }
{
    let end = end_of_text(line);
    if end > 0 && line[end - 1].byte == b'&' {
        Part {
            gap: None,
            text: &line[..end - 1],
            mark: Some(line[end - 1].at),
        }
    } else {
        Part {
            gap: None,
            text: line,
            mark: None,
        }
    }
}

fn first_text(line: &[Char]) -> Option<usize>
    ensures { result ≡ position (λ c. not (is_blank c)) line.now }
{
    line.iter().position(|c| c.byte != b' ')
}

fn without_blanks(line: &[Char]) -> &[Char]
    ensures { result.now ≡ without_blanks_of line.now }
{
    &line[first_text(line).unwrap_or(line.len())..]
}

/// What a line gives that continues another: joined directly where it begins with `&`, else behind a blank (ISO/IEC 1539-1:2018 6.3.2.4; an `&` alone is this
/// project's own).
pub fn continued(line: &[Char]) -> Part<'_>
    ensures { shown_part result ≡ mark_off_of (continuing line.now) }
{
    let text = without_blanks(line);
    let Some((first, rest)) = text.split_first() else {
        return mark_off(text);
    };
    if first.byte != b'&' {
        return Part {
            gap: Some(first.at),
            ..mark_off(text)
        };
    }
    if all_blank(rest) {
        return Part {
            gap: None,
            text: &[],
            mark: Some(first.at),
        };
    }
    mark_off(rest)
}

/// What a line gives to a statement that goes on after a mark, or to a new one.
pub fn next_part(after: Option<Place>, line: &[Char]) -> Part<'_>
    ensures { shown_part result ≡ part_of after line.now }
{
    match after {
        None => mark_off(line),
        Some(_) => {
            if all_blank(line) {
                Part {
                    gap: None,
                    text: &[],
                    mark: after,
                }
            } else {
                continued(line)
            }
        }
    }
}
