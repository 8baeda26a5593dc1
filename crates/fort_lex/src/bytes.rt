//! Physical lines.
ghost use Rattle.std.specs.Prelude.{◌≡◌, ◌+◌, ◌≤◌, ◌<◌, ◌==◌, length, position, IfOk};
ghost use Rattle.fort_lex.specs.Rows.{without_return as without_return_of, comment_start as comment_start_of, placed as placed_bytes, blanked as blanked_byte, is_bad as is_bad_byte, bad_bytes, too_long, code as code_of, start};
ghost use Rattle.fort_lex.specs.Machine.{noted};

use crate::faults::earlier;
use crate::sentinel::text_start;
use fort_tokens::Char;
use fort_tree::{Code, Fault, NoMemory, Place, Seq};
use std::alloc::Global;

/// A line without a CR at its end.
pub fn without_return(line: &[u8]) -> &[u8]
    ensures value { result.now ≡ without_return_of line.now }
    ensures within { length result.now ≤ length line.now }
{
    if !line.is_empty() && line[line.len() - 1] == b'\r' {
        &line[..line.len() - 1]
    } else {
        line
    }
}

fn first_exclamation(bytes: &[u8]) -> Option<usize>
    ensures { result ≡ position (λ b. b == 33) bytes.now }
{
    bytes.iter().position(|byte| *byte == b'!')
}

fn comment_start(line: &[u8], from: usize) -> usize
    requires { from ≤ length line.now }
    ensures value { result ≡ comment_start_of from line.now }
    ensures low { from ≤ result }
    ensures within { result ≤ length line.now }
{
    from + first_exclamation(&line[from..]).unwrap_or(line.len() - from)
}

/// A physical line without its comment.
pub fn code(line: &[u8]) -> &[u8]
    ensures value { result.now ≡ code_of line.now }
    ensures low { start line.now ≤ length result.now }
    ensures within { length result.now ≤ length line.now }
{
    &line[..comment_start(line, text_start(line))]
}

fn blanked(byte: u8) -> u8
    ensures { result ≡ blanked_byte byte }
{
    if byte == b'\t' { b' ' } else { byte }
}

/// Bytes of a line as characters, the first behind `start` others. A tab counts as a blank.
///
/// # Errors
/// `NoMemory` only where memory was refused.
pub fn placed(
    alloc: Global,
    file: u32,
    line: u32,
    start: u32,
    bytes: &[u8],
) -> Result<Seq<Char>, NoMemory>
    requires { start + length bytes.now ≤ 16777216 }
    ensures { IfOk result (λ chars. chars ≡ placed_bytes file line (start + 1) bytes.now) }
{
    let mut chars = Seq::new(alloc);
    let mut column = start;
    for byte in bytes {
        column += 1;
        chars.push(Char {
            byte: blanked(*byte),
            at: Place { file, line, column },
        })?;
    }
    Ok(chars)
}

fn is_bad(byte: u8) -> bool
    ensures { result ≡ is_bad_byte byte }
{
    byte != b'\t' && (byte < 32 || byte > 126)
}

/// Notes the bad bytes of a line without its comment.
pub fn note_bad_bytes(first: Option<Fault>, file: u32, line: u32, bytes: &[u8]) -> Option<Fault>
    requires { length bytes.now ≤ 16777216 }
    ensures { result ≡ noted first (bad_bytes file line 1 bytes.now) }
{
    let mut first = first;
    let mut column = 0;
    for byte in bytes {
        column += 1;
        if is_bad(*byte) {
            let at = Place { file, line, column };
            first = earlier(first, Some(Fault::new(Code::E01, at)));
        }
    }
    first
}

/// Notes the first byte past column 132 of a line without its comment (ISO/IEC 1539-1:2018 6.3.2.1).
pub fn note_length(first: Option<Fault>, file: u32, line: u32, bytes: &[u8]) -> Option<Fault>
    ensures { result ≡ noted first (too_long file line bytes.now) }
{
    if bytes.len() > 132 {
        let at = Place {
            file,
            line,
            column: 133,
        };
        earlier(first, Some(Fault::new(Code::E02, at)))
    } else {
        first
    }
}
