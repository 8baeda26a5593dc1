//! What directive and mark lines begin with.
ghost use Rattle.std.specs.Prelude.{◌≡◌, ◌≤◌, length, drop, position, not};
ghost use Rattle.fort_lex.specs.Rows.{word_of_sentinel, is_gap as is_gap_byte, begins_with_word as begins_with, sentinel_at_front, indent as indent_of, sentinel_of as sentinel_of_line, start};
ghost use Rattle.fort_lex.specs.Joined.{same};

/// What a directive or mark line begins with.
#[derive(Clone, Copy, Debug, PartialEq, Eq)]
pub enum Sentinel {
    /// `!$claw`.
    Claw,
    /// `!$omp`.
    Omp,
    /// `!$acc`.
    Acc,
}

impl Sentinel {
    ghost use Rattle.std.specs.Prelude.{◌≡◌};
    ghost use Rattle.fort_lex.specs.Rows.{word_of_sentinel};
    ghost use Rattle.fort_lex.specs.Joined.{same};

    /// Its text in lower case.
    pub fn text(self) -> &'static [u8]
        ensures { result.now ≡ word_of_sentinel self }
    {
        match self {
            Sentinel::Claw => b"!$claw",
            Sentinel::Omp => b"!$omp",
            Sentinel::Acc => b"!$acc",
        }
    }

    /// Whether both are the same.
    pub fn is(self, other: Sentinel) -> bool
        ensures { result ≡ same self other }
    {
        match (self, other) {
            (Sentinel::Claw, Sentinel::Claw) => true,
            (Sentinel::Omp, Sentinel::Omp) => true,
            (Sentinel::Acc, Sentinel::Acc) => true,
            _ => false,
        }
    }
}

fn is_gap(byte: u8) -> bool
    ensures { result ≡ is_gap_byte byte }
{
    byte == b' ' || byte == b'\t'
}

fn begins_with_word(word: &[u8], line: &[u8]) -> bool
    ensures { result ≡ begins_with word.now line.now }
{
    line.len() > word.len()
        && is_gap(line[word.len()])
        && line[..word.len()].eq_ignore_ascii_case(word)
}

fn at_front(line: &[u8]) -> Option<Sentinel>
    ensures { result ≡ sentinel_at_front line.now }
{
    if begins_with_word(Sentinel::Claw.text(), line) {
        Some(Sentinel::Claw)
    } else if begins_with_word(Sentinel::Omp.text(), line) {
        Some(Sentinel::Omp)
    } else if begins_with_word(Sentinel::Acc.text(), line) {
        Some(Sentinel::Acc)
    } else {
        None
    }
}

fn first_text(line: &[u8]) -> Option<usize>
    ensures { result ≡ position (λ b. not (is_gap_byte b)) line.now }
{
    line.iter().position(|byte| !is_gap(*byte))
}

/// How many blanks and tabs a physical line begins with.
pub fn indent(line: &[u8]) -> usize
    ensures value { result ≡ indent_of line.now }
    ensures within { result ≤ length line.now }
{
    first_text(line).unwrap_or(line.len())
}

/// The sentinel of a directive or mark line: behind blanks, in any case, with a blank behind it. This is this project's own.
pub fn sentinel_of(line: &[u8]) -> Option<Sentinel>
    ensures { result ≡ sentinel_of_line line.now }
{
    at_front(&line[indent(line)..])
}

/// Where the first byte of a physical line stands that can begin a comment: behind the sentinel if it has one.
pub fn text_start(line: &[u8]) -> usize
    ensures value { result ≡ start line.now }
    ensures within { result ≤ length line.now }
{
    match sentinel_of(line) {
        None => 0,
        Some(sentinel) => indent(line) + sentinel.text().len(),
    }
}
