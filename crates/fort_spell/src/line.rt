//! What the lines of a statement begin with.
ghost use Rattle.std.specs.Prelude.{◌≡◌, ◌≤◌, length};
ghost use Rattle.fort_spell.specs.Rows.{lead, margin as margin_of};
ghost use Rattle.fort_spell.specs.Text.{margin_text, sentinel_text};

/// What begins each line of a mark line, behind the indentation.
#[derive(Clone, Copy)]
pub enum Sentinel {
    Absent,
    OpenMp,
    OpenAcc,
}

/// The indentation of a row in columns, and its sentinel.
#[derive(Clone, Copy)]
pub struct Margin {
    pub indent: usize,
    pub sentinel: Sentinel,
}

impl Sentinel {
    /// The sentinel and the blank behind it.
    pub fn text(self) -> &'static [u8]
        ensures { result.now ≡ sentinel_text self }
    {
        match self {
            Sentinel::Absent => b"",
            Sentinel::OpenMp => b"!$omp ",
            Sentinel::OpenAcc => b"!$acc ",
        }
    }
}

impl Margin {
    /// The margin of a statement.
    pub fn of_statement(indent: usize) -> Margin
        ensures { result ≡ margin_of Sentinel.Absent indent }
    {
        Margin {
            indent,
            sentinel: Sentinel::Absent,
        }
    }

    /// The columns before the text of each further line.
    pub fn width(self) -> usize
        requires { self.indent ≤ 40 }
        ensures value { result ≡ length (margin_text self) }
        ensures least { result ≤ 50 }
    {
        self.indent + 4 + self.sentinel.text().len()
    }
}

/// The width of the blank before a token, where there is one.
pub fn lead_width(spaced: bool) -> usize
    ensures { result ≡ length (lead spaced) }
{
    if spaced { 1 } else { 0 }
}
