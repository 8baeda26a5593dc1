//! The logical lines of a text.
ghost use Rattle.std.specs.Prelude.{◌≡◌, ◌≤◌, ◌++◌, List, length, map, Option, None, Some, IfOk, IfErr, OnOk, OnErr};
ghost use Rattle.fort_tree.specs.declared.statement.Line.{Line as OneLine};
ghost use Rattle.fort_tree.specs.declared.fault.Fault.{Fault as OneFault};
ghost use Rattle.fort_tree.specs.declared.fault.Stop.TheVariants.{Fault as Fails};
ghost use Rattle.fort_lex.specs.Lines.{written, AreLines, IsFirstTextFault};

use crate::merging::in_order;
use crate::pass::{Pass, go_over};
use fort_tree::{Line, Mode, NoMemory, Seq, Stop};
use std::alloc::Global;

/// Adds lines behind others.
fn append(alloc: Global, into: &mut Seq<Line>, lines: Seq<Line>) -> Result<(), NoMemory>
    ensures ok { OnOk result (into.new ≡ into.old ++ lines) }
    ensures err { OnErr result (into.new ≡ into.old) }
{
    let mut items = std::mem::replace(into, Seq::new(alloc)).into_vec();
    let mut lines = lines.into_vec();
    let outcome = items.append(&mut lines);
    *into = Seq::from_vec(items);
    outcome?;
    Ok(())
}

/// Adds the logical lines of a text: its statements without comments, cut at semicolons and with their continuations joined (ISO/IEC 1539-1:2018 6.3.2), and its
/// directive and mark lines with theirs (this project's own), in the order of their first tokens. `file` is the number of the text, which stands in all places.
/// Lines are kept as they are read in either mode; `mode` is written into each.
///
/// # Errors
/// The first text fault, at the least place and there with the smallest code: E01 a byte other than tab, 32 to 126, LF and CR before LF; E02 a byte past column 132,
/// at column 133; E03 what begins no token or breaks a rule of tokens. The first two are not looked for in comments. `NoMemory` only where memory was refused. After
/// an error `into` is as before.
pub fn lines(
    alloc: Global,
    file: u32,
    text: &[u8],
    mode: Mode,
    into: &mut Seq<Line>,
) -> Result<(), Stop>
    requires { length text.now ≤ 16777216 }
    ensures ok { OnOk result ((lines : List OneLine) × (into.new ≡ into.old ++ lines) × AreLines file mode text.now (map written lines)) }
    ensures fault { (fault : OneFault) → IfErr result (λ stop. stop ≡ Fails fault → IsFirstTextFault file mode text.now fault) }
    ensures err { OnErr result (into.new ≡ into.old) }
{
    let pass = go_over(alloc, file, mode, text)?;
    if let Some(fault) = pass.first_fault() {
        return Err(Stop::Fault(fault));
    }
    let Pass {
        statements,
        directives,
        ..
    } = pass;
    let lines = in_order(alloc, statements.lines, directives.lines)?;
    append(alloc, into, lines)?;
    Ok(())
}
