// What is put.
ghost use Rattle.std.specs.Prelude.{◌≡◌, OnOk, OnErr};
ghost use Rattle.claw_top.specs.Outcome.{answer_of, IsListed};
ghost use Rattle.claw_top.specs.Ending.{PutsWhere};

use crate::end::End;
use crate::reporting::put_unreadable;
use fort_spell::{report, spell};
use outside::{Failed, Sink, put_all};

// Puts the text of an end where it goes, and gives its status, or 4 where that sink failed. It takes no
// memory.
pub(crate) fn finish<O: Sink, E: Sink>(end: &End<'_>, out: &mut O, err: &mut E) -> u8
    requires { IsListed end.now }
    ensures { PutsWhere O.taken O.faults out.old out.new E.taken E.faults err.old err.new (answer_of end.now) result }
{
    match end {
        End::Program(file) => status_of(spell(file, out), 0),
        End::Counts(text) => status_of(put_all(out, text.as_slice()), 0),
        End::Fault(fault, files) => status_of(report(fault, files, err), 1),
        End::Usage => status_of(
            put_all(
                err,
                b"usage: claw translate, check, run, run-target or gen\n",
            ),
            2,
        ),
        End::CannotRead(name) => status_of(put_unreadable(name, err), 3),
        End::TooLong => status_of(put_all(err, b"too long\n"), 9),
        End::NoMemory => status_of(put_all(err, b"no memory\n"), 6),
    }
}

// The status where the put succeeded, and else 4.
fn status_of(put: Result<(), Failed>, status: u8) -> u8
    ensures ok { OnOk put (result ≡ status) }
    ensures failed { OnErr put (result ≡ 4) }
{
    match put {
        Ok(()) => status,
        Err(_) => 4,
    }
}
