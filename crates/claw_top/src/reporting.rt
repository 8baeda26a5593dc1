// The line about a file that cannot be read.
ghost use Rattle.std.specs.Prelude.{◌≤◌, OnOk, OnErr};
ghost use Rattle.outside.specs.Counts.{Rose};
ghost use Rattle.outside.specs.Taken.{Took, TookPrefix};
ghost use Rattle.claw_top.specs.Answer.{cannot_read};

use outside::{Failed, Sink, put_all};

// Puts it. It takes no memory.
pub(crate) fn put_unreadable<S: Sink>(name: &str, sink: &mut S) -> Result<(), Failed>
    ensures faults_later { S.faults sink.old ≤ S.faults sink.new }
    ensures took { OnOk result (Took (S.taken sink.old) (S.taken sink.new) (cannot_read name.now).1) }
    ensures part { OnErr result (TookPrefix (S.taken sink.old) (S.taken sink.new) (cannot_read name.now).1) }
    ensures failed { OnErr result (Rose (S.faults sink.old) (S.faults sink.new)) }
{
    put_all(sink, b"cannot read ")?;
    put_all(sink, name.as_bytes())?;
    put_all(sink, b"\n")
}
