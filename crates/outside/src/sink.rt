// What takes bytes.
ghost use Rattle.std.specs.Prelude.{◌≡◌, ◌≤◌, ◌<◌, ℕ, List, length, take, OnOk, OnErr, IfOk, IsOk};
ghost use Rattle.std.specs.declared.option.Option.{Option};
ghost use Rattle.outside.specs.Counts.{Rose};
ghost use Rattle.outside.specs.Taken.{Took, TookPrefix};

use thiserror::Error;

/// A put that took nothing, because the sink failed.
#[derive(Clone, Copy, Debug, PartialEq, Eq, Drop, Error)]
#[error("the sink failed")]
pub struct Failed;

/// What takes bytes. A sink may tell which bytes it took. It counts its faults; the count never falls,
/// and one that stands at the greatest u64 counts as risen.
pub trait Sink {
    ghost taken: { Self → Option (List ℕ) };

    ghost faults: { Self → ℕ };

    /// Takes a first part of the piece and gives its length in bytes, which is 0 only for an empty
    /// piece. `Failed` only where the sink's faults rose: then nothing was taken.
    fn put(&mut self, piece: &[u8]) -> Result<usize, Failed>
        ensures faults_later { faults self.old ≤ faults self.new }
        ensures within { IfOk result (λ n. n ≤ length piece.now) }
        ensures some { IfOk result (λ n. 0 < length piece.now → 0 < n) }
        ensures empty { length piece.now ≡ 0 → IsOk result }
        ensures took { IfOk result (λ n. Took (taken self.old) (taken self.new) (take n piece.now)) }
        ensures kept { OnErr result (taken self.new ≡ taken self.old) }
        ensures failed { OnErr result (Rose (faults self.old) (faults self.new)) };
}

/// Puts the whole piece, in as many puts as the sink wants. It takes no memory. `Failed` only where
/// the sink's faults rose: then the sink took a first part that is shorter than the piece.
pub fn put_all<S: Sink>(sink: &mut S, piece: &[u8]) -> Result<(), Failed>
    ensures faults_later { S.faults sink.old ≤ S.faults sink.new }
    ensures took { OnOk result (Took (S.taken sink.old) (S.taken sink.new) piece.now) }
    ensures part { OnErr result (TookPrefix (S.taken sink.old) (S.taken sink.new) piece.now) }
    ensures failed { OnErr result (Rose (S.faults sink.old) (S.faults sink.new)) }
{
    let mut at = 0;
    while at < piece.len() {
        let count = sink.put(&piece[at..])?;
        at += count;
    }
    Ok(())
}
