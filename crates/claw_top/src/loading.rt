// The sources, loaded one after another.
ghost use Rattle.std.specs.Prelude.{◌≡◌, ◌≤◌, length, IfOk, IfErr};
ghost use Rattle.claw_words.specs.Command.{texts_of};
ghost use Rattle.claw_words.specs.declared.reading.Command.{Command};
ghost use Rattle.claw_top.specs.Cause.{HasCause, WereRead};
ghost use Rattle.claw_top.specs.Limits.{most_files};
ghost use Rattle.claw_top.specs.Outcome.{bytes_of};

use crate::end::End;
use outside::{LoadFault, Shelf};
use std::alloc::Global;

// The sources have at most so many bytes together.
const MOST_BYTES: u64 = 4194304;

// Loads the named files in order, each into the room that those before it left, up to the first refusal.
pub(crate) fn load_all<'a, F: Shelf>(
    alloc: Global,
    names: &'a [&'a str],
    shelf: &mut F,
) -> Result<Vec<Vec<u8>>, End<'a>>
    requires { length names.now ≤ most_files }
    ensures same_files { F.files shelf.new ≡ F.files shelf.old }
    ensures faults_later { F.faults shelf.old ≤ F.faults shelf.new }
    ensures read_later { F.bytes_read shelf.old ≤ F.bytes_read shelf.new }
    ensures read { IfOk result (λ sources. WereRead (F.files shelf.old) (F.bytes_read shelf.old) (F.bytes_read shelf.new)
        (texts_of names.now) (bytes_of sources.items)) }
    ensures refused { IfErr result (λ end. (command : Command) → HasCause command (F.files shelf.old) (F.faults shelf.old) (F.faults shelf.new)
        (F.bytes_read shelf.old) (F.bytes_read shelf.new) (texts_of names.now) end) }
{
    let mut sources = Vec::new(alloc);
    let mut room = MOST_BYTES;
    for name in names {
        let mut source = Vec::new(alloc);
        match shelf.load(name, &mut source, room) {
            Ok(()) => room -= source.len() as u64,
            Err(LoadFault::Failed) => return Err(End::CannotRead(name)),
            Err(LoadFault::TooLong) => return Err(End::TooLong),
            Err(LoadFault::NoMemory) => return Err(End::NoMemory),
        }
        if sources.push(source).is_err() {
            return Err(End::NoMemory);
        }
    }
    Ok(sources)
}
