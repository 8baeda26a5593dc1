// The top call.
ghost use Rattle.std.specs.Prelude.{◌≡◌, ◌≢◌, ◌<◌, ◌⊎◌, List, ℕ, length, Ok, Err, IsNone, IfSome, IfNone, IsSomeAnd};
ghost use Rattle.outside.specs.Counts.{Rose};
ghost use Rattle.outside.specs.Files.{Lacks};
ghost use Rattle.outside.specs.Taken.{Took};
ghost use Rattle.fort_tree.specs.declared.fault.Fault.{Fault};
ghost use Rattle.claw_words.specs.Command.{texts_of};
ghost use Rattle.claw_words.specs.Request.{request_of};
ghost use Rattle.claw_top.specs.Answer.{Answer, usage, cannot_read, no_memory, too_long, report_of};
ghost use Rattle.claw_top.specs.Cause.{WereRead, Reaches, IsTooMuch};
ghost use Rattle.claw_top.specs.Compile.{Compiles};
ghost use Rattle.claw_top.specs.Ending.{Puts, PutsWhere, Stood, AreThere, Headline, MayTell, MayAnswer};
ghost use Rattle.claw_top.specs.Limits.{most_files};

use crate::deciding::decide;
use crate::end::End;
use crate::finishing::finish;
use claw_words::{WordsFault, read_words};
use outside::{Shelf, Sink};
use std::alloc::Global;

/// Translates or checks the files that the words name, and gives the status of the run.
///
/// The words are a request as `claw_words::read_words` says: the program's name, which is passed over,
/// `translate` or `check`, the names of the files, and the options. There are at most 64 files, and they have at
/// most 4194304 bytes together. They are loaded in the order of their names. The status is
///
/// - 0: done, and `out` took the whole text that is made of the sources, or the line that counts their units;
/// - 1: the sources have a fault, and `err` took the report of the first one;
/// - 2: the words are no request, and nothing was loaded;
/// - 3: the shelf failed at the file that `err` names, or it tells its files and lacks that one;
/// - 4: a put failed: on `out` where the result is for it, and else on `err`;
/// - 6: memory was refused;
/// - 9: there are more files, and then nothing was loaded, or more bytes than the sources may have.
///
/// Where several come together, the words are before the number of files, that before the files in
/// their order, and these before the faults of the sources. The whole result is made before the first
/// put. On every status but 0 and 4 nothing is put on `out`.
pub fn claw<F: Shelf, O: Sink, E: Sink>(
    alloc: Global,
    words: &[&str],
    shelf: &mut F,
    out: &mut O,
    err: &mut E,
) -> u8
    // No request: nothing is loaded. Memory may be refused before the words are known.
    ensures usage { IfNone (request_of (texts_of words.now)) ((shelf.new ≡ shelf.old) × (out.new ≡ out.old)
        × (Puts usage result (E.taken err.old) (E.taken err.new) (E.faults err.old) (E.faults err.new)
        ⊎ Puts no_memory result (E.taken err.old) (E.taken err.new) (E.faults err.old) (E.faults err.new))) }
    ensures usage_only { result ≡ 2 → IsNone (request_of (texts_of words.now)) }

    // Too many files: nothing is loaded.
    ensures too_many { IfSome (request_of (texts_of words.now)) (λ wanted. most_files < length wanted.files → shelf.new ≡ shelf.old) }

    // Where the shelf has the files, they are not too many or too long, nothing failed and memory was
    // there, the first fault is reported, or there is none and the text is written.
    ensures headline { IfSome (request_of (texts_of words.now)) (λ wanted. IfSome (F.files shelf.old) (λ files.
        (sources : List (List ℕ)) → AreThere files wanted.files sources
        → Stood (F.faults shelf.old) (F.faults shelf.new) → Stood (O.faults out.old) (O.faults out.new)
        → Stood (E.faults err.old) (E.faults err.new) → result ≢ 6
        → Headline wanted.command wanted.files sources result (O.taken out.old) (O.taken out.new) (E.taken err.old) (E.taken err.new))) }

    // Over told files the answer is one for them, unless memory was refused or the shelf failed.
    ensures told { IfSome (request_of (texts_of words.now)) (λ wanted. IfSome (F.files shelf.old) (λ files.
        (answer : Answer) × MayTell wanted.command files (F.faults shelf.old) (F.faults shelf.new) wanted.files answer
        × PutsWhere O.taken O.faults out.old out.new E.taken E.faults err.old err.new answer result)) }

    // Over every shelf an answer has its cause. Its text is put whole, or a prefix of it with status 4.
    ensures ended { IfSome (request_of (texts_of words.now)) (λ wanted.
        (answer : Answer) × MayAnswer wanted.command (F.files shelf.old) (F.faults shelf.old) (F.faults shelf.new)
        (F.bytes_read shelf.old) (F.bytes_read shelf.new) wanted.files answer
        × PutsWhere O.taken O.faults out.old out.new E.taken E.faults err.old err.new answer result) }

    // So each status says this.
    ensures done { result ≡ 0 → IsSomeAnd (request_of (texts_of words.now)) (λ wanted. (sources : List (List ℕ)) × (text : List ℕ)
        × WereRead (F.files shelf.old) (F.bytes_read shelf.old) (F.bytes_read shelf.new) wanted.files sources
        × Compiles wanted.command sources (Ok text) × Took (O.taken out.old) (O.taken out.new) text × (err.new ≡ err.old)) }
    ensures fault { result ≡ 1 → IsSomeAnd (request_of (texts_of words.now)) (λ wanted. (sources : List (List ℕ)) × (fault : Fault)
        × WereRead (F.files shelf.old) (F.bytes_read shelf.old) (F.bytes_read shelf.new) wanted.files sources
        × Compiles wanted.command sources (Err fault) × (fault.place.file < length wanted.files)
        × Took (E.taken err.old) (E.taken err.new) (report_of fault wanted.files)) }
    ensures unreadable { result ≡ 3 → IsSomeAnd (request_of (texts_of words.now)) (λ wanted. (name : List ℕ) × (sources : List (List ℕ))
        × Reaches (F.files shelf.old) wanted.files name sources
        × (Rose (F.faults shelf.old) (F.faults shelf.new) ⊎ Lacks (F.files shelf.old) name)
        × Took (E.taken err.old) (E.taken err.new) (cannot_read name).1) }
    ensures put_failed { result ≡ 4 → (Rose (O.faults out.old) (O.faults out.new) × (err.new ≡ err.old))
        ⊎ (Rose (E.faults err.old) (E.faults err.new) × (out.new ≡ out.old)) }
    ensures no_memory { result ≡ 6 → Took (E.taken err.old) (E.taken err.new) no_memory.1 }
    ensures too_long { result ≡ 9 → IsSomeAnd (request_of (texts_of words.now)) (λ wanted.
        ((most_files < length wanted.files) ⊎ ((name : List ℕ) × (sources : List (List ℕ)) × Reaches (F.files shelf.old) wanted.files name sources
        × IsTooMuch (F.files shelf.old) (F.bytes_read shelf.old) (F.bytes_read shelf.new) name sources))
        × Took (E.taken err.old) (E.taken err.new) too_long.1) }

    // A refusal puts nothing out.
    ensures silent { result ≢ 0 → result ≢ 4 → out.new ≡ out.old }
{
    match read_words(alloc, words) {
        Ok(request) => {
            let end = decide(alloc, request.command, request.files.as_slice(), shelf);
            finish(&end, out, err)
        }
        Err(WordsFault::NoRequest) => finish(&End::Usage, out, err),
        Err(WordsFault::NoMemory) => finish(&End::NoMemory, out, err),
    }
}
