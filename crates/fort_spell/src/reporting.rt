//! The report of a fault.
ghost use Rattle.std.specs.Prelude.{◌<◌, ◌≤◌, ◌++◌, OnErr, OnOk, codes, decimal, length};
ghost use Rattle.outside.specs.Counts.{Rose};
ghost use Rattle.outside.specs.Taken.{Took, TookPrefix};
ghost use Rattle.fort_tree.specs.Report.{access_text, details_text, position_text, report_of};
ghost use Rattle.fort_spell.specs.Report.{name_at};
ghost use Rattle.fort_spell.specs.Stream.{Put, bytes_alone};

use crate::put::put_bytes;
use fort_tree::{Code, Fault, Place};
use itoa::Buffer;
use outside::{Failed, FileList, Sink};

/// Puts the report of a fault: the line `FILE:LINE:COLUMN: CODE WORDS` with the item of E20 or the two accesses of a
/// clash behind it. The listed files are those that the fault's places number, from 0. It takes no memory.
///
/// `Failed` only where the sink's count of faults rose; a first part that is shorter than the line was put.
pub fn report<S: Sink>(fault: &Fault, files: &FileList, sink: &mut S) -> Result<(), Failed>
    requires { fault.now.place.file < length files.now }
    ensures faults_later { S.faults sink.old ≤ S.faults sink.new }
    ensures took { OnOk result (Took (S.taken sink.old) (S.taken sink.new) (report_of fault.now (name_at files.now fault.now.place.file))) }
    ensures part { OnErr result (TookPrefix (S.taken sink.old) (S.taken sink.new) (report_of fault.now (name_at files.now fault.now.place.file))) }
    ensures failed { OnErr result (Rose (S.faults sink.old) (S.faults sink.new)) }
{
    let file = files.name(fault.place.file as usize).unwrap();
    let so_far = put_bytes(file.as_bytes(), Ok(()), sink);
    let so_far = put_bytes(b":", so_far, sink);
    let so_far = put_position(fault.place, so_far, sink);
    let so_far = put_bytes(b": ", so_far, sink);
    let so_far = put_bytes(fault.code.text().as_bytes(), so_far, sink);
    let so_far = put_bytes(b" ", so_far, sink);
    let so_far = put_bytes(fault.code.meaning().as_bytes(), so_far, sink);
    let so_far = put_details(fault, so_far, sink);
    put_bytes(b"\n", so_far, sink)
}

// Puts what stands behind the words of a fault.
fn put_details<S: Sink>(
    fault: &Fault,
    so_far: Result<(), Failed>,
    sink: &mut S,
) -> Result<(), Failed>
    ensures { Put bytes_alone so_far result (S.taken sink.old) (S.taken sink.new) (S.faults sink.old) (S.faults sink.new) (λ k. details_text fault.now.code fault.now ++ k) }
{
    match fault.code {
        Code::E20 => put_item(fault.item, so_far, sink),
        Code::E61 | Code::E63 | Code::E66 => put_clash(fault, so_far, sink),
        _ => so_far,
    }
}

// Puts the item of what is left out of Fortran.
fn put_item<S: Sink>(item: u8, so_far: Result<(), Failed>, sink: &mut S) -> Result<(), Failed>
    ensures { Put bytes_alone so_far result (S.taken sink.old) (S.taken sink.new) (S.faults sink.old) (S.faults sink.new) (λ k. codes " " ++ (decimal item ++ k)) }
{
    let so_far = put_bytes(b" ", so_far, sink);
    put_decimal(item as u64, so_far, sink)
}

// Puts the two accesses of a clash, where there are any.
fn put_clash<S: Sink>(fault: &Fault, so_far: Result<(), Failed>, sink: &mut S) -> Result<(), Failed>
    ensures { Put bytes_alone so_far result (S.taken sink.old) (S.taken sink.new) (S.faults sink.old) (S.faults sink.new) (λ k. (access_text fault.now.first ++ access_text fault.now.second) ++ k) }
{
    let so_far = put_access(fault.first, so_far, sink);
    put_access(fault.second, so_far, sink)
}

// Puts an access, where there is one.
fn put_access<S: Sink>(
    access: Option<Place>,
    so_far: Result<(), Failed>,
    sink: &mut S,
) -> Result<(), Failed>
    ensures { Put bytes_alone so_far result (S.taken sink.old) (S.taken sink.new) (S.faults sink.old) (S.faults sink.new) (λ k. access_text access ++ k) }
{
    match access {
        None => so_far,
        Some(place) => {
            let so_far = put_bytes(b" ", so_far, sink);
            put_position(place, so_far, sink)
        }
    }
}

// Puts the line and the column of a place.
fn put_position<S: Sink>(
    place: Place,
    so_far: Result<(), Failed>,
    sink: &mut S,
) -> Result<(), Failed>
    ensures { Put bytes_alone so_far result (S.taken sink.old) (S.taken sink.new) (S.faults sink.old) (S.faults sink.new) (λ k. position_text place ++ k) }
{
    let so_far = put_decimal(place.line as u64, so_far, sink);
    let so_far = put_bytes(b":", so_far, sink);
    put_decimal(place.column as u64, so_far, sink)
}

// Puts a number in decimal digits.
fn put_decimal<S: Sink>(number: u64, so_far: Result<(), Failed>, sink: &mut S) -> Result<(), Failed>
    ensures { Put bytes_alone so_far result (S.taken sink.old) (S.taken sink.new) (S.faults sink.old) (S.faults sink.new) (λ k. decimal number ++ k) }
{
    let mut digits = Buffer::new();
    let text = digits.format(number);
    put_bytes(text.as_bytes(), so_far, sink)
}
