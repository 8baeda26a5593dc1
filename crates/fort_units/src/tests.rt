use crate::{
    Item, faults_stand_in_files, file, forms_that_nest_have_no_fault, forms_without_fault_nest,
    lines_that_nest_are_a_program, nesting_by_example, nesting_fault, programs_stand_in_files,
};
use fort_stmt::{ActionSort, Sort};
use fort_tree::{Code, DirectiveWord, EndWord, Fault, Mode, Name, Place, Seq};
use std::test::Fail;

fn on(file: u32, line: u32) -> Place {
    Place {
        file,
        line,
        column: 1,
    }
}

fn says(line: u32, sort: Sort) -> Item {
    Item::Statement(on(0, line), sort)
}

fn directs(line: u32, word: DirectiveWord) -> Item {
    Item::Directive {
        at: on(0, line),
        within: false,
        word,
    }
}

/// The line of the first fault; 0 where there is none.
fn line_of(first: Option<Fault>) -> u32 {
    match first {
        None => 0,
        Some(fault) => fault.place.line,
    }
}

fn is(first: Option<Fault>, code: Code) -> bool {
    match first {
        None => false,
        Some(fault) => fault.code == code,
    }
}

#[test]
fn laws_return(rt: HostRuntime) {
    faults_stand_in_files();
    programs_stand_in_files();
    forms_without_fault_nest();
    forms_that_nest_have_no_fault();
    lines_that_nest_are_a_program();
    nesting_by_example();
}

#[test]
fn a_sound_unit(rt: HostRuntime) -> Result<(), Fail> {
    let name = Name::read(b"s").ok_or("name")?;
    let items = [
        says(1, Sort::Subroutine(name)),
        directs(2, DirectiveWord::Define),
        directs(2, DirectiveWord::Parallelize),
        says(3, Sort::Declare),
        directs(4, DirectiveWord::Fusion),
        says(5, Sort::Do),
        says(6, Sort::IfAct(ActionSort::Exit)),
        says(7, Sort::EndDo),
        says(8, Sort::End(Some(EndWord::Subroutine), Some(name))),
    ];
    let first = nesting_fault(rt.alloc(), Mode::Source, &items)?;
    assert_eq!(rt; line_of(first), 0);
    Ok(())
}

#[test]
fn the_first_of_two(rt: HostRuntime) -> Result<(), Fail> {
    let name = Name::read(b"s").ok_or("name")?;
    let items = [
        says(1, Sort::Subroutine(name)),
        directs(2, DirectiveWord::Define),
        says(3, Sort::EndDo),
        says(4, Sort::End(None, None)),
    ];
    let first = nesting_fault(rt.alloc(), Mode::Source, &items)?;
    assert_eq!(rt; line_of(first), 2);
    assert!(rt; is(first, Code::E41));
    Ok(())
}

#[test]
fn a_file_that_ends_in_a_unit(rt: HostRuntime) -> Result<(), Fail> {
    let name = Name::read(b"s").ok_or("name")?;
    let items = [
        says(1, Sort::Subroutine(name)),
        Item::Absent(on(0, 7)),
        Item::Statement(on(1, 1), Sort::End(None, None)),
    ];
    let first = nesting_fault(rt.alloc(), Mode::Source, &items)?;
    assert_eq!(rt; line_of(first), 7);
    assert!(rt; is(first, Code::E11));
    Ok(())
}

#[test]
fn no_lines(rt: HostRuntime) {
    let program = file(rt.alloc(), &Seq::new(rt.alloc()));
    assert!(rt; program.is_ok());
}
