//! Units, modules and files (ISO/IEC 1539-1:2018 clauses 14 and 15).
ghost use Rattle.std.specs.Prelude.{◌≡◌, ◌≤◌, List, codes, false, map, slice_get};
ghost use Rattle.std.specs.Option.{option_copied};
ghost use Rattle.fort_spell.specs.Pieces.{Spelling, end_pieces, pair, word};
ghost use Rattle.fort_spell.specs.Rows.{Row, all_rows, deeper as deeper_than, laid, next_indent, one_row};
ghost use Rattle.fort_spell.specs.Statements.{stmts_rows};
ghost use Rattle.fort_spell.specs.Stream.{Put, rows_shown, starting};
ghost use Rattle.fort_spell.specs.Units.{bytes_pieces, chosen_unit, contained_rows, function_clause, has_some, implicit_rows, intent_pieces, intent_word, is_host, item_rows, kind_pieces, module_parts, module_rows, only_list, own_implicit_rows, parameter_pieces, parts_marked, result_of, routine_rows, routines_rows, shape_pieces, unit_rows, unit_word, units_of, value_pieces};

use crate::expressions::put_expr;
use crate::line::{Margin, Sentinel};
use crate::lists::{
    InRow, put_bracketed, put_end_row, put_items, put_pair_row, put_row, put_rows, put_word_row,
};
use crate::mark::Mark;
use crate::put::{Reached, close_row, open_row, put_mark, put_name, put_number, put_word};
use crate::statements::{are_written, deeper, put_body};
use fort_arith::Kind;
use fort_tree::{
    Bound, Decl, Directive, DirectiveWord, Expr, File, Intent, Item, Module, Name, Named, Stmt,
    Unit, Use,
};
use outside::{Failed, Sink};

/// Puts the names of a USE that brings some names only.
fn put_only_names<S: Sink>(
    names: &[Named],
    margin: Margin,
    reached: Reached,
    sink: &mut S,
) -> Reached
    requires { margin.indent ≤ 40 }
    ensures { Put (laid margin) reached result (S.taken sink.old) (S.taken sink.new) (S.faults sink.old) (S.faults sink.new) (only_list names.now) }
{
    let reached = put_mark(Mark::Comma, false, margin, reached, sink);
    let reached = put_word(b"only", true, margin, reached, sink);
    let reached = put_mark(Mark::Colon, false, margin, reached, sink);
    put_items(names, true, true, margin, reached, sink)
}

impl InRow for Use {
    ghost use Rattle.fort_spell.specs.Units.{use_pieces};

    ghost pieces = { use_pieces };

    fn put<S: Sink>(
        &self,
        spaced: bool,
        margin: Margin,
        reached: Reached,
        sink: &mut S,
    ) -> Reached {
        let reached = put_word(b"use", spaced, margin, reached, sink);
        let reached = put_name(&self.name, true, margin, reached, sink);
        match &self.only {
            None => reached,
            Some(names) => put_only_names(names.items(), margin, reached, sink),
        }
    }
}

/// Puts INTEGER of a kind that is not the default one.
fn put_integer<S: Sink>(
    bytes: u64,
    spaced: bool,
    margin: Margin,
    reached: Reached,
    sink: &mut S,
) -> Reached
    requires { margin.indent ≤ 40 }
    ensures { Put (laid margin) reached result (S.taken sink.old) (S.taken sink.new) (S.faults sink.old) (S.faults sink.new) (bytes_pieces bytes spaced) }
{
    let reached = put_word(b"integer", spaced, margin, reached, sink);
    let reached = put_mark(Mark::Open, false, margin, reached, sink);
    let reached = put_number(bytes, None, false, margin, reached, sink);
    put_mark(Mark::Close, false, margin, reached, sink)
}

/// Puts a type.
fn put_kind<S: Sink>(
    kind: Kind,
    spaced: bool,
    margin: Margin,
    reached: Reached,
    sink: &mut S,
) -> Reached
    requires { margin.indent ≤ 40 }
    ensures { Put (laid margin) reached result (S.taken sink.old) (S.taken sink.new) (S.faults sink.old) (S.faults sink.new) (kind_pieces kind spaced) }
{
    match kind {
        Kind::I1 => put_integer(1, spaced, margin, reached, sink),
        Kind::I2 => put_integer(2, spaced, margin, reached, sink),
        Kind::I4 => put_word(b"integer", spaced, margin, reached, sink),
        Kind::I8 => put_integer(8, spaced, margin, reached, sink),
        Kind::Logical => put_word(b"logical", spaced, margin, reached, sink),
    }
}

/// The word of an INTENT attribute.
fn intent_text(intent: Intent) -> &'static [u8]
    ensures { result.now ≡ intent_word intent }
{
    match intent {
        Intent::In => b"in",
        Intent::Out => b"out",
        Intent::InOut => b"inout",
    }
}

/// Puts the word of an INTENT attribute.
fn put_intent_word<S: Sink>(
    intent: Intent,
    margin: Margin,
    reached: Reached,
    sink: &mut S,
) -> Reached
    requires { margin.indent ≤ 40 }
    ensures { Put (laid margin) reached result (S.taken sink.old) (S.taken sink.new) (S.faults sink.old) (S.faults sink.new) (word false (intent_word intent)) }
{
    put_word(intent_text(intent), false, margin, reached, sink)
}

/// Puts an INTENT attribute, where one is given.
fn put_intent<S: Sink>(
    intent: Option<Intent>,
    margin: Margin,
    reached: Reached,
    sink: &mut S,
) -> Reached
    requires { margin.indent ≤ 40 }
    ensures { Put (laid margin) reached result (S.taken sink.old) (S.taken sink.new) (S.faults sink.old) (S.faults sink.new) (intent_pieces intent) }
{
    let Some(intent) = intent else {
        return reached;
    };
    let reached = put_mark(Mark::Comma, false, margin, reached, sink);
    let reached = put_word(b"intent", true, margin, reached, sink);
    let reached = put_mark(Mark::Open, false, margin, reached, sink);
    let reached = put_intent_word(intent, margin, reached, sink);
    put_mark(Mark::Close, false, margin, reached, sink)
}

/// Puts the PARAMETER attribute, where there is a value.
fn put_parameter<S: Sink>(
    value: &Option<Expr>,
    margin: Margin,
    reached: Reached,
    sink: &mut S,
) -> Reached
    requires { margin.indent ≤ 40 }
    ensures { Put (laid margin) reached result (S.taken sink.old) (S.taken sink.new) (S.faults sink.old) (S.faults sink.new) (parameter_pieces value.now) }
{
    match value {
        None => reached,
        Some(_) => {
            let reached = put_mark(Mark::Comma, false, margin, reached, sink);
            put_word(b"parameter", true, margin, reached, sink)
        }
    }
}

/// Puts a shape, where there is one.
fn put_shape<S: Sink>(shape: &[Bound], margin: Margin, reached: Reached, sink: &mut S) -> Reached
    requires { margin.indent ≤ 40 }
    ensures { Put (laid margin) reached result (S.taken sink.old) (S.taken sink.new) (S.faults sink.old) (S.faults sink.new) (shape_pieces shape.now) }
{
    if shape.is_empty() {
        return reached;
    }
    put_bracketed(shape, false, false, margin, reached, sink)
}

/// Puts the value of a PARAMETER, where there is one.
fn put_value<S: Sink>(
    value: &Option<Expr>,
    margin: Margin,
    reached: Reached,
    sink: &mut S,
) -> Reached
    requires { margin.indent ≤ 40 }
    ensures { Put (laid margin) reached result (S.taken sink.old) (S.taken sink.new) (S.faults sink.old) (S.faults sink.new) (value_pieces value.now) }
{
    match value {
        None => reached,
        Some(value) => {
            let reached = put_mark(Mark::Assign, true, margin, reached, sink);
            put_expr(value, true, margin, reached, sink)
        }
    }
}

impl InRow for Decl {
    ghost use Rattle.fort_spell.specs.Units.{decl_pieces};

    ghost pieces = { decl_pieces };

    fn put<S: Sink>(
        &self,
        spaced: bool,
        margin: Margin,
        reached: Reached,
        sink: &mut S,
    ) -> Reached {
        let reached = put_kind(self.kind, spaced, margin, reached, sink);
        let reached = put_parameter(&self.value, margin, reached, sink);
        let reached = put_intent(self.intent, margin, reached, sink);
        let reached = put_mark(Mark::Colons, true, margin, reached, sink);
        let reached = put_name(&self.name, true, margin, reached, sink);
        let reached = put_shape(self.shape.items(), margin, reached, sink);
        put_value(&self.value, margin, reached, sink)
    }
}

/// Puts the result of a function.
fn put_result_name<S: Sink>(
    result_name: &Name,
    margin: Margin,
    reached: Reached,
    sink: &mut S,
) -> Reached
    requires { margin.indent ≤ 40 }
    ensures { Put (laid margin) reached result (S.taken sink.old) (S.taken sink.new) (S.faults sink.old) (S.faults sink.new) (result_of result_name.now) }
{
    let reached = put_word(b"result", true, margin, reached, sink);
    let reached = put_mark(Mark::Open, false, margin, reached, sink);
    let reached = put_name(result_name, false, margin, reached, sink);
    put_mark(Mark::Close, false, margin, reached, sink)
}

/// Puts the result of a function, where it has another name.
fn put_result<S: Sink>(
    name: &Name,
    function_result: &Option<Named>,
    margin: Margin,
    reached: Reached,
    sink: &mut S,
) -> Reached
    requires { margin.indent ≤ 40 }
    ensures { Put (laid margin) reached result (S.taken sink.old) (S.taken sink.new) (S.faults sink.old) (S.faults sink.new) (function_clause name.now function_result.now) }
{
    match function_result {
        None => reached,
        Some(named) => {
            if named.name == *name {
                reached
            } else {
                put_result_name(&named.name, margin, reached, sink)
            }
        }
    }
}

/// The word that opens a unit.
fn opening_word(function_result: &Option<Named>) -> &'static [u8]
    ensures { result.now ≡ unit_word function_result.now }
{
    match function_result {
        None => b"subroutine",
        Some(_) => b"function",
    }
}

impl InRow for Unit {
    ghost use Rattle.fort_spell.specs.Units.{header_pieces};

    ghost pieces = { header_pieces };

    fn put<S: Sink>(
        &self,
        spaced: bool,
        margin: Margin,
        reached: Reached,
        sink: &mut S,
    ) -> Reached {
        let reached = put_word(opening_word(&self.result), spaced, margin, reached, sink);
        let reached = put_name(&self.name, true, margin, reached, sink);
        let reached = put_bracketed(self.dummies.items(), true, false, margin, reached, sink);
        put_result(&self.name, &self.result, margin, reached, sink)
    }
}

/// Puts `implicit none`.
fn put_implicit<S: Sink>(
    indent: usize,
    so_far: Result<(), Failed>,
    sink: &mut S,
) -> Result<(), Failed>
    requires { indent ≤ 40 }
    ensures { Put rows_shown so_far result (S.taken sink.old) (S.taken sink.new) (S.faults sink.old) (S.faults sink.new) (implicit_rows indent) }
{
    put_pair_row(b"implicit", b"none", indent, so_far, sink)
}

/// Puts `implicit none` of a unit in no module.
fn put_own_implicit<S: Sink>(
    host: Option<u32>,
    indent: usize,
    so_far: Result<(), Failed>,
    sink: &mut S,
) -> Result<(), Failed>
    requires { indent ≤ 40 }
    ensures { Put rows_shown so_far result (S.taken sink.old) (S.taken sink.new) (S.faults sink.old) (S.faults sink.new) (own_implicit_rows host indent) }
{
    match host {
        None => put_implicit(indent, so_far, sink),
        Some(_) => so_far,
    }
}

/// Puts the mark line of a routine.
fn put_routine_row<S: Sink>(
    indent: usize,
    so_far: Result<(), Failed>,
    sink: &mut S,
) -> Result<(), Failed>
    requires { indent ≤ 40 }
    ensures { Put rows_shown so_far result (S.taken sink.old) (S.taken sink.new) (S.faults sink.old) (S.faults sink.new) (routine_rows DirectiveWord.Routine indent) }
{
    let margin = Margin {
        indent,
        sentinel: Sentinel::OpenAcc,
    };
    let reached = open_row(margin, so_far, sink);
    let reached = put_word(b"routine", false, margin, reached, sink);
    let reached = put_word(b"seq", true, margin, reached, sink);
    close_row(reached, sink)
}

/// Puts the mark line of a unit's directive. Only that of a routine has one.
fn put_routine<S: Sink>(
    word: DirectiveWord,
    indent: usize,
    so_far: Result<(), Failed>,
    sink: &mut S,
) -> Result<(), Failed>
    requires { indent ≤ 40 }
    ensures { Put rows_shown so_far result (S.taken sink.old) (S.taken sink.new) (S.faults sink.old) (S.faults sink.new) (routine_rows word indent) }
{
    match word {
        DirectiveWord::Routine => put_routine_row(indent, so_far, sink),
        _ => so_far,
    }
}

fn put_routines<S: Sink>(
    marks: &[Directive],
    indent: usize,
    so_far: Result<(), Failed>,
    sink: &mut S,
) -> Result<(), Failed>
    requires { indent ≤ 40 }
    ensures { Put rows_shown so_far result (S.taken sink.old) (S.taken sink.new) (S.faults sink.old) (S.faults sink.new) (routines_rows marks.now indent) }
{
    let mut so_far = so_far;
    for mark in marks {
        so_far = put_routine(mark.word, indent, so_far, sink);
    }
    so_far
}

/// The indentation of a unit's mark line: that of the next line. Before statements that have no row it is the unit's END line.
fn mark_indent(body: &[Stmt], indent: usize) -> usize
    requires { indent ≤ 40 }
    ensures value { (end : Spelling) (rs : List Row) → next_indent (stmts_rows body.now (deeper_than indent) (one_row end indent rs)) ≡ result }
    ensures most { result ≤ 40 }
{
    if are_written(body) {
        deeper(indent)
    } else {
        indent
    }
}

/// Puts what stands in a unit, its mark line at an indentation of its own.
fn put_unit_parts<S: Sink>(
    unit: &Unit,
    mark: usize,
    indent: usize,
    so_far: Result<(), Failed>,
    sink: &mut S,
) -> Result<(), Failed>
    requires indent { indent ≤ 40 }
    requires mark { mark ≤ 40 }
    ensures { Put rows_shown so_far result (S.taken sink.old) (S.taken sink.new) (S.faults sink.old) (S.faults sink.new) (parts_marked mark unit.now indent) }
{
    let so_far = put_rows(unit.uses.items(), indent, so_far, sink);
    let so_far = put_own_implicit(unit.host, indent, so_far, sink);
    let so_far = put_rows(unit.decls.items(), indent, so_far, sink);
    let so_far = put_routines(unit.marks.items(), mark, so_far, sink);
    put_body(unit.body.items(), indent, so_far, sink)
}

fn put_unit_inside<S: Sink>(
    unit: &Unit,
    mark: usize,
    indent: usize,
    so_far: Result<(), Failed>,
    sink: &mut S,
) -> Result<(), Failed>
    requires indent { indent ≤ 40 }
    requires mark { mark ≤ 40 }
    ensures { Put rows_shown so_far result (S.taken sink.old) (S.taken sink.new) (S.faults sink.old) (S.faults sink.new) (parts_marked mark unit.now (deeper_than indent)) }
{
    put_unit_parts(unit, mark, deeper(indent), so_far, sink)
}

fn put_unit_end<S: Sink>(
    unit: &Unit,
    indent: usize,
    so_far: Result<(), Failed>,
    sink: &mut S,
) -> Result<(), Failed>
    requires { indent ≤ 40 }
    ensures { Put rows_shown so_far result (S.taken sink.old) (S.taken sink.new) (S.faults sink.old) (S.faults sink.new) (one_row (end_pieces (unit_word unit.now.result) unit.now.name) indent) }
{
    put_end_row(opening_word(&unit.result), &unit.name, indent, so_far, sink)
}

/// Puts a unit.
fn put_unit<S: Sink>(
    unit: &Unit,
    indent: usize,
    so_far: Result<(), Failed>,
    sink: &mut S,
) -> Result<(), Failed>
    requires { indent ≤ 40 }
    ensures { Put rows_shown so_far result (S.taken sink.old) (S.taken sink.new) (S.faults sink.old) (S.faults sink.new) (unit_rows unit.now indent) }
{
    let mark = mark_indent(unit.body.items(), indent);
    let so_far = put_row(unit, indent, so_far, sink);
    let so_far = put_unit_inside(unit, mark, indent, so_far, sink);
    put_unit_end(unit, indent, so_far, sink)
}

/// Whether a unit is of the module.
fn is_hosted(number: u32, host: Option<u32>) -> bool
    ensures { result ≡ is_host number host }
{
    match host {
        None => false,
        Some(host) => host == number,
    }
}

/// Whether the module has units.
fn has_units(number: u32, units: &[Unit]) -> bool
    ensures { result ≡ has_some (units_of number units.now) }
{
    for unit in units {
        if is_hosted(number, unit.host) {
            return true;
        }
    }
    false
}

/// Puts a unit, where it is of the module.
fn put_if_hosted<S: Sink>(
    number: u32,
    unit: &Unit,
    indent: usize,
    so_far: Result<(), Failed>,
    sink: &mut S,
) -> Result<(), Failed>
    requires { indent ≤ 40 }
    ensures { Put rows_shown so_far result (S.taken sink.old) (S.taken sink.new) (S.faults sink.old) (S.faults sink.new) (chosen_unit (is_host number unit.now.host) unit.now indent) }
{
    if is_hosted(number, unit.host) {
        put_unit(unit, indent, so_far, sink)
    } else {
        so_far
    }
}

/// Puts the units of a module.
fn put_hosted<S: Sink>(
    number: u32,
    units: &[Unit],
    indent: usize,
    so_far: Result<(), Failed>,
    sink: &mut S,
) -> Result<(), Failed>
    requires { indent ≤ 40 }
    ensures { Put rows_shown so_far result (S.taken sink.old) (S.taken sink.new) (S.faults sink.old) (S.faults sink.new) (all_rows (map unit_rows (units_of number units.now)) indent) }
{
    let mut so_far = so_far;
    for unit in units {
        so_far = put_if_hosted(number, unit, indent, so_far, sink);
    }
    so_far
}

fn put_hosted_inside<S: Sink>(
    number: u32,
    units: &[Unit],
    indent: usize,
    so_far: Result<(), Failed>,
    sink: &mut S,
) -> Result<(), Failed>
    requires { indent ≤ 40 }
    ensures { Put rows_shown so_far result (S.taken sink.old) (S.taken sink.new) (S.faults sink.old) (S.faults sink.new) (all_rows (map unit_rows (units_of number units.now)) (deeper_than indent)) }
{
    put_hosted(number, units, deeper(indent), so_far, sink)
}

/// Puts `contains` and the units of a module, where it has units.
fn put_contained<S: Sink>(
    number: u32,
    units: &[Unit],
    indent: usize,
    so_far: Result<(), Failed>,
    sink: &mut S,
) -> Result<(), Failed>
    requires { indent ≤ 40 }
    ensures { Put rows_shown so_far result (S.taken sink.old) (S.taken sink.new) (S.faults sink.old) (S.faults sink.new) (contained_rows (units_of number units.now) indent) }
{
    if has_units(number, units) {
        let so_far = put_word_row(b"contains", indent, so_far, sink);
        put_hosted_inside(number, units, indent, so_far, sink)
    } else {
        so_far
    }
}

/// Puts what stands in a module before its units.
fn put_module_parts<S: Sink>(
    host: &Module,
    indent: usize,
    so_far: Result<(), Failed>,
    sink: &mut S,
) -> Result<(), Failed>
    requires { indent ≤ 40 }
    ensures { Put rows_shown so_far result (S.taken sink.old) (S.taken sink.new) (S.faults sink.old) (S.faults sink.new) (module_parts host.now indent) }
{
    let so_far = put_rows(host.uses.items(), indent, so_far, sink);
    let so_far = put_implicit(indent, so_far, sink);
    put_rows(host.decls.items(), indent, so_far, sink)
}

fn put_module_inside<S: Sink>(
    host: &Module,
    indent: usize,
    so_far: Result<(), Failed>,
    sink: &mut S,
) -> Result<(), Failed>
    requires { indent ≤ 40 }
    ensures { Put rows_shown so_far result (S.taken sink.old) (S.taken sink.new) (S.faults sink.old) (S.faults sink.new) (module_parts host.now (deeper_than indent)) }
{
    put_module_parts(host, deeper(indent), so_far, sink)
}

fn put_module_row<S: Sink>(
    name: &Name,
    indent: usize,
    so_far: Result<(), Failed>,
    sink: &mut S,
) -> Result<(), Failed>
    requires { indent ≤ 40 }
    ensures { Put rows_shown so_far result (S.taken sink.old) (S.taken sink.new) (S.faults sink.old) (S.faults sink.new) (one_row (pair (codes "module") name.now) indent) }
{
    put_pair_row(b"module", name.text(), indent, so_far, sink)
}

/// Puts a module with its units.
fn put_module<S: Sink>(
    number: u32,
    host: &Module,
    units: &[Unit],
    indent: usize,
    so_far: Result<(), Failed>,
    sink: &mut S,
) -> Result<(), Failed>
    requires { indent ≤ 40 }
    ensures { Put rows_shown so_far result (S.taken sink.old) (S.taken sink.new) (S.faults sink.old) (S.faults sink.new) (module_rows (units_of number units.now) host.now indent) }
{
    let so_far = put_module_row(&host.name, indent, so_far, sink);
    let so_far = put_module_inside(host, indent, so_far, sink);
    let so_far = put_contained(number, units, indent, so_far, sink);
    put_end_row(b"module", &host.name, indent, so_far, sink)
}

fn module_at(modules: &[Module], number: u32) -> Option<&Module>
    ensures { option_copied result ≡ slice_get modules.now number }
{
    modules.get(number as usize)
}

fn unit_at(units: &[Unit], number: u32) -> Option<&Unit>
    ensures { option_copied result ≡ slice_get units.now number }
{
    units.get(number as usize)
}

/// Puts an item of a file's top level. An index past the end stands for nothing.
fn put_item<S: Sink>(
    file: &File,
    item: &Item,
    so_far: Result<(), Failed>,
    sink: &mut S,
) -> Result<(), Failed>
    ensures { Put rows_shown so_far result (S.taken sink.old) (S.taken sink.new) (S.faults sink.old) (S.faults sink.new) (item_rows file.now item.now 0) }
{
    match *item {
        Item::Module(number) => match module_at(file.modules.items(), number) {
            None => so_far,
            Some(host) => put_module(number, host, file.units.items(), 0, so_far, sink),
        },
        Item::Unit(number) => match unit_at(file.units.items(), number) {
            None => so_far,
            Some(unit) => put_unit(unit, 0, so_far, sink),
        },
    }
}

/// Puts items of a file's top level.
fn put_order<S: Sink>(
    file: &File,
    order: &[Item],
    so_far: Result<(), Failed>,
    sink: &mut S,
) -> Result<(), Failed>
    ensures { Put rows_shown so_far result (S.taken sink.old) (S.taken sink.new) (S.faults sink.old) (S.faults sink.new) (all_rows (map (item_rows file.now) order.now) 0) }
{
    let mut so_far = so_far;
    for item in order {
        so_far = put_item(file, item, so_far, sink);
    }
    so_far
}

/// Puts all items of a file.
pub fn put_file<S: Sink>(file: &File, sink: &mut S) -> Result<(), Failed>
    ensures { Put rows_shown (starting {E = Failed}) result (S.taken sink.old) (S.taken sink.new) (S.faults sink.old) (S.faults sink.new) (all_rows (map (item_rows file.now) file.now.order) 0) }
{
    put_order(file, file.order.items(), Ok(()), sink)
}
