//! The row of each instruction of flat code: what it asks to be made, what it moves, and where it goes on.
ghost use Rattle.std.specs.Prelude.{◌≡◌, ◌==◌, ◌<◌, [], Some, IfOk, IfSome, length};
ghost use Rattle.std.specs.List.{position_from};
ghost use Rattle.std.specs.Option.{option_copied};
ghost use Rattle.class_model.specs.declared.frame.Frame.{Frame};
ghost use Rattle.class_tree.specs.Headers.{headers_of};
ghost use Rattle.flow_code.specs.FlatCode.{FlatCode};
ghost use Rattle.member_link.specs.Machine.Links.{AreLinksOf};
ghost use Rattle.member_link.specs.Machine.Programs.{Links};
ghost use Rattle.member_link.specs.Rows.ShuffleRows.{form_in, forms_of};
ghost use Rattle.member_link.specs.Signatures.{result_of};
ghost use Rattle.member_link.specs.Machine.CallSteps.{is_object_init};
ghost use Rattle.plan_flow.specs.Inner.RowViews.{asked_by, change_of, described_row, given_by, plan_row};
ghost use Rattle.plan_flow.specs.Narrow.{HasFewLocals, IsNarrow};
ghost use Rattle.plan_flow.specs.PlanScope.{scope_of, site_at as site_of_point};
ghost use Rattle.plan_flow.specs.PlanTable as tables;

use crate::arithmetic::{divide_operands, float_operands, pure_operands};
use crate::constants::{class_named, dynamic_descriptor, member_of};
use crate::fields::{field_of, is_of_library};
use crate::rows::{Asks, Change, Gives, Guard, Row, Source, operand};
use crate::shuffles::form_on;
use class_model::opcodes::{IF_ACMPEQ, IFNULL, INVOKESTATIC};
use class_model::{Frame, INIT, Instr, Kind, NoMemory, Text};
use class_tree::{OBJECT, Tree};
use flow_code::{Flat, FlatInstr, Site};
use member_link::{Reference, parameter_count, result_text};

/// The row of an instruction at a point with these types.
///
/// # Errors
/// `NoMemory`, where memory runs out.
pub(crate) fn row_at(
    tree: &Tree,
    flat: &Flat,
    at: usize,
    types: &Frame,
    instr: &FlatInstr,
) -> Result<Row, NoMemory>
    requires narrow { IsNarrow flat.now }
    requires types { HasFewLocals types.now }
    ensures { IfOk result (λ row. (links : Links)
        → AreLinksOf (headers_of tree.now) links
        → plan_row types.now row
        ≡ tables.row_at (scope_of tree.now links flat.now) at types.now instr.now) }
{
    match instr {
        FlatInstr::Of { class, instr } => instr_row(tree, flat, at, types, *class, instr),
        FlatInstr::NullTest(local) => Ok(Row {
            throws: Some(Guard::Plain(usize::from(*local))),
            ..Row::moving(types, 0, Gives::Nothing)
        }),
    }
}

// The row of an instruction of a class, by the class's number.
fn instr_row(
    tree: &Tree,
    flat: &Flat,
    at: usize,
    types: &Frame,
    class: usize,
    instr: &Instr,
) -> Result<Row, NoMemory>
    requires narrow { IsNarrow flat.now }
    requires types { HasFewLocals types.now }
    ensures { IfOk result (λ row. (links : Links)
        → AreLinksOf (headers_of tree.now) links
        → plan_row types.now row
        ≡ tables.instr_row (scope_of tree.now links flat.now) at types.now class instr.now) }
{
    match instr {
        Instr::GetField(index) => Ok(get_field_row(tree, types, field_of(tree, class, *index)?)),
        Instr::PutField(index) => Ok(put_field_row(tree, types, field_of(tree, class, *index)?)),
        Instr::Invoke(opcode, index, _) => {
            Ok(call_row(types, *opcode, member_of(tree, class, *index)?))
        }
        Instr::Dynamic(index) => Ok(dynamic_row(types, dynamic_descriptor(tree, class, *index))),
        Instr::New(_) => Ok(new_row(types, site_at(flat, at))),
        Instr::Cast(index) => Ok(cast_row(types, class_named(tree, class, *index))?),
        Instr::Store(_, local) => Ok(store_row(types, *local)),
        Instr::Shuffle(opcode) => Ok(shuffle_row(types, *opcode)),
        Instr::IfSame(opcode, _) => Ok(same_row(types, *opcode)),
        Instr::IfNull(opcode, _) => Ok(null_row(types, *opcode)),
        Instr::Return(kind) => Ok(return_row(types, *kind)),
        Instr::Enter => Ok(monitor_row(types, Change::Enter(operand(types, 0)))),
        Instr::Leave => Ok(monitor_row(types, Change::Leave(operand(types, 0)))),
        Instr::ArrayStore(_) => Ok(asking_row(types, 3)),
        Instr::PutStatic(_) => Ok(asking_row(types, 1)),
        Instr::Throw => Ok(asking_row(types, 1)),
        Instr::Nop | Instr::Iinc(_, _) | Instr::Goto(_) => {
            Ok(Row::moving(types, 0, Gives::Nothing))
        }
        Instr::If(_, _) | Instr::Table { .. } | Instr::Lookup { .. } => {
            Ok(Row::moving(types, 1, Gives::Nothing))
        }
        Instr::If2(_, _) => Ok(Row::moving(types, 2, Gives::Nothing)),
        Instr::Const(_) | Instr::Ldc(_) | Instr::Ldc2(_) | Instr::GetStatic(_) => {
            Ok(Row::moving(types, 0, Gives::One(Source::Plain)))
        }
        Instr::Load(_, local) => Ok(Row::moving(
            types,
            0,
            Gives::One(Source::Place(usize::from(*local))),
        )),
        Instr::Pure(opcode) => Ok(Row::moving(
            types,
            pure_operands(*opcode),
            Gives::One(Source::Plain),
        )),
        Instr::FloatAsk(opcode) => Ok(Row::moving(
            types,
            float_operands(*opcode),
            Gives::One(Source::Plain),
        )),
        Instr::InstanceOf(_) => Ok(Row::moving(types, 1, Gives::One(Source::Plain))),
        Instr::Divide(opcode) => Ok(Row::throwing(
            types,
            divide_operands(*opcode),
            Gives::One(Source::Plain),
        )),
        Instr::ArrayLoad(_) => Ok(Row::throwing(types, 2, Gives::One(Source::Plain))),
        Instr::NewArray(_) | Instr::NewRefArray(_) | Instr::Length => {
            Ok(Row::throwing(types, 1, Gives::One(Source::Plain)))
        }
        Instr::NewMulti(_, dimensions) => Ok(Row::throwing(
            types,
            usize::from(*dimensions),
            Gives::One(Source::Plain),
        )),
    }
}

// Of one that takes so many operands, asks for the topmost to be made and may throw.
fn asking_row(types: &Frame, takes: usize) -> Row
    ensures { plan_row types.now result
        ≡ record (tables.throwing types.now takes []) { asks = tables.handed_over types.now 1 } }
{
    Row {
        asks: Asks::Operands(1),
        ..Row::throwing(types, takes, Gives::Nothing)
    }
}

// Of a getfield of a field, by the class that declares it.
fn get_field_row(tree: &Tree, types: &Frame, field: Option<Reference>) -> Row
    requires { HasFewLocals types.now }
    ensures { (links : Links) (flat : FlatCode)
        → plan_row types.now result
        ≡ tables.get_field_row (scope_of tree.now links flat) types.now field }
{
    let Some(field) = field else {
        return Row::moving(types, 1, Gives::One(Source::Plain));
    };
    let place = operand(types, 0);
    Row {
        asks: library_operands(tree, &field, 1),
        throws: Some(Guard::Plain(place)),
        ..Row::moving(types, 1, Gives::One(Source::Field { place, field }))
    }
}

// Of a putfield of a field, by the class that declares it.
fn put_field_row(tree: &Tree, types: &Frame, field: Option<Reference>) -> Row
    requires { HasFewLocals types.now }
    ensures { (links : Links) (flat : FlatCode)
        → plan_row types.now result
        ≡ tables.put_field_row (scope_of tree.now links flat) types.now field }
{
    let Some(field) = field else {
        return Row::moving(types, 2, Gives::Nothing);
    };
    let place = operand(types, 1);
    Row {
        asks: library_operands(tree, &field, 2),
        throws: Some(Guard::Plain(place)),
        change: Change::Put {
            place,
            field,
            value: operand(types, 0),
        },
        ..Row::moving(types, 2, Gives::Nothing)
    }
}

// So many operands, if a class of the library declares the field.
fn library_operands(tree: &Tree, field: &Reference, count: usize) -> Asks
    ensures { (f : Frame) (links : Links) (flat : FlatCode)
        → asked_by f result ≡ tables.library_operands (scope_of tree.now links flat) f field.now count }
{
    if is_of_library(tree, field) {
        Asks::Operands(count)
    } else {
        Asks::Operands(0)
    }
}

// Of a call of a method.
fn call_row(types: &Frame, opcode: u8, method: Option<Reference>) -> Row
    ensures { plan_row types.now result ≡ tables.call_row types.now opcode method }
{
    let Some(method) = method else {
        return Row::throwing(types, 0, Gives::Nothing);
    };
    if is_object_init(&method) {
        return Row::moving(types, 1, Gives::Nothing);
    }
    let desc = method.desc.bytes();
    calling(types, parameter_count(desc) + receivers(opcode), desc)
}

// Whether a method is the instance initialiser of java/lang/Object, which does nothing.
fn is_object_init(method: &Reference) -> bool
    ensures { result ≡ is_object_init method.now }
{
    method.class.bytes() == OBJECT && method.name.bytes() == INIT
}

// How many operands a call takes besides its arguments.
fn receivers(opcode: u8) -> usize
    ensures { result ≡ tables.receivers opcode }
{
    if opcode == INVOKESTATIC { 0 } else { 1 }
}

// Of a call of so many operands, with the result of a descriptor.
fn calling(types: &Frame, takes: usize, desc: &[u8]) -> Row
    ensures { plan_row types.now result ≡ tables.calling types.now takes desc.now }
{
    Row {
        asks: Asks::Operands(takes),
        ..Row::throwing(types, takes, result_given(desc))
    }
}

// What a call gives.
fn result_given(desc: &[u8]) -> Gives
    ensures { (f : Frame) → given_by f result ≡ tables.result_given (result_of desc.now) }
{
    if result_text(desc).is_some() {
        Gives::One(Source::Plain)
    } else {
        Gives::Nothing
    }
}

// Of an invokedynamic with a descriptor.
fn dynamic_row(types: &Frame, desc: Option<&Text>) -> Row
    ensures { plan_row types.now result ≡ described_row types.now (option_copied desc.entry) }
{
    match desc {
        Some(desc) => calling(types, parameter_count(desc.bytes()), desc.bytes()),
        None => Row::throwing(types, 0, Gives::Nothing),
    }
}

// Of a new, by the site of its point, if it is one.
fn new_row(types: &Frame, site: Option<u16>) -> Row
    ensures { plan_row types.now result ≡ tables.new_row types.now site }
{
    match site {
        Some(site) => Row {
            change: Change::New(site),
            ..Row::moving(types, 0, Gives::One(Source::New))
        },
        None => Row::moving(types, 0, Gives::One(Source::Plain)),
    }
}

/// The number of the site of the new at a point, if there is one. It goes over the sites.
pub fn site_at(flat: &Flat, at: usize) -> Option<u16>
    requires { IsNarrow flat.now }
    ensures { result ≡ site_of_point flat.now at }
{
    match site_number(flat.sites().as_slice(), at) {
        Some(number) => Some(number as u16),
        None => None,
    }
}

// The number of the first site at a point.
fn site_number(sites: &[Site], at: usize) -> Option<usize>
    ensures is { result ≡ position_from (λ site. site.at == at) 0 sites.now }
    ensures few { IfSome result (λ number. number < length sites.now) }
{
    sites.iter().position(|site| is_at(site, at))
}

// Whether a site is at a point.
fn is_at(site: &Site, at: usize) -> bool
    ensures { result ≡ (site.now.at == at) }
{
    site.at == at
}

// Of a cast to a class.
fn cast_row(types: &Frame, class: Option<&Text>) -> Result<Row, NoMemory>
    requires { HasFewLocals types.now }
    ensures { IfOk result
        (λ row. plan_row types.now row ≡ tables.cast_row types.now (option_copied class.entry)) }
{
    let Some(class) = class else {
        return Ok(Row::moving(types, 1, Gives::One(Source::Plain)));
    };
    let place = operand(types, 0);
    Ok(Row {
        asks: Asks::NotBelow(class.copy()?),
        throws: Some(Guard::Plain(place)),
        ..Row::moving(types, 1, Gives::One(Source::Place(place)))
    })
}

// Of a monitorenter or monitorexit.
fn monitor_row(types: &Frame, change: Change) -> Row
    requires { HasFewLocals types.now }
    ensures { plan_row types.now result ≡ tables.monitor_row types.now (change_of change) }
{
    Row {
        change,
        throws: Some(Guard::Plain(operand(types, 0))),
        ..Row::moving(types, 1, Gives::Nothing)
    }
}

// Of an instruction that moves stack entries.
fn shuffle_row(types: &Frame, opcode: u8) -> Row
    ensures { plan_row types.now result
        ≡ tables.shuffle_row types.now (form_in (forms_of opcode) types.now.stack) }
{
    match form_on(opcode, types.stack.as_slice()) {
        Some(form) => Row::moving(types, form.takes.len(), Gives::Operands(form)),
        None => Row::moving(types, 0, Gives::Nothing),
    }
}

// Of a jump by a test of a reference against null: a virtual object is not null.
fn null_row(types: &Frame, opcode: u8) -> Row
    requires { HasFewLocals types.now }
    ensures { plan_row types.now result ≡ tables.null_row types.now opcode }
{
    let guard = Guard::Plain(operand(types, 0));
    let row = Row::moving(types, 1, Gives::Nothing);
    if opcode == IFNULL {
        Row { jump: guard, ..row }
    } else {
        Row { next: guard, ..row }
    }
}

// Of a jump by a test of two references: a virtual object is the same as itself, and as nothing else.
fn same_row(types: &Frame, opcode: u8) -> Row
    requires { HasFewLocals types.now }
    ensures { plan_row types.now result ≡ tables.same_row types.now opcode }
{
    let (one, other) = (operand(types, 1), operand(types, 0));
    let same = Guard::Same(one, other);
    let different = Guard::Different(one, other);
    let row = Row::moving(types, 2, Gives::Nothing);
    if opcode == IF_ACMPEQ {
        Row {
            jump: same,
            next: different,
            ..row
        }
    } else {
        Row {
            jump: different,
            next: same,
            ..row
        }
    }
}

// Of a store into a local unit.
fn store_row(types: &Frame, local: u16) -> Row
    ensures { plan_row types.now result ≡ tables.store_row types.now local }
{
    Row {
        stored: Some(local),
        ..Row::moving(types, 1, Gives::Nothing)
    }
}

// Of a return of a value of a kind, or of none.
fn return_row(types: &Frame, kind: Option<Kind>) -> Row
    ensures { plan_row types.now result ≡ tables.return_row types.now kind }
{
    match kind {
        Some(_) => Row {
            asks: Asks::Operands(1),
            ..Row::moving(types, 1, Gives::Nothing)
        },
        None => Row::moving(types, 0, Gives::Nothing),
    }
}
