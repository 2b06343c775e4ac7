//! Operands that ask the constant pool or the number of locals (JVM Specification SE 8, 4.9.1).
ghost use Rattle.std.specs.Prelude.{◌≡◌, ◌↔◌, ◌<◌, ◌^◌, IfSome, IsTrue};
ghost use Rattle.class_model.specs.Answers.{Tells};
ghost use Rattle.class_model.specs.Code.{operand_checks, IsLoadable, IsLoadable2, IsDynamicConstant, OperandFits, FitsLocal, IsCalled, CountsArguments, FitsArray, HasDimensions};
ghost use Rattle.class_model.specs.Pool.{constant_at};
ghost use Rattle.class_model.specs.PoolChecks.{IsFieldConstant, IsClassAt, class_at, descriptor_at};

use crate::home::Home;
use class_model::opcodes::{INVOKEINTERFACE, INVOKESPECIAL, INVOKESTATIC, INVOKEVIRTUAL};
use class_model::{
    ClassFault, Const, FileRule, Instr, Kind, Placed, Pool, dimensions, is_array_type,
};

/// Checks the operands of a code's instructions, by offset; the code stands at this place.
pub(crate) fn check_operands(
    home: &Home<'_>,
    max_locals: u16,
    code: &[Placed],
    start: u64,
) -> Result<(), ClassFault>
    requires shapes { home.now.shapes.now ≡ home.now.pool.now }
    requires fits { start < 2 ^ 63 }
    ensures { Tells (operand_checks start home.now.pool.now home.now.major max_locals code.now)
        (λ done. Unit {0}) result }
{
    for placed in code {
        if !fits(home, max_locals, &placed.instr) {
            return Err(ClassFault::Malformed {
                at: start + u64::from(placed.at),
                rule: FileRule::Operand,
            });
        }
    }
    Ok(())
}

// Whether an instruction's operands fit the pool and the locals.
fn fits(home: &Home<'_>, max_locals: u16, instr: &Instr) -> bool
    requires { home.now.shapes.now ≡ home.now.pool.now }
    ensures { IsTrue result
        ↔ OperandFits home.now.pool.now home.now.major max_locals instr.now }
{
    let pool = home.pool;
    match instr {
        Instr::Ldc(index) => is_loadable(pool, *index),
        Instr::Ldc2(index) => is_wide_loadable(pool, *index),
        Instr::Load(kind, local) | Instr::Store(kind, local) => {
            fits_local(max_locals, *kind, *local)
        }
        Instr::Iinc(local, _) => fits_local(max_locals, Kind::Int, *local),
        Instr::GetStatic(index)
        | Instr::PutStatic(index)
        | Instr::GetField(index)
        | Instr::PutField(index) => is_field(pool, *index),
        Instr::Invoke(opcode, method, count) => is_called(home, *opcode, *method, *count),
        Instr::Dynamic(index) => is_dynamic(pool, *index),
        Instr::New(index) | Instr::Cast(index) | Instr::InstanceOf(index) => {
            is_class(pool, *index)
        }
        Instr::NewRefArray(index) => is_component(pool, *index),
        Instr::NewMulti(index, dimensions) => is_multi_array(pool, *index, *dimensions),
        _ => true,
    }
}

// Whether an index names a constant that ldc may load.
fn is_loadable(pool: &Pool, index: u16) -> bool
    ensures { IsTrue result ↔ IsLoadable (constant_at pool.now index) }
{
    matches!(
        pool.get(index),
        Some(
            Const::Integer(_)
                | Const::Float(_)
                | Const::String(_)
                | Const::Class(_)
                | Const::MethodHandle(..)
                | Const::MethodType(_)
        )
    )
}

// Whether an index names a constant that ldc2_w may load.
fn is_wide_loadable(pool: &Pool, index: u16) -> bool
    ensures { IsTrue result ↔ IsLoadable2 (constant_at pool.now index) }
{
    matches!(pool.get(index), Some(Const::Long(_) | Const::Double(_)))
}

// Whether an index names a field.
fn is_field(pool: &Pool, index: u16) -> bool
    ensures { IsTrue result ↔ IsFieldConstant (constant_at pool.now index) }
{
    matches!(pool.get(index), Some(Const::Fieldref(..)))
}

// Whether an index names a call site.
fn is_dynamic(pool: &Pool, index: u16) -> bool
    ensures { IsTrue result ↔ IsDynamicConstant (constant_at pool.now index) }
{
    matches!(pool.get(index), Some(Const::InvokeDynamic(..)))
}

// Whether a local of a kind is below the greatest number of locals.
fn fits_local(max_locals: u16, kind: Kind, local: u16) -> bool
    ensures { IsTrue result ↔ FitsLocal max_locals kind local }
{
    u32::from(local) + u32::from(kind.units()) <= u32::from(max_locals)
}

// Whether an index names a Class constant.
fn is_class(pool: &Pool, index: u16) -> bool
    ensures { IsTrue result ↔ IsClassAt pool.now index }
{
    matches!(pool.get(index), Some(Const::Class(_)))
}

// Whether a call names a method of its sort: invokevirtual a class's, invokeinterface an interface's, and
// the other two a class's or in version 52 an interface's.
fn is_called(home: &Home<'_>, opcode: u8, method: u16, count: u8) -> bool
    requires { home.now.shapes.now ≡ home.now.pool.now }
    ensures { IsTrue result
        ↔ IsCalled home.now.pool.now home.now.major opcode method count }
{
    match home.pool.get(method) {
        Some(Const::Methodref(..)) => matches!(opcode, INVOKEVIRTUAL..=INVOKESTATIC),
        Some(Const::InterfaceMethodref(_, member)) => match opcode {
            INVOKESPECIAL | INVOKESTATIC => home.major == 52,
            INVOKEINTERFACE => counts_arguments(home, *member, count),
            _ => false,
        },
        _ => false,
    }
}

// Whether a count is that of the arguments of a member's descriptor and the receiver, by units. One that is
// no descriptor asks nothing.
fn counts_arguments(home: &Home<'_>, member: u16, count: u8) -> bool
    requires { home.now.shapes.now ≡ home.now.pool.now }
    ensures { IsTrue result ↔ CountsArguments (descriptor_at home.now.pool.now member) count }
{
    match home.shapes.of_member(member) {
        Some(shape) => u32::from(count) == u32::from(shape.units) + 1,
        None => true,
    }
}

// Whether an index names a class an array of which can be made.
fn is_component(pool: &Pool, index: u16) -> bool
    ensures { IsTrue result
        ↔ (IsClassAt pool.now index × IfSome (class_at pool.now index) FitsArray) }
{
    is_class(pool, index) && fits_new_array(pool, index)
}

// Whether an index names an array class that has as many dimensions as are made.
fn is_multi_array(pool: &Pool, index: u16, dimensions: u8) -> bool
    ensures { IsTrue result ↔ (IsClassAt pool.now index
        × IfSome (class_at pool.now index) (λ name. HasDimensions name dimensions)) }
{
    is_class(pool, index) && fits_dimensions(pool, index, dimensions)
}

// Whether an array of the class that an index names can be made: an array class has fewer than 255
// dimensions, and by this project's profile the new array's descriptor at most 65,535 bytes.
fn fits_new_array(pool: &Pool, index: u16) -> bool
    ensures { IsTrue result ↔ IfSome (class_at pool.now index) FitsArray }
{
    match pool.class_name(index) {
        Some(name) => fits_array(name.bytes()),
        None => true,
    }
}

// Whether a class or array of this name may be the component of an array.
fn fits_array(name: &[u8]) -> bool
    ensures { IsTrue result ↔ FitsArray name.now }
{
    if is_array_type(name) {
        // one more bracket
        name.len() < MAX_TEXT && !has_dimensions(name, MAX_DIMENSIONS)
    } else {
        // a bracket, and the L and the semicolon of a class
        name.len() <= MAX_TEXT - 3
    }
}

// Whether the array class that an index names has as many dimensions as are made.
fn fits_dimensions(pool: &Pool, index: u16, dimensions: u8) -> bool
    ensures { IsTrue result
        ↔ IfSome (class_at pool.now index) (λ name. HasDimensions name dimensions) }
{
    match pool.class_name(index) {
        Some(name) => has_dimensions(name.bytes(), usize::from(dimensions)),
        None => true,
    }
}

// Whether bytes have so many dimensions or more.
fn has_dimensions(name: &[u8], least: usize) -> bool
    ensures { IsTrue result ↔ HasDimensions name.now least }
{
    match dimensions(name) {
        Some(most) => least <= most,
        None => false,
    }
}

// The most bytes of a text, and the most dimensions of an array.
const MAX_TEXT: usize = 65_535;

const MAX_DIMENSIONS: usize = 255;
