//! Methods with their code prepared.
ghost use Rattle.std.specs.Prelude.{◌≡◌, ◌<◌, IfOk, IfSome, Ok, length};
ghost use Rattle.std.specs.List.{AllByRecursion};
ghost use Rattle.class_model.specs.Checks.{AllHold};
ghost use Rattle.class_model.specs.Header.{header_of};
ghost use Rattle.class_model.specs.Instructions.{decoded};
ghost use Rattle.code_bytes.specs.Codes.{HasOperands, IsReadMethod};
ghost use Rattle.code_bytes.specs.Decoding.{decoding_checks};
ghost use Rattle.machine_code.specs.Inner.Preparing.{AreOps, FitsIn, IsPreparedIn, IsReadCode, run_code_at, run_code_in};
ghost use Rattle.machine_code.specs.Inner.Translating.{offsets_of};
ghost use Rattle.machine_code.specs.Prepared.{IsPreparedIf};
ghost use Rattle.member_link.specs.TreePrograms.{IsProgram};
ghost use Rattle.member_link.specs.Machine.Programs.{Program};

use crate::prepared_method::PreparedMethod;
use crate::translating::code_in::{code_in, code_of};
use crate::translating::handlers::handlers_of;
use crate::translating::method_code::MethodCode;
use crate::translating::numbers::Numbers;
use crate::translating::operations::instr_op;
use class_model::{
    ACC_NATIVE, ClassFile, CodePart, Header, Method, MethodAt, NoMemory, Placed, PlacedList, has,
};
use class_tree::{Place, Tree};
use code_bytes::{a_class_file_has_read_methods, instructions_are_consecutive, instructions_of};
use member_link::RunOp;
use std::alloc::Global;

/// The code of a method of the folder, prepared; none where it has no code that runs.
///
/// # Errors
/// `NoMemory`, where memory runs out.
pub(crate) fn prepare_method(
    alloc: Global,
    tree: &Tree,
    at: MethodAt,
) -> Result<Option<Box<PreparedMethod>>, NoMemory>
    ensures { IfOk result (λ method. (P : Program) → IsProgram tree.now P
        → IsPreparedIf P at method) }
{
    match run_code_at(alloc, tree, at)? {
        Some(code) => {
            let method = prepare_code(alloc, &code)?;
            Ok(Some(Box::new(alloc, method)?))
        }
        None => Ok(None),
    }
}

// The code that a method of the folder runs.
fn run_code_at<'a>(
    alloc: Global,
    tree: &'a Tree,
    at: MethodAt,
) -> Result<Option<MethodCode<'a>>, NoMemory>
    ensures code { IfOk result (λ code. code ≡ run_code_at tree.now at) }
    ensures read { IfOk result (λ code. IfSome code IsReadCode) }
{
    a_class_file_has_read_methods();
    let Some(class) = tree.folder().get(at.class) else {
        return Ok(None);
    };
    let Some(header) = tree.header(Place::Folder(at.class)) else {
        return Ok(None);
    };
    let Some(method) = class.methods.get(at.method) else {
        return Ok(None);
    };
    run_code_in(alloc, tree, header, class, method)
}

// The code that a method of a class file runs.
fn run_code_in<'a>(
    alloc: Global,
    tree: &'a Tree,
    header: &'a Header,
    class: &'a ClassFile,
    method: &'a Method,
) -> Result<Option<MethodCode<'a>>, NoMemory>
    requires header { header.now ≡ header_of class.now }
    requires read { IsReadMethod class.now.pool method.now }
    requires operands { AllByRecursion (HasOperands class.now.pool class.now.major)
        method.now.attrs }
    ensures code { IfOk result (λ code. code ≡ run_code_in tree.now class.now method.now) }
    ensures read { IfOk result (λ code. IfSome code IsReadCode) }
{
    if has(method.flags, ACC_NATIVE) {
        return Ok(None);
    }
    let Some(part) = code_of(method.attrs.as_slice()) else {
        return Ok(None);
    };
    Ok(Some(code_in(alloc, tree, header, class, method, part)?))
}

// Prepares the code of a method.
fn prepare_code(alloc: Global, code: &MethodCode<'_>) -> Result<PreparedMethod, NoMemory>
    requires { IsReadCode code.now }
    ensures { IfOk result (IsPreparedIn code.now) }
{
    let part = part_of(code);
    let instrs = decode(alloc, part.code.as_slice())?;
    let instrs = instrs.as_slice();
    let numbers = Numbers::of_instructions(alloc, instrs)?;
    Ok(PreparedMethod {
        ops: ops_of(alloc, code, &numbers, instrs)?,
        offsets: offsets_of(alloc, instrs)?,
        handlers: handlers_of(alloc, code.pool(), &numbers, part.handlers.as_slice())?,
        locals: part.max_locals,
    })
}

// The content of a method's Code attribute.
fn part_of<'a>(code: &MethodCode<'a>) -> &'a CodePart
    ensures { result.now ≡ code.now.part }
{
    code.part
}

// The instructions of a code that was read.
fn decode(alloc: Global, code: &[u8]) -> Result<PlacedList, NoMemory>
    requires { AllHold (decoding_checks code.now) }
    ensures instrs { IfOk result (λ instrs. decoded code.now ≡ Ok instrs) }
    ensures few { IfOk result (λ instrs. length instrs < 65536) }
{
    instructions_are_consecutive();
    instructions_of(alloc, code)
}

// The operations of instructions.
fn ops_of(
    alloc: Global,
    code: &MethodCode<'_>,
    numbers: &Numbers<'_>,
    instrs: &[Placed],
) -> Result<Vec<RunOp>, NoMemory>
    requires { AllByRecursion (FitsIn code.now) instrs.now }
    ensures { IfOk result (λ made. AreOps code.now numbers.now instrs.now made.items) }
{
    let mut made = Vec::with_capacity(alloc, instrs.len())?;
    for placed in instrs {
        made.push(instr_op(alloc, code, numbers, &placed.instr)?)?;
    }
    Ok(made)
}

// The offsets of instructions, in bytes.
fn offsets_of(alloc: Global, instrs: &[Placed]) -> Result<Vec<u32>, NoMemory>
    ensures { IfOk result (λ offsets. offsets.items ≡ offsets_of instrs.now) }
{
    let mut offsets = Vec::with_capacity(alloc, instrs.len())?;
    for placed in instrs {
        offsets.push(placed.at)?;
    }
    Ok(offsets)
}
