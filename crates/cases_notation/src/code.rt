//! The code of a method by what it uses.
use crate::code_tables::{push_frame, push_full, push_handler};
use crate::counted::Counted;
use crate::pool::{MemberTag, PoolBytes, low_bits};
use class_model::opcodes::{
    ANEWARRAY, CHECKCAST, GETFIELD, GETSTATIC, INSTANCEOF, INVOKEDYNAMIC, INVOKEINTERFACE,
    INVOKESPECIAL, INVOKESTATIC, INVOKEVIRTUAL, LDC_W, LDC2_W, MULTIANEWARRAY, NEW, NOP, PUTFIELD,
    PUTSTATIC, RETURN,
};
use class_model::{NoMemory, opcode_of, push_u2, push_u4};
use std::alloc::Global;

/// The parts of a Code attribute, without its name and length.
#[derive(Drop)]
struct Code {
    max_stack: u8,
    max_locals: u8,
    instructions: Vec<u8>,
    // no return stands at the end
    is_open: bool,
    handlers: Counted,
    // the frames of a StackMapTable, if there are any
    frames: Counted,
}

/// Appends a Code attribute whose instructions are `nop`, those of these uses and `return`. A use is an instruction with the
/// member, class, descriptor or handle that it names, as `getstatic A x I`, `new A` or `ldc class A`; a `!` behind a call's
/// name makes an InterfaceMethodref, and a number behind a descriptor is the count of an invokeinterface, which is else 1.
/// `ldc int` and its like load 0, and `ldc float 1` loads the float of these bits, in decimal.
/// Any other instruction has its operand bytes in decimal, as `iinc 1 255`. `limits 3 4` are the greatest depth of the stack
/// and the number of locals, which are else 9. With `open` the code has no `return` at its end, and with `exact` in front it has
/// neither that nor the `nop`. `dynamic get (LP;)LF;` is a dynamic call of this name and descriptor, and without a name of `run`.
/// `handle new A <init> ()V` adds this method handle to the constants, and no instruction.
///
/// `handler 0 4 7 A` is an entry of the exception table: the start, the end and the handler as offsets in decimal, and the
/// class, which is `any` for none. `catch A` is `handler 0 1 0 A`. `full 5 int A : long` states a full frame with this
/// offset_delta, its locals in front of the colon and its stack behind it. A type is `top`, `int`, `float`, `long`, `double`,
/// `null`, `this` (not initialised), `new@3` (which the `new` at this offset made), or the name of a class or array.
/// `frame A`, in front of other frames, is one at the start with a value of the class on the stack.
pub(crate) fn push_code(
    alloc: Global,
    out: &mut Vec<u8>,
    pool: &mut PoolBytes,
    uses: &[&str],
) -> Result<(), NoMemory> {
    let code = code_of(alloc, pool, uses)?;
    let is_pushed = push_attribute(alloc, out, pool, &code);
    drop(code);
    is_pushed
}

fn push_attribute(
    alloc: Global,
    out: &mut Vec<u8>,
    pool: &mut PoolBytes,
    code: &Code,
) -> Result<(), NoMemory> {
    push_u2(out, pool.utf8(b"Code")?)?;
    let body = body_of(alloc, pool, code)?;
    push_u4(out, low_bits(body.len()) as u32)?;
    out.extend_from_slice(&body)?;
    Ok(())
}

fn code_of(alloc: Global, pool: &mut PoolBytes, uses: &[&str]) -> Result<Code, NoMemory> {
    let mut code = Code {
        max_stack: 9,
        max_locals: 9,
        instructions: Vec::new(alloc),
        is_open: false,
        handlers: Counted::new(alloc),
        frames: Counted::new(alloc),
    };
    match push_uses(alloc, &mut code, pool, uses) {
        Ok(()) => Ok(code),
        Err(fault) => {
            drop(code);
            Err(fault)
        }
    }
}

// Appends a nop, what the uses say, and a return if the code has one.
fn push_uses(
    alloc: Global,
    code: &mut Code,
    pool: &mut PoolBytes,
    uses: &[&str],
) -> Result<(), NoMemory> {
    code.instructions.push(NOP)?;
    for used in uses {
        let words = used.split(' ').collect::<Vec<&str>>(alloc)?;
        push_use(alloc, code, pool, &words)?;
    }
    if !code.is_open {
        code.instructions.push(RETURN)?;
    }
    Ok(())
}

fn body_of(alloc: Global, pool: &mut PoolBytes, code: &Code) -> Result<Vec<u8>, NoMemory> {
    let mut body = Vec::new(alloc);
    push_body(alloc, &mut body, pool, code)?;
    Ok(body)
}

fn push_body(
    alloc: Global,
    body: &mut Vec<u8>,
    pool: &mut PoolBytes,
    code: &Code,
) -> Result<(), NoMemory> {
    push_u2(body, code.max_stack as u16)?;
    push_u2(body, code.max_locals as u16)?;
    push_u4(body, low_bits(code.instructions.len()) as u32)?;
    body.extend_from_slice(&code.instructions)?;
    code.handlers.push_to(body)?;
    if code.frames.count == 0 {
        return push_u2(body, 0);
    }
    push_u2(body, 1)?;
    push_u2(body, pool.utf8(b"StackMapTable")?)?;
    let mut table = Vec::new(alloc);
    code.frames.push_to(&mut table)?;
    push_u4(body, low_bits(table.len()) as u32)?;
    body.extend_from_slice(&table)?;
    Ok(())
}

// Appends what the words of a use say.
fn push_use(
    alloc: Global,
    code: &mut Code,
    pool: &mut PoolBytes,
    words: &[&str],
) -> Result<(), NoMemory> {
    match words {
        ["open"] => {
            code.is_open = true;
            Ok(())
        }
        ["exact"] => {
            code.instructions.clear();
            code.is_open = true;
            Ok(())
        }
        ["limits", stack, locals] => {
            code.max_stack = byte(stack);
            code.max_locals = byte(locals);
            Ok(())
        }
        ["catch", name] => push_handler(&mut code.handlers, pool, ["0", "1", "0"], name),
        ["handler", start, end, at, name] => push_handler(
            &mut code.handlers,
            pool,
            [start, end, at],
            name,
        ),
        ["frame", name] => push_frame(&mut code.frames, pool, name),
        ["full", delta, types @ ..] => push_full(alloc, &mut code.frames, pool, delta, types),
        ["handle", kind, class, name, desc] => {
            handle_constant(pool, kind, class, name, desc)?;
            Ok(())
        }
        ["ldc", constant @ ..] => push_load(&mut code.instructions, pool, constant),
        ["dynamic", desc] => push_dynamic(&mut code.instructions, pool, "run", desc),
        ["dynamic", name, desc] => push_dynamic(&mut code.instructions, pool, name, desc),
        [op, operands @ ..] => push_named(&mut code.instructions, pool, op, operands),
        _ => Ok(()),
    }
}

// Appends a dynamic call of a name and a descriptor.
fn push_dynamic(
    out: &mut Vec<u8>,
    pool: &mut PoolBytes,
    name: &str,
    desc: &str,
) -> Result<(), NoMemory> {
    let index = pool.dynamic(name.as_bytes(), desc.as_bytes())?;
    push_instruction(out, INVOKEDYNAMIC, index)?;
    push_u2(out, 0)
}

// Appends an instruction that names a member or class, or has its operand bytes.
fn push_named(
    out: &mut Vec<u8>,
    pool: &mut PoolBytes,
    op: &str,
    operands: &[&str],
) -> Result<(), NoMemory> {
    if let Some((opcode, tag)) = member_op(op) {
        push_member_use(out, pool, (opcode, tag), operands)
    } else if let (Some(opcode), [name, dimensions @ ..]) = (class_op(op), operands) {
        push_class_use(out, pool, opcode, name, dimensions)
    } else {
        push_plain(out, op, operands)
    }
}

// Appends the load of a class, a string, a number, a method type or a method handle.
fn push_load(out: &mut Vec<u8>, pool: &mut PoolBytes, constant: &[&str]) -> Result<(), NoMemory> {
    let (opcode, index) = match constant {
        ["int"] => (LDC_W, pool.number(3, &[0; 4])?),
        ["float"] => (LDC_W, pool.number(4, &[0; 4])?),
        ["float", bits] => (
            LDC_W,
            pool.number(4, &bits.parse::<u32>().unwrap_or(0).to_be_bytes())?,
        ),
        ["long"] => (LDC2_W, pool.number(5, &[0; 8])?),
        ["double"] => (LDC2_W, pool.number(6, &[0; 8])?),
        ["string", text] => (LDC_W, pool.string(text.as_bytes())?),
        ["class", name] => (LDC_W, pool.class(name.as_bytes())?),
        ["type", desc] => (LDC_W, pool.method_type(desc.as_bytes())?),
        ["handle", kind, class, name, desc] => (
            LDC_W,
            handle_constant(pool, kind, class, name, desc)?,
        ),
        _ => return Ok(()),
    };
    push_instruction(out, opcode, index)
}

// Adds the handle of a member to the pool, and gives its index.
fn handle_constant(
    pool: &mut PoolBytes,
    kind: &str,
    class: &str,
    name: &str,
    desc: &str,
) -> Result<u16, NoMemory> {
    let (kind, tag) = handle_kind(kind);
    let member = pool.member(tag, class.as_bytes(), name.as_bytes(), desc.as_bytes())?;
    pool.handle(kind, member)
}

fn push_instruction(out: &mut Vec<u8>, opcode: u8, index: u16) -> Result<(), NoMemory> {
    out.push(opcode)?;
    push_u2(out, index)
}

// Appends an instruction that names a member of a class.
fn push_member_use(
    out: &mut Vec<u8>,
    pool: &mut PoolBytes,
    op: (u8, MemberTag),
    operands: &[&str],
) -> Result<(), NoMemory> {
    let [class, name, desc, counts @ ..] = operands else {
        return Ok(());
    };
    let (opcode, tag) = op;
    let index = pool.member(tag, class.as_bytes(), name.as_bytes(), desc.as_bytes())?;
    push_instruction(out, opcode, index)?;
    if opcode == INVOKEINTERFACE {
        out.push(byte_or_one(counts))?;
        out.push(0)?;
    }
    Ok(())
}

// Appends an instruction that names a class or array, and perhaps a number of dimensions.
fn push_class_use(
    out: &mut Vec<u8>,
    pool: &mut PoolBytes,
    opcode: u8,
    name: &str,
    dimensions: &[&str],
) -> Result<(), NoMemory> {
    let index = pool.class(name.as_bytes())?;
    push_instruction(out, opcode, index)?;
    if opcode == MULTIANEWARRAY {
        out.push(byte_or_one(dimensions))?;
    }
    Ok(())
}

// Appends an instruction by its mnemonic and its operand bytes.
fn push_plain(out: &mut Vec<u8>, op: &str, operands: &[&str]) -> Result<(), NoMemory> {
    if let Some(opcode) = opcode_of(op) {
        out.push(opcode)?;
        for operand in operands {
            out.push(byte(operand))?;
        }
    }
    Ok(())
}

// The byte that a word says in decimal.
fn byte(word: &str) -> u8 {
    word.parse::<u8>().unwrap_or(0)
}

// The byte that the first word says, or 1 where there is none.
fn byte_or_one(words: &[&str]) -> u8 {
    match words {
        [word, ..] => byte(word),
        [] => 1,
    }
}

// The opcode of an instruction that names a member, and the constant that it names.
fn member_op(op: &str) -> Option<(u8, MemberTag)> {
    Some(match op {
        "getstatic" => (GETSTATIC, MemberTag::Field),
        "putstatic" => (PUTSTATIC, MemberTag::Field),
        "getfield" => (GETFIELD, MemberTag::Field),
        "putfield" => (PUTFIELD, MemberTag::Field),
        "invokevirtual" => (INVOKEVIRTUAL, MemberTag::Method),
        "invokespecial" => (INVOKESPECIAL, MemberTag::Method),
        "invokestatic" => (INVOKESTATIC, MemberTag::Method),
        "invokespecial!" => (INVOKESPECIAL, MemberTag::InterfaceMethod),
        "invokestatic!" => (INVOKESTATIC, MemberTag::InterfaceMethod),
        "invokeinterface" => (INVOKEINTERFACE, MemberTag::InterfaceMethod),
        _ => return None,
    })
}

// The opcode of an instruction that names a class or array.
fn class_op(op: &str) -> Option<u8> {
    Some(match op {
        "new" => NEW,
        "anewarray" => ANEWARRAY,
        "checkcast" => CHECKCAST,
        "instanceof" => INSTANCEOF,
        "multianewarray" => MULTIANEWARRAY,
        _ => return None,
    })
}

// The kind of a handle (JVM Specification SE 8, 4.4.8) and the constant that it names.
fn handle_kind(kind: &str) -> (u8, MemberTag) {
    match kind {
        "getfield" => (1, MemberTag::Field),
        "getstatic" => (2, MemberTag::Field),
        "invokevirtual" => (5, MemberTag::Method),
        "invokestatic" => (6, MemberTag::Method),
        "new" => (8, MemberTag::Method),
        _ => (9, MemberTag::InterfaceMethod),
    }
}
