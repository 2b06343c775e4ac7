//! Class files in a small notation. A class is `FLAGS NAME SUPERCLASS INTERFACES` and then its members, with ` / ` between
//! them: `field FLAGS NAME DESC`, or `method FLAGS NAME DESC` with what its code uses behind it, with `, ` between. Flags
//! are words with `+` between, and `-` for none; `-` is no superclass, and `Object` is java/lang/Object. A method that is
//! neither abstract nor native has code, and `, constant 300` behind a field is its ConstantValue, an int. A `51:` in front
//! of a class is its version, which is else 52.
use crate::code::push_code;
use crate::counted::Counted;
use crate::head::Head;
use crate::pool::{MemberTag, PoolBytes};
use class_model::{NoMemory, push_u2, push_u4};
use std::alloc::Global;

/// The class that each other is below.
pub const OBJECT: &[u8] = b"java/lang/Object";

/// The name of the class that a text says.
pub(crate) fn name_of(text: &str) -> &str {
    text.split(' ').nth(1).unwrap_or("")
}

/// The bytes of the class file that a text says.
pub fn class_file(alloc: Global, text: &str) -> Result<Vec<u8>, NoMemory> {
    let (major, text) = match text.strip_prefix("51:") {
        Some(text) => (51, text),
        None => (52, text),
    };
    let mut pool = PoolBytes::new(alloc);
    let body = body_of(alloc, &mut pool, text)?;
    file_of(alloc, major, &pool, &body)
}

// The bytes of a class file of a major version, of its pool and of what stands behind that.
fn file_of(alloc: Global, major: u32, pool: &PoolBytes, body: &[u8]) -> Result<Vec<u8>, NoMemory> {
    let mut out = Vec::new(alloc);
    push_u4(&mut out, 0xCAFE_BABE)?;
    push_u4(&mut out, major)?;
    push_u2(&mut out, pool.count)?;
    out.extend_from_slice(&pool.bytes)?;
    out.extend_from_slice(body)?;
    Ok(out)
}

// What stands behind the pool.
fn body_of(alloc: Global, pool: &mut PoolBytes, text: &str) -> Result<Vec<u8>, NoMemory> {
    let parts = text.split(" / ").collect::<Vec<&str>>(alloc)?;
    let mut out = Vec::new(alloc);
    if let [head, members @ ..] = parts.as_slice() {
        push_head(alloc, &mut out, pool, head)?;
        push_members(alloc, &mut out, pool, members)?;
    }
    push_bootstraps(&mut out, pool)?;
    Ok(out)
}

// Appends the fields and the methods.
fn push_members(
    alloc: Global,
    out: &mut Vec<u8>,
    pool: &mut PoolBytes,
    members: &[&str],
) -> Result<(), NoMemory> {
    let mut fields = Counted::new(alloc);
    let mut methods = Counted::new(alloc);
    add_members(alloc, &mut fields, &mut methods, pool, members)?;
    fields.push_to(out)?;
    methods.push_to(out)
}

// Appends each member to those of its kind.
fn add_members(
    alloc: Global,
    fields: &mut Counted,
    methods: &mut Counted,
    pool: &mut PoolBytes,
    members: &[&str],
) -> Result<(), NoMemory> {
    for member in members {
        push_member(alloc, fields, methods, pool, member)?;
    }
    Ok(())
}

// Appends the flags, the names of the class and its superclass, and its interfaces.
fn push_head(
    alloc: Global,
    out: &mut Vec<u8>,
    pool: &mut PoolBytes,
    head: &str,
) -> Result<(), NoMemory> {
    let words = head.split(' ').collect::<Vec<&str>>(alloc)?;
    let [flags, name, superclass, interfaces @ ..] = words.as_slice() else {
        return Ok(());
    };
    let interfaces = interfaces
        .iter()
        .map(|name| name.as_bytes())
        .collect::<Vec<&[u8]>>(alloc)?;
    let head = Head {
        flags: flags_of(flags),
        name: name.as_bytes(),
        superclass: superclass_of(superclass),
        interfaces: &interfaces,
    };
    head.push_to(out, pool)
}

// The name of the superclass that a word says.
fn superclass_of(word: &str) -> Option<&[u8]> {
    match word {
        "-" => None,
        "Object" => Some(OBJECT),
        name => Some(name.as_bytes()),
    }
}

// Appends a member to those of its kind.
fn push_member(
    alloc: Global,
    fields: &mut Counted,
    methods: &mut Counted,
    pool: &mut PoolBytes,
    text: &str,
) -> Result<(), NoMemory> {
    let pieces = text.split(", ").collect::<Vec<&str>>(alloc)?;
    let [declaration, uses @ ..] = pieces.as_slice() else {
        return Ok(());
    };
    let words = declaration.split(' ').collect::<Vec<&str>>(alloc)?;
    match words.as_slice() {
        ["method", rest @ ..] => push_parts(alloc, methods, pool, true, rest, uses),
        [_, rest @ ..] => push_parts(alloc, fields, pool, false, rest, uses),
        [] => Ok(()),
    }
}

// Appends a member, whose flags, name and descriptor are words, to those of its kind.
fn push_parts(
    alloc: Global,
    members: &mut Counted,
    pool: &mut PoolBytes,
    is_method: bool,
    words: &[&str],
    uses: &[&str],
) -> Result<(), NoMemory> {
    let [flags, name, desc] = words else {
        return Ok(());
    };
    let flags = flags_of(flags);
    let bytes = members.one_more();
    push_u2(bytes, flags)?;
    push_u2(bytes, pool.utf8(name.as_bytes())?)?;
    push_u2(bytes, pool.utf8(desc.as_bytes())?)?;
    if is_method && flags & 0x0500 == 0 {
        push_u2(bytes, 1)?;
        push_code(alloc, bytes, pool, uses)
    } else {
        push_constant_value(bytes, pool, uses)
    }
}

// Appends the attributes of a member without code: the ConstantValue that it has, if it has one.
fn push_constant_value(
    out: &mut Vec<u8>,
    pool: &mut PoolBytes,
    uses: &[&str],
) -> Result<(), NoMemory> {
    let word = uses.first().and_then(|used| used.strip_prefix("constant "));
    let Some(value) = word.and_then(|word| word.parse::<i32>().ok()) else {
        return push_u2(out, 0);
    };
    let value = pool.number(3, &value.to_be_bytes())?;
    push_u2(out, 1)?;
    push_u2(out, pool.utf8(b"ConstantValue")?)?;
    push_u4(out, 2)?;
    push_u2(out, value)
}

// Appends the attributes of the class: where its code has dynamic calls, the bootstrap method that they take. It is of a
// class that is not there, which no instruction names.
fn push_bootstraps(out: &mut Vec<u8>, pool: &mut PoolBytes) -> Result<(), NoMemory> {
    if !pool.has_dynamic {
        return push_u2(out, 0);
    }
    push_u2(out, 1)?;
    push_u2(out, pool.utf8(b"BootstrapMethods")?)?;
    push_u4(out, 6)?;
    push_u2(out, 1)?;
    let run = pool.member(MemberTag::Method, b"none/Such", b"run", b"()V")?;
    push_u2(out, pool.handle(6, run)?)?;
    push_u2(out, 0)
}

// The flags of words with a plus between them.
fn flags_of(words: &str) -> u16 {
    let mut flags = 0;
    for word in words.split('+') {
        flags |= flag(word);
    }
    flags
}

fn flag(word: &str) -> u16 {
    match word {
        "public" => 0x0001,
        "private" => 0x0002,
        "protected" => 0x0004,
        "static" => 0x0008,
        "final" => 0x0010,
        "synchronized" => 0x0020,
        "native" => 0x0100,
        "interface" => 0x0600,
        "abstract" => 0x0400,
        _ => 0,
    }
}
