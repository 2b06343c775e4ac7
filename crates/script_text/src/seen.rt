//! Values as the library sees them, printed.
ghost use Rattle.std.specs.Prelude.{◌≡◌, ◌++◌, OnOk, decimal, Some};
ghost use Rattle.std.specs.Fmt.{signed_decimal};
ghost use Rattle.std.specs.Option.{option_copied};
ghost use Rattle.script_text.specs.PrintedTexts.{hex_text, printed_text};
ghost use Rattle.script_text.specs.Events.{constant_text, quoted_constant, also_text, first_text, reference_text, seen_text};

use crate::printed::{push_decimal, push_hex, push_integer, push_text};
use class_model::{NoMemory, Text};
use machine_values::{Constant, First, Seen, SeenRef};
use std::alloc::Global;

/// Appends a value.
pub(crate) fn push_seen(alloc: Global, line: &mut Vec<u8>, seen: &Seen) -> Result<(), NoMemory>
    ensures { OnOk result (line.new.items ≡ line.old.items ++ seen_text seen.now) }
{
    match seen {
        Seen::Int(number) => push_tagged(alloc, line, b"i:", i64::from(*number)),
        Seen::Long(number) => push_tagged(alloc, line, b"l:", *number),
        Seen::Float(bits) => push_bits(line, b"f:", 8, u64::from(*bits)),
        Seen::Double(bits) => push_bits(line, b"d:", 16, *bits),
        Seen::Null => Ok(line.extend_from_slice(b"null")?),
        Seen::Ref(reference) => push_reference(alloc, line, reference),
    }
}

/// Appends what names the kind of a number, and the number in decimal.
pub(crate) fn push_tagged(
    alloc: Global,
    line: &mut Vec<u8>,
    tag: &[u8],
    number: i64,
) -> Result<(), NoMemory>
    ensures { OnOk result (line.new.items ≡ line.old.items ++ (tag.now ++ signed_decimal number)) }
{
    line.extend_from_slice(tag)?;
    push_integer(alloc, line, number)
}

/// Appends what names the kind of a number, and so many hexadecimal digits of it.
pub(crate) fn push_bits(
    line: &mut Vec<u8>,
    tag: &[u8],
    count: u8,
    bits: u64,
) -> Result<(), NoMemory>
    ensures { OnOk result (line.new.items ≡ line.old.items ++ (tag.now ++ hex_text count bits)) }
{
    line.extend_from_slice(tag)?;
    push_hex(line, count, bits)
}

/// Appends a reference, and what it shows where it appears first.
pub(crate) fn push_reference(
    alloc: Global,
    line: &mut Vec<u8>,
    reference: &SeenRef,
) -> Result<(), NoMemory>
    ensures { OnOk result (line.new.items ≡ line.old.items ++ reference_text reference.now) }
{
    line.extend_from_slice(b"r:")?;
    push_decimal(alloc, line, u128::from(reference.number))?;
    match &reference.first {
        Some(first) => push_first(alloc, line, first),
        None => Ok(()),
    }
}

/// Appends what a reference shows where it appears first.
fn push_first(alloc: Global, line: &mut Vec<u8>, first: &First) -> Result<(), NoMemory>
    ensures { OnOk result (line.new.items ≡ line.old.items ++ first_text (Some first.now)) }
{
    line.push(b'=')?;
    push_text(line, first.class.bytes())?;
    push_also(line, first.also.as_slice())?;
    match &first.constant {
        Some(constant) => push_constant(alloc, line, constant),
        None => Ok(()),
    }
}

/// Appends the interfaces that an object of the library also implements.
fn push_also(line: &mut Vec<u8>, names: &[Text]) -> Result<(), NoMemory>
    ensures { OnOk result (line.new.items ≡ line.old.items ++ also_text names.now) }
{
    for name in names {
        line.push(b'+')?;
        push_text(line, name.bytes())?;
    }
    Ok(())
}

/// Appends a quotation mark and a constant.
fn push_constant(alloc: Global, line: &mut Vec<u8>, constant: &Constant) -> Result<(), NoMemory>
    ensures { OnOk result
        (line.new.items ≡ line.old.items ++ quoted_constant (Some constant.now)) }
{
    match constant {
        Constant::Str(text) => push_named(line, b"\"str:", text),
        Constant::Class(name) => push_named(line, b"\"class:", name),
        Constant::MethodType(desc) => push_named(line, b"\"type:", desc),
        Constant::Handle(kind, class, name, desc) => {
            line.extend_from_slice(b"\"handle:")?;
            push_decimal(alloc, line, u128::from(*kind))?;
            push_named(line, b":", class)?;
            push_named(line, b":", name)?;
            push_named(line, b":", desc)
        }
    }
}

/// Appends some bytes and a text as it is printed.
fn push_named(line: &mut Vec<u8>, front: &[u8], text: &Text) -> Result<(), NoMemory>
    ensures { OnOk result (line.new.items ≡ line.old.items ++ (front.now ++ printed_text text.now)) }
{
    line.extend_from_slice(front)?;
    push_text(line, text.bytes())
}
