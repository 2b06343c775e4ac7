//! The lines of constants.
ghost use Rattle.std.specs.Prelude.{◌≡◌, ◌∷◌, [], ◌++◌, decimal, OnOk};
ghost use Rattle.std.specs.Fmt.{signed_decimal};
ghost use Rattle.class_model.specs.Pool.{constant_at};
ghost use Rattle.script_text.specs.Events.{spaced};
ghost use Rattle.script_text.specs.PrintedTexts.{printed_text};
ghost use Rattle.class_listing.specs.Inner.ListingTexts.{entries_text, entry_text};
ghost use Rattle.class_listing.specs.Lines.{const_line, constant_words, line_text};
ghost use Rattle.class_listing.specs.Operations.{hex_digits};

use crate::words::{push_hex, push_index, push_named, push_signed};
use class_model::{Const, NoMemory, Pool};
use script_text::push_text;

/// Appends a line for each constant of a pool, in order of their indices.
pub(crate) fn push_constants(out: &mut Vec<u8>, pool: &Pool) -> Result<(), NoMemory>
    ensures { OnOk result (out.new.items ≡ out.old.items ++ entries_text 0 pool.now) }
{
    for index in 0..pool.count() {
        push_entry(out, pool, index)?;
    }
    Ok(())
}

/// Appends the line of an index, if a constant is there.
fn push_entry(out: &mut Vec<u8>, pool: &Pool, index: u16) -> Result<(), NoMemory>
    ensures { OnOk result
        (out.new.items ≡ out.old.items ++ entry_text index (constant_at pool.now index)) }
{
    match pool.get(index) {
        Some(constant) => push_constant(out, index, constant),
        None => Ok(()),
    }
}

/// Appends the line of a constant.
fn push_constant(out: &mut Vec<u8>, index: u16, constant: &Const) -> Result<(), NoMemory>
    ensures { OnOk result
        (out.new.items ≡ out.old.items ++ line_text (const_line index constant.now)) }
{
    push_named(out, b"const ", index)?;
    push_fields(out, constant)?;
    out.push(b'\n')?;
    Ok(())
}

/// Appends the name of a constant's form and its fields (JVM Specification SE 8, 4.4), each behind a space.
fn push_fields(out: &mut Vec<u8>, constant: &Const) -> Result<(), NoMemory>
    ensures { OnOk result
        (out.new.items ≡ out.old.items ++ spaced (constant_words constant.now)) }
{
    match constant {
        Const::Utf8(text) => {
            out.extend_from_slice(b" Utf8 ")?;
            push_text(out, text.bytes())
        }
        Const::Integer(number) => push_integer(out, b" Integer ", i64::from(*number)),
        Const::Float(bits) => push_bits(out, b" Float ", &bits.to_be_bytes()),
        Const::Long(number) => push_integer(out, b" Long ", *number),
        Const::Double(bits) => push_bits(out, b" Double ", &bits.to_be_bytes()),
        Const::Class(name) => push_named(out, b" Class ", *name),
        Const::String(text) => push_named(out, b" String ", *text),
        Const::Fieldref(class, member) => push_pair(out, b" Fieldref ", *class, *member),
        Const::Methodref(class, member) => push_pair(out, b" Methodref ", *class, *member),
        Const::InterfaceMethodref(class, member) => push_pair(
            out,
            b" InterfaceMethodref ",
            *class,
            *member,
        ),
        Const::NameAndType(name, descriptor) => push_pair(
            out,
            b" NameAndType ",
            *name,
            *descriptor,
        ),
        Const::MethodHandle(kind, reference) => push_pair(
            out,
            b" MethodHandle ",
            u16::from(*kind),
            *reference,
        ),
        Const::MethodType(descriptor) => push_named(out, b" MethodType ", *descriptor),
        Const::InvokeDynamic(bootstrap, member) => push_pair(
            out,
            b" InvokeDynamic ",
            *bootstrap,
            *member,
        ),
    }
}

/// Appends the name of a form and a signed number.
fn push_integer(out: &mut Vec<u8>, front: &[u8], number: i64) -> Result<(), NoMemory>
    ensures { OnOk result (out.new.items ≡ out.old.items ++ (front.now ++ signed_decimal number)) }
{
    out.extend_from_slice(front)?;
    push_signed(out, number)
}

/// Appends the name of a form and the bits of a float or double.
fn push_bits(out: &mut Vec<u8>, front: &[u8], bits: &[u8]) -> Result<(), NoMemory>
    ensures { OnOk result (out.new.items ≡ out.old.items ++ (front.now ++ hex_digits bits.now)) }
{
    out.extend_from_slice(front)?;
    push_hex(out, bits)
}

/// Appends the name of a form and two numbers.
fn push_pair(out: &mut Vec<u8>, front: &[u8], one: u16, other: u16) -> Result<(), NoMemory>
    ensures { OnOk result
        (out.new.items ≡ out.old.items ++ (front.now ++ (decimal one ++ spaced (decimal other ∷ [])))) }
{
    push_named(out, front, one)?;
    push_index(out, other)
}
