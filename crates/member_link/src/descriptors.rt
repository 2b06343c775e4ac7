//! What the text of a method descriptor says of a call (JVM Specification SE 8, 4.3.3). It need not be a descriptor.
ghost use Rattle.std.specs.Prelude.{◌≡◌, ◌≤◌, ◌+◌, ◌-◌, ◌==◌, not, IfOk, drop, length, map, option_map, take, take_while};
ghost use Rattle.std.specs.Option.{option_copied};
ghost use Rattle.class_model.specs.Characters.{semicolon};
ghost use Rattle.class_model.specs.Descriptors.{brackets, element_len, field_type_text, kind_of, named_text, parameters_of, type_len, type_of};
ghost use Rattle.class_model.specs.declared.descriptor.FieldType.TheVariants.{Named};
ghost use Rattle.class_model.specs.declared.descriptor.Kind.TheVariants.{Ref};
ghost use Rattle.member_link.specs.Signatures.{begins_type, result_of};

use class_model::{Kind, NoMemory, Text};
use std::alloc::Global;

/// The kinds of the parameters that the text of a method descriptor spells, in order.
///
/// # Errors
/// `NoMemory`, where memory runs out.
pub fn parameter_kinds(alloc: Global, desc: &Text) -> Result<Vec<Kind>, NoMemory>
    ensures { IfOk result (λ kinds. map kind_of (parameters_of desc.now) ≡ kinds.items) }
{
    let mut kinds = Vec::new(alloc);
    let mut rest = after_first(desc.bytes());
    while begins_type(rest) {
        kinds.push(kind_at(rest))?;
        rest = after_type(rest);
    }
    Ok(kinds)
}

/// How many parameters the text of a method descriptor spells. It does not allocate.
pub fn parameter_count(desc: &[u8]) -> usize
    ensures is { result ≡ length (parameters_of desc.now) }
    ensures few { result ≤ length desc.now }
{
    let mut count = 0;
    let mut rest = after_first(desc);
    while begins_type(rest) {
        count += 1;
        rest = after_type(rest);
    }
    count
}

/// The text of the result that the text of a method descriptor spells: what stands behind the parameters, none where it is `V`. It does
/// not allocate.
pub fn result_text(desc: &[u8]) -> Option<&[u8]>
    ensures { option_map type_of (option_copied result) ≡ result_of desc.now }
{
    let mut types = after_first(desc);
    let mut result = behind(desc, 2);
    while begins_type(types) {
        result = behind_type(first_type(types), result);
        types = after_type(types);
    }
    if result == b"V".as_slice() {
        None
    } else {
        Some(result)
    }
}

/// Whether a parameter is at the front, before a closing parenthesis. It does not allocate.
pub fn begins_type(bytes: &[u8]) -> bool
    ensures { result ≡ begins_type bytes.now }
{
    match bytes {
        [] => false,
        [first, ..] => *first != b')',
    }
}

/// The kind of the field type at the front. It does not allocate.
pub fn kind_at(bytes: &[u8]) -> Kind
    ensures { result ≡ kind_of (type_of bytes.now) }
{
    match bytes {
        [b'B' | b'C' | b'I' | b'S' | b'Z', ..] => Kind::Int,
        [b'D', ..] => Kind::Double,
        [b'F', ..] => Kind::Float,
        [b'J', ..] => Kind::Long,
        _ => Kind::Ref,
    }
}

/// The class or array type that the text of a type of references spells. It does not allocate.
pub fn named_type(desc: &[u8]) -> &[u8]
    ensures { kind_of (type_of desc.now) ≡ Ref → type_of desc.now ≡ Named result.now }
{
    let Some((first, rest)) = desc.split_first() else {
        return desc;
    };
    if *first == b'L' {
        without_last(rest)
    } else {
        desc
    }
}

/// The field type at the front. It does not allocate.
pub fn first_type(bytes: &[u8]) -> &[u8]
    ensures { result.now ≡ take (type_len bytes.now) bytes.now }
{
    let left = after_type(bytes).len();
    &bytes[..bytes.len() - left]
}

/// The bytes after the field type at the front. It does not allocate.
pub fn after_type(bytes: &[u8]) -> &[u8]
    ensures { result.now ≡ drop (type_len bytes.now) bytes.now }
{
    after_element(after_brackets(bytes))
}

// The bytes after all brackets at the front.
fn after_brackets(bytes: &[u8]) -> &[u8]
    ensures { result.now ≡ drop (brackets bytes.now) bytes.now }
{
    let brackets = bytes.iter().take_while(|byte| **byte == b'[').count();
    &bytes[brackets..]
}

// The bytes after the field type at the front that is no array.
fn after_element(bytes: &[u8]) -> &[u8]
    ensures { result.now ≡ drop (element_len bytes.now) bytes.now }
{
    let Some((first, rest)) = bytes.split_first() else {
        return bytes;
    };
    if *first == b'L' {
        after_name(rest)
    } else {
        rest
    }
}

// The bytes after a class name and its semicolon.
fn after_name(bytes: &[u8]) -> &[u8]
    ensures { result.now
        ≡ drop (length (take_while (λ byte. not (byte == semicolon)) bytes.now) + 1) bytes.now }
{
    let len = bytes.iter().take_while(|byte| **byte != b';').count();
    after_first(&bytes[len..])
}

/// The bytes after the first. It does not allocate.
pub fn after_first(bytes: &[u8]) -> &[u8]
    ensures { result.now ≡ drop 1 bytes.now }
{
    match bytes {
        [] => bytes,
        [_, rest @ ..] => rest,
    }
}

// The bytes after the text of the type that another text spells.
fn behind_type<'a>(text: &[u8], bytes: &'a [u8]) -> &'a [u8]
    ensures { result.now ≡ drop (length (field_type_text (type_of text.now))) bytes.now }
{
    if kind_at(text) == Kind::Ref {
        behind_name(named_type(text), bytes)
    } else {
        behind(bytes, 1)
    }
}

// The bytes after the text of a class or array type.
fn behind_name<'a>(name: &[u8], bytes: &'a [u8]) -> &'a [u8]
    ensures { result.now ≡ drop (length (named_text name.now)) bytes.now }
{
    let Some((first, _)) = name.split_first() else {
        return behind(bytes, 2);
    };
    let rest = behind(bytes, name.len());
    if *first == b'[' {
        rest
    } else {
        behind(rest, 2)
    }
}

// The bytes after so many.
fn behind(bytes: &[u8], count: usize) -> &[u8]
    ensures { result.now ≡ drop count bytes.now }
{
    if count < bytes.len() {
        &bytes[count..]
    } else {
        &[]
    }
}

/// All bytes but the last. It does not allocate.
pub fn without_last(bytes: &[u8]) -> &[u8]
    ensures { result.now ≡ take (length bytes.now - 1) bytes.now }
{
    let len = bytes.len().saturating_sub(1);
    &bytes[..len]
}
