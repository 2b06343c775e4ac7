//! The lines of fields and methods.
ghost use Rattle.std.specs.Prelude.{◌≡◌, ◌∷◌, [], ◌++◌, OnOk};
ghost use Rattle.std.specs.List.{flat_map, AllByRecursion};
ghost use Rattle.class_model.specs.Spelling.{u2};
ghost use Rattle.code_bytes.specs.Codes.{HasInstrs};
ghost use Rattle.script_text.specs.Characters.{line_feed};
ghost use Rattle.script_text.specs.Events.{spaced};
ghost use Rattle.class_listing.specs.Inner.ListingTexts.{attrs_text, field_text, member_text, method_text};
ghost use Rattle.class_listing.specs.Lines.{flags_word, member_words};
ghost use Rattle.class_listing.specs.Listings.{FieldCodes, MethodCodes};

use crate::attributes::push_attributes;
use crate::words::{push_hex, push_named};
use class_model::{Attr, Field, Method, NoMemory};
use std::alloc::Global;

/// Appends the lines of fields.
pub(crate) fn push_fields(
    alloc: Global,
    out: &mut Vec<u8>,
    fields: &[Field],
) -> Result<(), NoMemory>
    requires { AllByRecursion FieldCodes fields.now }
    ensures { OnOk result (out.new.items ≡ out.old.items ++ flat_map field_text fields.now) }
{
    for field in fields {
        push_field(alloc, out, field)?;
    }
    Ok(())
}

/// Appends the lines of a field (JVM Specification SE 8, 4.5).
fn push_field(alloc: Global, out: &mut Vec<u8>, field: &Field) -> Result<(), NoMemory>
    requires { FieldCodes field.now }
    ensures { OnOk result (out.new.items ≡ out.old.items ++ field_text field.now) }
{
    out.extend_from_slice(b"field")?;
    push_member(out, field.flags, field.name, field.desc)?;
    push_attributes(alloc, out, field.attrs.as_slice())
}

/// Appends the lines of methods.
pub(crate) fn push_methods(
    alloc: Global,
    out: &mut Vec<u8>,
    methods: &[Method],
) -> Result<(), NoMemory>
    requires { AllByRecursion MethodCodes methods.now }
    ensures { OnOk result (out.new.items ≡ out.old.items ++ flat_map method_text methods.now) }
{
    for method in methods {
        push_method(alloc, out, method)?;
    }
    Ok(())
}

/// Appends the lines of a method (JVM Specification SE 8, 4.6).
fn push_method(alloc: Global, out: &mut Vec<u8>, method: &Method) -> Result<(), NoMemory>
    requires { MethodCodes method.now }
    ensures { OnOk result (out.new.items ≡ out.old.items ++ method_text method.now) }
{
    out.extend_from_slice(b"method")?;
    push_member(out, method.flags, method.name, method.desc)?;
    push_attributes(alloc, out, method.attrs.as_slice())
}

/// Appends the flags, name and descriptor of a member, and ends its line.
fn push_member(out: &mut Vec<u8>, flags: u16, name: u16, desc: u16) -> Result<(), NoMemory>
    ensures { OnOk result
        (out.new.items ≡ out.old.items ++ (spaced (member_words flags name desc) ++ line_feed ∷ [])) }
{
    push_flags(out, flags)?;
    push_named(out, b" name=", name)?;
    push_named(out, b" desc=", desc)?;
    out.push(b'\n')?;
    Ok(())
}

/// Appends a space and access flags in hexadecimal digits.
pub(crate) fn push_flags(out: &mut Vec<u8>, flags: u16) -> Result<(), NoMemory>
    ensures { OnOk result (out.new.items ≡ out.old.items ++ (32 ∷ flags_word flags)) }
{
    out.extend_from_slice(b" flags=")?;
    push_hex(out, &flags.to_be_bytes())
}
