//! The methods of a class file (JVM Specification SE 8, 4.6).
ghost use Rattle.std.specs.Prelude.{◌≡◌, [], ◌+◌, ◌<◌, ◌^◌, ◌↔◌, ◌&&◌, not, nat_lt, ℕ, List, Option, Some, length, codes, IfSome, IsSome, IsTrue};
ghost use Rattle.class_model.specs.Answers.{Tells};
ghost use Rattle.class_model.specs.ClassOf.{methods_checks};
ghost use Rattle.class_model.specs.Members.{Signature, STATIC, ABSTRACT, NATIVE, INTERFACE, has_named, is_named, is_text, stands_before, attrs_checks};
ghost use Rattle.class_model.specs.Members as members;
ghost use Rattle.class_model.specs.Methods.{IsDescriptorOf, code, method_attr_checks, method_checks, method_signature};
ghost use Rattle.class_model.specs.Methods as methods;
ghost use Rattle.class_model.specs.Names.{IsMethodName};
ghost use Rattle.class_model.specs.PoolChecks.{utf8_at, InitIsVoid};
ghost use Rattle.class_model.specs.Spelling.{method_bytes};
ghost use Rattle.class_model.specs.declared.class_file.Attr.{Attr};
ghost use Rattle.class_bytes.specs.Inner.Cut.{attr_of, attrs_of, home_seen, method_of, methods_of};
ghost use Rattle.class_bytes.specs.Inner.MethodParts.{signature_checks};
ghost use Rattle.class_bytes.specs.Inner.Parts.{attrs_len, methods_len};
ghost use Rattle.class_bytes.specs.Inner.Shapes.{IsShape};

use crate::checks::{ask, ask_text};
use crate::code::check_code;
use crate::cut::{CutAttr, CutMember};
use crate::flags::one_visibility;
use crate::home::Home;
use crate::names::{CODE, is_named};
use crate::signatures::Signatures;
use class_model::{
    ACC_ABSTRACT, ACC_INTERFACE, ACC_NATIVE, ACC_STATIC, CLINIT, ClassFault, FileRule, INIT,
    MethodShape, Pool, has, is_method_name,
};
use code_bytes::is_text;
use std::alloc::Global;

/// Checks the methods of a class, the first of which stands at this place, and answers the place behind the
/// last.
pub(crate) fn check_methods(
    alloc: Global,
    home: &Home<'_>,
    methods: &[CutMember<'_>],
    at: u64,
) -> Result<u64, ClassFault>
    requires shapes { home.now.shapes.now ≡ home.now.pool.now }
    requires fits { at + methods_len (methods_of methods.now) < 2 ^ 63 }
    ensures { Tells (methods_checks (home_seen home.now) [] at (methods_of methods.now))
        (λ end. end ≡ at + methods_len (methods_of methods.now)) result }
{
    let mut signatures = Signatures::new(alloc, home.pool)?;
    let mut place = at;
    for method in methods {
        let is_again = signatures.add(method.name, method.desc)?;
        place = check_method(alloc, home, method, is_again, place)?;
    }
    Ok(place)
}

// Checks a method, which stands at this place behind a method of the same name and descriptor or not, and
// answers the place behind it.
fn check_method(
    alloc: Global,
    home: &Home<'_>,
    method: &CutMember<'_>,
    is_again: bool,
    at: u64,
) -> Result<u64, ClassFault>
    requires shapes { home.now.shapes.now ≡ home.now.pool.now }
    requires fits { at + length (method_bytes (method_of method.now)) < 2 ^ 63 }
    ensures { (before : List Signature)
        → is_again
        ≡ stands_before home.now.pool.now before (method_signature (method_of method.now))
        → Tells (method_checks (home_seen home.now) before at (method_of method.now))
        (λ end. end ≡ at + length (method_bytes (method_of method.now))) result }
{
    let has_code = has_code(home.pool, method);
    let lacks_code = has(method.flags, ACC_ABSTRACT) || has(method.flags, ACC_NATIVE);
    ask(fits_method(home, method, has_code), at, FileRule::Flags)?;
    ask(!is_again, at, FileRule::Twice)?;
    ask(lacks_code || has_code, at, FileRule::NoCode)?;
    ask(!lacks_code || !has_code, at, FileRule::HasCode)?;
    check_signature(home, method, at)?;
    check_method_attrs(alloc, home, method, at + 8)
}

// Whether a method has a Code attribute.
fn has_code(pool: &Pool, method: &CutMember<'_>) -> bool
    ensures { result ≡ has_named pool.now code (attrs_of method.now.attrs) }
{
    method
        .attrs
        .as_slice()
        .iter()
        .any(|attr| is_named(pool, CODE, attr))
}

// The descriptor of a class initialiser, which this project's profile asks.
const NO_PARAMETERS: &[u8] = b"()V";

// Whether the flags of a method fit each other and those of its class (4.6).
fn fits_method(home: &Home<'_>, method: &CutMember<'_>, has_code: bool) -> bool
    requires { has_code ≡ has_named home.now.pool.now code (attrs_of method.now.attrs) }
    ensures { result ≡ methods.fits_method (home_seen home.now) (method_of method.now) }
{
    let is_init = is_text(home.pool, INIT, method.name);
    let fits_name = if is_text(home.pool, CLINIT, method.name) {
        fits_clinit(home, method)
    } else {
        fits_other(home, method.flags, has_code)
    };
    one_visibility(method.flags) && fits_name && (!is_init || fits_init(home, method.flags))
}

// Whether a class initialiser is static and of the descriptor ()V.
fn fits_clinit(home: &Home<'_>, method: &CutMember<'_>) -> bool
    ensures { result
        ≡ (members.has method.now.flags STATIC
        && is_text (codes "()V") (utf8_at home.now.pool.now method.now.desc)) }
{
    has(method.flags, ACC_STATIC) && is_text(home.pool, NO_PARAMETERS, method.desc)
}

// Whether an instance initialiser is not static, abstract or native, and does not stand in an interface.
fn fits_init(home: &Home<'_>, flags: u16) -> bool
    ensures { result
        ≡ (not (members.has flags STATIC)
        && not (members.has flags ABSTRACT)
        && not (members.has flags NATIVE)
        && not (members.has home.now.flags INTERFACE)) }
{
    !has(flags, ACC_STATIC)
        && !has(flags, ACC_ABSTRACT)
        && !has(flags, ACC_NATIVE)
        && !has(home.flags, ACC_INTERFACE)
}

// Whether below version 52 a method of an interface has no code, and no method is both static and abstract.
fn fits_other(home: &Home<'_>, flags: u16, has_code: bool) -> bool
    ensures { result
        ≡ (not (nat_lt home.now.major 52 && members.has home.now.flags INTERFACE && has_code)
        && not (members.has flags STATIC && members.has flags ABSTRACT)) }
{
    !(home.major < 52 && has(home.flags, ACC_INTERFACE) && has_code)
        && !(has(flags, ACC_STATIC) && has(flags, ACC_ABSTRACT))
}

// Checks the name and the descriptor of a method, which stands at this place.
fn check_signature(home: &Home<'_>, method: &CutMember<'_>, at: u64) -> Result<(), ClassFault>
    requires shapes { home.now.shapes.now ≡ home.now.pool.now }
    requires fits { at + 8 < 2 ^ 63 }
    ensures { Tells (signature_checks home.now.pool.now at (method_of method.now))
        (λ done. Unit {0}) result }
{
    let shape = own_shape(home, method);
    let name = ask_text(home.pool, method.name, at + 2)?;
    ask(is_name_with(name.bytes(), shape), at + 2, FileRule::Name)?;
    ask_text(home.pool, method.desc, at + 4)?;
    ask(
        fits_units(method.flags, shape),
        at + 4,
        FileRule::Descriptor,
    )
}

// The shape of a method's descriptor, if it is one.
fn own_shape(home: &Home<'_>, method: &CutMember<'_>) -> Option<MethodShape>
    requires { home.now.shapes.now ≡ home.now.pool.now }
    ensures { IsShape (utf8_at home.now.pool.now method.now.desc) result }
{
    home.shapes.at(method.desc)
}

/// Whether bytes are the name of a method of a descriptor of this shape, if it is a method descriptor: an
/// instance initialiser has no result.
pub(crate) fn is_name_with(name: &[u8], shape: Option<MethodShape>) -> bool
    ensures { (text : Option (List ℕ))
        → IsShape text shape
        → IsTrue result ↔ (IsMethodName name.now × InitIsVoid name.now text) }
{
    let is_void = match shape {
        Some(shape) => shape.is_void,
        None => true,
    };
    is_method_name(name) && (name != INIT || is_void)
}

/// Whether there is a method descriptor, and its parameters take at most 255 local units, this counted where
/// the method is not static (4.3.3).
pub(crate) fn fits_units(flags: u16, shape: Option<MethodShape>) -> bool
    ensures { (text : List ℕ)
        → IsShape (Some text) shape
        → IsTrue result ↔ IsDescriptorOf flags text }
{
    let most = if has(flags, ACC_STATIC) { 255 } else { 254 };
    match shape {
        Some(shape) => shape.units <= most,
        None => false,
    }
}

// Checks the attributes of a method, the first of which stands at this place, and answers the place behind the
// last.
fn check_method_attrs(
    alloc: Global,
    home: &Home<'_>,
    method: &CutMember<'_>,
    at: u64,
) -> Result<u64, ClassFault>
    requires shapes { home.now.shapes.now ≡ home.now.pool.now }
    requires fits { at + attrs_len (attrs_of method.now.attrs) < 2 ^ 63 }
    requires descriptor { IfSome (utf8_at home.now.pool.now method.now.desc)
        (IsDescriptorOf method.now.flags) }
    requires there { IsSome (utf8_at home.now.pool.now method.now.desc) }
    ensures { Tells (attrs_checks
        (method_attr_checks (home_seen home.now) (method_of method.now)) [] at
        (attrs_of method.now.attrs)) (λ end. end
        ≡ at + attrs_len (attrs_of method.now.attrs)) result }
{
    let mut place = at;
    let mut has_code = false;
    for attr in method.attrs.as_slice() {
        has_code |= check_method_attr(alloc, home, method, has_code, attr, place)?;
        place += 6 + attr.content.len() as u64;
    }
    Ok(place)
}

// Checks an attribute of a method, which stands at this place behind a Code or not, and answers whether it is a
// Code itself.
fn check_method_attr(
    alloc: Global,
    home: &Home<'_>,
    method: &CutMember<'_>,
    has_code: bool,
    attr: &CutAttr<'_>,
    at: u64,
) -> Result<bool, ClassFault>
    requires shapes { home.now.shapes.now ≡ home.now.pool.now }
    requires fits { at + 6 + length attr.now.content.now < 2 ^ 63 }
    requires descriptor { IfSome (utf8_at home.now.pool.now method.now.desc)
        (IsDescriptorOf method.now.flags) }
    requires there { IsSome (utf8_at home.now.pool.now method.now.desc) }
    ensures { (before : List Attr) → has_code ≡ has_named home.now.pool.now code before
        → Tells (method_attr_checks (home_seen home.now) (method_of method.now) before at
        (attr_of attr.now)) (λ is_code. is_code
        ≡ is_named home.now.pool.now code (attr_of attr.now)) result }
{
    let name = ask_text(home.pool, attr.name, at)?;
    let is_code = name.bytes() == CODE;
    if is_code {
        ask(!has_code, at, FileRule::Twice)?;
        check_code(alloc, home, method, attr.content, at)?;
    }
    Ok(is_code)
}
