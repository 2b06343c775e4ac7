//! How a method that stands in place of its calls is called, and how it returns.
ghost use Rattle.std.specs.Prelude.{◌≡◌, ◌+◌, ◌≤◌, ◌++◌, not, ℕ, length, map, Some, IfOk, OnOk};
ghost use Rattle.std.specs.List.{AllByRecursion};
ghost use Rattle.class_model.specs.Descriptors.{SpellsDescriptor, parameter_units, parameters_of};
ghost use Rattle.class_model.specs.Members.{STATIC, has};
ghost use Rattle.code_bytes.specs.Codes.{IsReadMethod};
ghost use Rattle.expanded_code.specs.Expanded.{arguments_from, narrowing, tests_receiver};
ghost use Rattle.inline_expand.specs.Inner.Layouts.{AreParameters, EndsBy, IsShape, argument_from, narrowing_of};
ghost use Rattle.inline_expand.specs.Inner.Steps.{IsCallable};
ghost use Rattle.member_link.specs.Scope.{own_descriptor};
ghost use Rattle.member_link.specs.Signatures.{result_of};

use crate::host::Host;
use class_model::{ACC_STATIC, Descriptor, FieldType, Kind, NoMemory, has};
use code_bytes::method_descriptor;
use std::alloc::Global;

/// A parameter: its kind, and its local unit, counted from the method's first.
#[derive(Clone, Copy)]
pub(crate) struct Parameter {
    pub(crate) kind: Kind,
    pub(crate) unit: u16,
}

/// What becomes of an int before it is returned, by the declared type.
#[derive(Clone, Copy)]
pub(crate) enum Narrowed {
    Same,
    ToByte,
    ToShort,
    ToChar,
    ToBool,
}

impl Narrowed {
    /// How many instructions narrow a result.
    pub(crate) fn len(self) -> u16
        ensures { result ≡ length (narrowing_of self) }
    {
        match self {
            Narrowed::Same => 0,
            Narrowed::ToByte | Narrowed::ToShort | Narrowed::ToChar => 1,
            Narrowed::ToBool => 2,
        }
    }
}

/// The parameters of a method, its receiver first; whether the receiver is tested for null; and how a result is narrowed.
pub(crate) struct Shape {
    pub(crate) parameters: Vec<Parameter>,
    pub(crate) tests_receiver: bool,
    pub(crate) narrowed: Narrowed,
}

// Written out: a derived drop would be spelled out, field by field, in each function that drops one, and be proved there.
impl Drop for Shape {
    fn drop(self) {
        let Shape {
            parameters: _,
            tests_receiver: _,
            narrowed: _,
        } = self;
    }
}

/// The shape of a method.
///
/// # Errors
/// `NoMemory`, where memory runs out.
pub(crate) fn shape_of(alloc: Global, host: &Host<'_>) -> Result<Shape, NoMemory>
    requires { IsCallable host.now }
    ensures { IfOk result (IsShape host.now) }
{
    let descriptor = descriptor_of(alloc, host)?;
    let parameters = parameters_of(alloc, has_receiver(host), descriptor.params.as_slice())?;
    Ok(Shape {
        parameters,
        tests_receiver: tests_receiver(host),
        narrowed: narrowed_by(&descriptor.result),
    })
}

// The descriptor of a method that was read.
fn descriptor_of(alloc: Global, host: &Host<'_>) -> Result<Descriptor, NoMemory>
    requires { IsReadMethod host.now.class.pool host.now.method }
    ensures spelled { IfOk result (SpellsDescriptor (own_descriptor host.now)) }
    ensures params { IfOk result
        (λ descriptor. parameters_of (own_descriptor host.now) ≡ descriptor.params) }
    ensures given { IfOk result
        (λ descriptor. result_of (own_descriptor host.now) ≡ descriptor.result) }
{
    let method = host.method();
    match host.pool().utf8(method.desc) {
        Some(text) => method_descriptor(alloc, text, method.flags),
        None => unreachable!(),
    }
}

// Whether a method is called on an object.
fn has_receiver(host: &Host<'_>) -> bool
    ensures { result ≡ not (has host.now.method.flags STATIC) }
{
    !has(host.method().flags, ACC_STATIC)
}

// Whether the object is tested for null.
fn tests_receiver(host: &Host<'_>) -> bool
    ensures { result ≡ tests_receiver host.now }
{
    has_receiver(host) && !host.is_initialiser()
}

// The parameters of these types, behind a receiver or none.
fn parameters_of(
    alloc: Global,
    has_receiver: bool,
    types: &[FieldType],
) -> Result<Vec<Parameter>, NoMemory>
    requires { parameter_units types.now ≤ 255 }
    ensures { IfOk result (λ parameters. AreParameters has_receiver types.now parameters.items) }
{
    let mut parameters = Vec::new(alloc);
    if has_receiver {
        parameters.push(Parameter {
            kind: Kind::Ref,
            unit: 0,
        })?;
        push_parameters(&mut parameters, types, 1)?;
    } else {
        push_parameters(&mut parameters, types, 0)?;
    }
    Ok(parameters)
}

// Appends parameters, whose units begin at one.
fn push_parameters(
    parameters: &mut Vec<Parameter>,
    types: &[FieldType],
    first: u16,
) -> Result<(), NoMemory>
    requires { first + parameter_units types.now ≤ 256 }
    ensures each { OnOk result ((from : ℕ)
        → map (argument_from from) parameters.new.items
        ≡ map (argument_from from) parameters.old.items
        ++ arguments_from (from + first) types.now) }
    ensures inside { OnOk result ((end : ℕ)
        → first + parameter_units types.now ≤ end
        → AllByRecursion (EndsBy end) parameters.old.items
        → AllByRecursion (EndsBy end) parameters.new.items) }
{
    let mut unit = first;
    for field_type in types {
        let kind = field_type.kind();
        parameters.push(Parameter { kind, unit })?;
        unit += kind.units();
    }
    Ok(())
}

// How a result of a declared type is narrowed.
fn narrowed_by(result_type: &Option<FieldType>) -> Narrowed
    ensures { narrowing_of result ≡ narrowing result_type.now }
{
    match result_type {
        Some(field_type) => narrowed_to(field_type),
        None => Narrowed::Same,
    }
}

// How a value is narrowed to a field type.
fn narrowed_to(field_type: &FieldType) -> Narrowed
    ensures { narrowing_of result ≡ narrowing (Some field_type.now) }
{
    match field_type {
        FieldType::Byte => Narrowed::ToByte,
        FieldType::Short => Narrowed::ToShort,
        FieldType::Char => Narrowed::ToChar,
        FieldType::Bool => Narrowed::ToBool,
        FieldType::Int
        | FieldType::Long
        | FieldType::Float
        | FieldType::Double
        | FieldType::Named(_) => Narrowed::Same,
    }
}
