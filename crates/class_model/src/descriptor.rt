//! Descriptors: field types and method descriptors (JVM Specification SE 8, 4.3).
ghost use Rattle.std.specs.Prelude.{◌≡◌, ◌≢◌, ◌<◌, ◌↔◌, ◌∷◌, ℕ, List, length, slice_index, EachIndex, Option, IfOk, OnOk, IsErrOf, IfSome, IfNone, IsTrue};
ghost use Rattle.class_model.specs.Characters.{class_letter, semicolon};
ghost use Rattle.class_model.specs.ModifiedUtf8.{IsText};
ghost use Rattle.class_model.specs.Descriptors.{IsArrayType, SpellsFieldType, SpellsDescriptor, kind_of, units_of};
ghost use Rattle.class_model.specs.Inner.DescriptorParts.{base_type_of, ClassNameAt, ElementAt, BracketsAt, ArrayAt, FieldTypeAt, ParametersAt, SpellsResult};
ghost use Rattle.class_model.specs.declared.descriptor.FieldType.{FieldType};
ghost use Rattle.class_model.specs.declared.descriptor.Descriptor.{Descriptor};
ghost use Rattle.class_model.specs.declared.descriptor.NameFault.TheVariants.{NoMemory as no_memory};

use crate::list::ListOf;
use crate::memory::NoMemory;
use crate::names::is_class_name;
use crate::text::{Text, TextFault};
use std::alloc::{AllocError, AllocFailed, Global};

/// The kinds of values that instructions tell apart (JVM Specification SE 8, 2.11.1).
#[derive(Clone, Copy, PartialEq, Eq, Debug)]
pub enum Kind {
    Int,
    Long,
    Float,
    Double,
    Ref,
}

impl Kind {
    /// How many local units a value takes: long and double take two.
    pub fn units(self) -> u16
        ensures { result ≡ units_of self }
    {
        match self {
            Kind::Long | Kind::Double => 2,
            Kind::Int | Kind::Float | Kind::Ref => 1,
        }
    }
}

/// A field type (JVM Specification SE 8, 4.3.2).
#[derive(Debug)]
pub enum FieldType {
    Byte,
    Char,
    Short,
    Bool,
    Int,
    Long,
    Float,
    Double,
    /// A class by its name, or an array by its descriptor.
    Named(Text),
}

// Written out: a derived drop would be spelled out, field by field, in each function that drops one, and be proved there.
impl Drop for FieldType {
    fn drop(self) {
        match self {
            FieldType::Byte => {}
            FieldType::Char => {}
            FieldType::Short => {}
            FieldType::Bool => {}
            FieldType::Int => {}
            FieldType::Long => {}
            FieldType::Float => {}
            FieldType::Double => {}
            FieldType::Named(_) => {}
        }
    }
}

/// A list of field types.
pub type FieldTypeList = ListOf<FieldType>;

impl FieldType {
    /// The kind of its values.
    pub fn kind(&self) -> Kind
        ensures { result ≡ kind_of self.now }
    {
        match self {
            FieldType::Byte
            | FieldType::Char
            | FieldType::Short
            | FieldType::Bool
            | FieldType::Int => Kind::Int,
            FieldType::Long => Kind::Long,
            FieldType::Float => Kind::Float,
            FieldType::Double => Kind::Double,
            FieldType::Named(_) => Kind::Ref,
        }
    }
}

/// A method descriptor (JVM Specification SE 8, 4.3.3). A method without a result has none.
#[derive(Debug)]
pub struct Descriptor {
    pub params: FieldTypeList,
    pub result: Option<FieldType>,
}

// Written out: a derived drop would be spelled out, field by field, in each function that drops one, and be proved there.
impl Drop for Descriptor {
    fn drop(self) {
        let Descriptor {
            params: _,
            result: _,
        } = self;
    }
}

impl Descriptor {
    /// The type of what it gives, if it gives a value.
    pub fn into_result(self) -> Option<FieldType>
        ensures { result ≡ self.result }
    {
        let Descriptor { params: _, result } = self;
        result
    }
}

/// Why a text was not parsed.
#[derive(Clone, Copy, PartialEq, Eq, Debug)]
pub enum NameFault {
    /// The text is outside the grammar.
    BadName,
    /// Memory ran out.
    NoMemory,
}

impl From<NoMemory> for NameFault {
    ghost from_gives = { λ _ fault. fault ≡ no_memory };

    fn from(_: NoMemory) -> Self {
        NameFault::NoMemory
    }
}

impl From<AllocError> for NameFault {
    ghost from_gives = { λ _ fault. fault ≡ no_memory };

    fn from(_: AllocError) -> Self {
        NameFault::NoMemory
    }
}

impl<T: Drop> From<AllocFailed<T>> for NameFault {
    ghost from_gives = { λ _ fault. fault ≡ no_memory };

    fn from(_: AllocFailed<T>) -> Self {
        NameFault::NoMemory
    }
}

/// The field type that a text spells (JVM Specification SE 8, 4.3.2).
///
/// # Errors
/// `BadName` exactly where it spells none. `NoMemory`, where memory runs out.
pub fn parse_field_type(alloc: Global, text: &Text) -> Result<FieldType, NameFault>
    ensures read { IfOk result (SpellsFieldType text.now) }
    ensures bad_name { IsErrOf result NameFault.BadName
        → (type : FieldType)
        → ¬ SpellsFieldType text.now type }
{
    whole_field_type(alloc, text.bytes())
}

/// The method descriptor that a text spells (JVM Specification SE 8, 4.3.3), whose parameters take at most 255 local units,
/// `this` not counted.
///
/// # Errors
/// `BadName` exactly where it spells none. `NoMemory`, where memory runs out.
pub fn parse_descriptor(alloc: Global, text: &Text) -> Result<Descriptor, NameFault>
    ensures read { IfOk result (SpellsDescriptor text.now) }
    ensures bad_name { IsErrOf result NameFault.BadName
        → (descriptor : Descriptor)
        → ¬ SpellsDescriptor text.now descriptor }
{
    let Some(after) = after_byte(text.bytes(), b'(') else {
        return Err(NameFault::BadName);
    };
    let (params, rest) = parameters_at(alloc, after)?;
    let result = whole_result(alloc, rest)?;
    Ok(Descriptor { params, result })
}

/// Whether bytes are an array type of at most 255 dimensions (JVM Specification SE 8, 4.3.2). It takes no memory.
pub fn is_array_type(bytes: &[u8]) -> bool
    ensures { IsTrue result ↔ IsArrayType bytes.now }
{
    match after_array(bytes) {
        Some(rest) => rest.is_empty(),
        None => false,
    }
}

// The most local units that parameters may take.
pub(crate) const MAX_UNITS: u16 = 255;

// The most dimensions of an array type.
const MAX_DIMENSIONS: usize = 255;

// The parameters at the front, up to and with their closing parenthesis, and the bytes after it.
fn parameters_at(alloc: Global, bytes: &[u8]) -> Result<(FieldTypeList, &[u8]), NameFault>
    ensures read { IfOk result (λ found. ParametersAt 255 bytes.now found.0 found.1.now) }
    ensures bad_name { IsErrOf result NameFault.BadName
        → (types : List FieldType) (rest : List ℕ)
        → ¬ ParametersAt 255 bytes.now types rest }
{
    let mut params = ListOf::new(alloc);
    let mut units = 0;
    let mut rest = bytes;
    loop {
        if let Some(after) = after_byte(rest, b')') {
            return Ok((params, after));
        }
        let (param, after) = field_type_at(alloc, rest)?;
        units += param.kind().units();
        if units > MAX_UNITS {
            return Err(NameFault::BadName);
        }
        params.push(param)?;
        rest = after;
    }
}

// The result that all of the bytes spell.
fn whole_result(alloc: Global, bytes: &[u8]) -> Result<Option<FieldType>, NameFault>
    ensures read { IfOk result (SpellsResult bytes.now) }
    ensures bad_name { IsErrOf result NameFault.BadName
        → (type : Option FieldType)
        → ¬ SpellsResult bytes.now type }
{
    if let [b'V'] = bytes {
        return Ok(None);
    }
    let field_type = whole_field_type(alloc, bytes)?;
    Ok(Some(field_type))
}

// The field type that all of the bytes spell.
fn whole_field_type(alloc: Global, bytes: &[u8]) -> Result<FieldType, NameFault>
    ensures read { IfOk result (SpellsFieldType bytes.now) }
    ensures bad_name { IsErrOf result NameFault.BadName
        → (type : FieldType)
        → ¬ SpellsFieldType bytes.now type }
{
    let (field_type, rest) = field_type_at(alloc, bytes)?;
    if rest.is_empty() {
        Ok(field_type)
    } else {
        Err(NameFault::BadName)
    }
}

// The field type at the front, and the bytes after it.
fn field_type_at(alloc: Global, bytes: &[u8]) -> Result<(FieldType, &[u8]), NameFault>
    ensures read { IfOk result (λ found. FieldTypeAt bytes.now found.0 found.1.now) }
    ensures bad_name { IsErrOf result NameFault.BadName
        → (type : FieldType) (rest : List ℕ)
        → ¬ FieldTypeAt bytes.now type rest }
{
    let Some((first, after)) = bytes.split_first() else {
        return Err(NameFault::BadName);
    };
    match *first {
        b'[' => array_type_at(alloc, bytes),
        b'L' => class_type_at(alloc, after),
        letter => match base_type(letter) {
            Some(field_type) => Ok((field_type, after)),
            None => Err(NameFault::BadName),
        },
    }
}

// The array type at the front, and the bytes after it.
fn array_type_at(alloc: Global, bytes: &[u8]) -> Result<(FieldType, &[u8]), NameFault>
    ensures read { IfOk result (λ found. FieldTypeAt bytes.now found.0 found.1.now) }
    ensures bad_name { IsErrOf result NameFault.BadName
        → (text rest : List ℕ)
        → IsText text
        → ¬ ArrayAt bytes.now text rest }
{
    let Some(rest) = after_array(bytes) else {
        return Err(NameFault::BadName);
    };
    let len = bytes.len() - rest.len();
    let array = named(alloc, &bytes[..len])?;
    Ok((array, rest))
}

// The class type whose name, after its L, is at the front, and the bytes after its semicolon.
fn class_type_at(alloc: Global, bytes: &[u8]) -> Result<(FieldType, &[u8]), NameFault>
    ensures read { IfOk result
        (λ found. FieldTypeAt (class_letter ∷ bytes.now) found.0 found.1.now) }
    ensures bad_name { IsErrOf result NameFault.BadName
        → (name rest : List ℕ)
        → IsText name
        → ¬ ClassNameAt bytes.now name rest }
{
    let Some((name, rest)) = class_name_at(bytes) else {
        return Err(NameFault::BadName);
    };
    let class = named(alloc, name)?;
    Ok((class, rest))
}

// The class or array type of this name.
fn named(alloc: Global, name: &[u8]) -> Result<FieldType, NameFault>
    ensures read { IfOk result (λ type. type ≡ FieldType.Named name.now) }
    ensures text { OnOk result (IsText name.now) }
    ensures bad_name { IsErrOf result NameFault.BadName → ¬ IsText name.now }
{
    match Text::of_bytes(alloc, name) {
        Ok(text) => Ok(FieldType::Named(text)),
        Err(TextFault::BadText) => Err(NameFault::BadName),
        Err(TextFault::NoMemory) => Err(NameFault::NoMemory),
    }
}

// The base type of a letter.
fn base_type(byte: u8) -> Option<FieldType>
    ensures { result ≡ base_type_of byte }
{
    match byte {
        b'B' => Some(FieldType::Byte),
        b'C' => Some(FieldType::Char),
        b'D' => Some(FieldType::Double),
        b'F' => Some(FieldType::Float),
        b'I' => Some(FieldType::Int),
        b'J' => Some(FieldType::Long),
        b'S' => Some(FieldType::Short),
        b'Z' => Some(FieldType::Bool),
        _ => None,
    }
}

// The bytes after the array type at the front.
pub(crate) fn after_array(bytes: &[u8]) -> Option<&[u8]>
    ensures some { IfSome result (λ rest. (text : List ℕ) × ArrayAt bytes.now text rest.now) }
    ensures none { IfNone result ((text rest : List ℕ) → ¬ ArrayAt bytes.now text rest) }
{
    let element = after_brackets(bytes);
    let dimensions = bytes.len() - element.len();
    if dimensions == 0 || dimensions > MAX_DIMENSIONS {
        return None;
    }
    after_element(element)
}

// The bytes after all brackets at the front.
pub(crate) fn after_brackets(bytes: &[u8]) -> &[u8]
    ensures { BracketsAt bytes.now result.now }
{
    let mut rest = bytes;
    while let Some(after) = after_byte(rest, b'[') {
        rest = after;
    }
    rest
}

// The bytes after the first, if that is this byte.
pub(crate) fn after_byte(bytes: &[u8], byte: u8) -> Option<&[u8]>
    ensures some { IfSome result (λ rest. bytes.now ≡ byte ∷ rest.now) }
    ensures none { IfNone result ((rest : List ℕ) → bytes.now ≢ byte ∷ rest) }
{
    match bytes {
        [first, rest @ ..] if *first == byte => Some(rest),
        _ => None,
    }
}

// The bytes after the field type at the front, if that is no array.
pub(crate) fn after_element(bytes: &[u8]) -> Option<&[u8]>
    ensures some { IfSome result (λ rest. ElementAt bytes.now rest.now) }
    ensures none { IfNone result ((rest : List ℕ) → ¬ ElementAt bytes.now rest) }
{
    let (first, after) = bytes.split_first()?;
    match *first {
        b'L' => {
            let (_, rest) = class_name_at(after)?;
            Some(rest)
        }
        letter if base_type(letter).is_some() => Some(after),
        _ => None,
    }
}

// The class name up to the first semicolon, and the bytes after that.
fn class_name_at(bytes: &[u8]) -> Option<(&[u8], &[u8])>
    ensures some { IfSome result (λ found. ClassNameAt bytes.now found.0.now found.1.now) }
    ensures none { IfNone result ((name rest : List ℕ) → ¬ ClassNameAt bytes.now name rest) }
{
    let end = first_semicolon(bytes)?;
    let name = &bytes[..end];
    if is_class_name(name) {
        Some((name, &bytes[end + 1..]))
    } else {
        None
    }
}

// The index of the first semicolon.
fn first_semicolon(bytes: &[u8]) -> Option<usize>
    ensures within { IfSome result (λ end. end < length bytes.now) }
    ensures found { IfSome result (λ end. slice_index bytes.now end ≡ semicolon) }
    ensures before { IfSome result
        (λ end. (k : ℕ) → k < end → slice_index bytes.now k ≢ semicolon) }
    ensures none { IfNone result (EachIndex bytes.now (λ k. slice_index bytes.now k ≢ semicolon)) }
{
    bytes.iter().position(|byte| *byte == b';')
}
