//! What instructions ask of operands.
ghost use Rattle.std.specs.Prelude.{◌≡◌, ◌↔◌, [], ◌∷◌, length, map, IsTrue};
ghost use Rattle.class_model.specs.Code.{verification_type};
ghost use Rattle.class_tree.specs.Headers.{Name};
ghost use Rattle.class_tree.specs.Subtype.{IsArray, IsReferenceComponent};
ghost use Rattle.member_link.specs.Rows.Operands.{Fits, AllFit, IsAmong, IsNullOr, IsOfKind, assignable_to, topmost};
ghost use Rattle.type_rules.specs.Inner.Meanings.{need_meant};
ghost use Rattle.member_link.specs.Scope.{row_scope};

use crate::assignability::{is_object_of, is_value_of};
use crate::method_rules::MethodRules;
use class_model::{FieldType, Kind, VType};
use class_tree::{component, is_array};

/// What an instruction asks of an operand.
#[derive(Clone, Copy)]
pub(crate) enum Need<'a> {
    /// A value of a kind.
    OfKind(Kind),
    /// A reference that is initialised, or null.
    Initialised,
    /// One that is not.
    Uninitialised,
    /// A value that is assignable to a field type.
    Value(&'a FieldType),
    /// An object that is assignable to a class or array.
    Object(&'a [u8]),
    /// The same, or an uninitialised `this`.
    ObjectOrThis(&'a [u8]),
    /// Null, or one of two arrays by its type.
    ArrayAmong(&'static [u8], &'static [u8]),
    /// Null, or an array of references.
    ArrayOfReferences,
    /// Null, or any array.
    SomeArray,
}

impl Need<'_> {
    /// Whether an operand fits.
    pub(crate) fn fits(&self, rules: &MethodRules<'_>, operand: &VType) -> bool
        ensures { IsTrue result ↔ Fits (row_scope rules.now) (need_meant self.now) operand.now }
    {
        match self {
            Need::OfKind(kind) => is_of_kind(*kind, operand),
            Need::Initialised => matches!(operand, VType::Null | VType::Object(_)),
            Need::Uninitialised => matches!(operand, VType::UninitThis | VType::Uninit(_)),
            Need::Value(to) => is_value_of(rules.tree, operand, to),
            Need::Object(to) => is_object_of(rules.tree, operand, to),
            Need::ObjectOrThis(to) => {
                matches!(operand, VType::UninitThis) || is_object_of(rules.tree, operand, to)
            }
            Need::ArrayAmong(one, other) => is_null_or_among(operand, one, other),
            Need::ArrayOfReferences => is_null_or_array_of_references(operand),
            Need::SomeArray => is_null_or_array(operand),
        }
    }
}

/// Whether an operand is a value of a kind.
pub(crate) fn is_of_kind(kind: Kind, operand: &VType) -> bool
    ensures { IsTrue result ↔ IsOfKind kind operand.now }
{
    match kind {
        Kind::Int => matches!(operand, VType::Int),
        Kind::Long => matches!(operand, VType::Long),
        Kind::Float => matches!(operand, VType::Float),
        Kind::Double => matches!(operand, VType::Double),
        Kind::Ref => matches!(
            operand,
            VType::Null | VType::Object(_) | VType::UninitThis | VType::Uninit(_)
        ),
    }
}

// Whether an operand is null, or one of two arrays.
fn is_null_or_among(operand: &VType, one: &[u8], other: &[u8]) -> bool
    ensures { IsTrue result ↔ IsNullOr (IsAmong (one.now ∷ other.now ∷ [])) operand.now }
{
    match operand {
        VType::Null => true,
        VType::Object(name) => name.bytes() == one || name.bytes() == other,
        _ => false,
    }
}

// Whether an operand is null, or an array of references.
fn is_null_or_array_of_references(operand: &VType) -> bool
    ensures { IsTrue result
        ↔ IsNullOr (λ name. (component : Name) × IsReferenceComponent name component) operand.now }
{
    match operand {
        VType::Null => true,
        VType::Object(name) => component(name.bytes()).is_some(),
        _ => false,
    }
}

// Whether an operand is null, or an array.
fn is_null_or_array(operand: &VType) -> bool
    ensures { IsTrue result ↔ IsNullOr IsArray operand.now }
{
    match operand {
        VType::Null => true,
        VType::Object(name) => is_array(name.bytes()),
        _ => false,
    }
}

/// Whether the topmost entries of a stack fit, the topmost last.
pub(crate) fn all_fit(rules: &MethodRules<'_>, needs: &[Need<'_>], stack: &[VType]) -> bool
    ensures { IsTrue result
        ↔ AllFit (row_scope rules.now) (map need_meant needs.now)
        (topmost (length needs.now) stack.now) }
{
    let operands = topmost(stack, needs.len());
    needs.len() == operands.len()
        && needs
            .iter()
            .zip(operands)
            .all(|(need, operand)| need.fits(rules, operand))
}

/// Whether entries are assignable to field types, one by one.
pub(crate) fn are_values_of(rules: &MethodRules<'_>, types: &[FieldType], entries: &[VType]) -> bool
    ensures { IsTrue result
        ↔ AllFit (row_scope rules.now)
        (map (λ type. assignable_to (verification_type type)) types.now) entries.now }
{
    types.len() == entries.len()
        && types
            .iter()
            .zip(entries)
            .all(|(to, from)| is_value_of(rules.tree, from, to))
}

/// The topmost entries of a stack, so many, or all of them where there are fewer.
pub(crate) fn topmost(stack: &[VType], count: usize) -> &[VType]
    ensures { result.now ≡ topmost count stack.now }
{
    &stack[stack.len().saturating_sub(count)..]
}
