//! The rules of instructions on arrays (JVM Specification SE 8, 6.5).
ghost use Rattle.std.specs.Prelude.{◌≡◌, [], ◌∷◌, map, replicate, Some, IfOk, IfSome};
ghost use Rattle.class_model.specs.Characters.{left_bracket};
ghost use Rattle.class_model.specs.Code.{FitsArray};
ghost use Rattle.class_model.specs.Descriptors.{named_text};
ghost use Rattle.class_model.specs.ModifiedUtf8.{IsText};
ghost use Rattle.class_model.specs.PoolChecks.{class_at};
ghost use Rattle.class_model.specs.declared.descriptor.Kind.TheVariants as kinds;
ghost use Rattle.class_model.specs.declared.opcodes.TheConstants.{AALOAD};
ghost use Rattle.class_tree.specs.Headers.{Name};
ghost use Rattle.class_tree.specs.Subtype.{IsReferenceComponent};
ghost use Rattle.member_link.specs.Rows.ArrayRows as rows;
ghost use Rattle.member_link.specs.Rows.Operands.{AllFit, IsNullOr, array_among, array_of_references, of_kind, topmost, lowest_of};
ghost use Rattle.member_link.specs.Rows.Row.{plain};
ghost use Rattle.type_rules.specs.Inner.Meanings.{need_meant};
ghost use Rattle.type_rules.specs.Rule.{RowRules};
ghost use Rattle.member_link.specs.Scope.{row_scope};

use crate::fault::RuleFault;
use crate::need::{Need, topmost};
use crate::ruled::Ruled;
use crate::step::Step;
use class_model::array_codes::{
    T_BOOLEAN, T_BYTE, T_CHAR, T_DOUBLE, T_FLOAT, T_INT, T_LONG, T_SHORT,
};
use class_model::opcodes::{IALOAD, IASTORE};
use class_model::{Kind, NoMemory, Text, VType};
use class_tree::{component, is_array};
use std::alloc::Global;

const INT: Need<'static> = Need::OfKind(Kind::Int);

const LONG: Need<'static> = Need::OfKind(Kind::Long);

const FLOAT: Need<'static> = Need::OfKind(Kind::Float);

const DOUBLE: Need<'static> = Need::OfKind(Kind::Double);

/// Pushes an element.
pub(crate) fn load(step: &Step<'_>, opcode: u8) -> Result<Ruled, RuleFault>
    ensures { RowRules (row_scope step.now.rules.now) step.now.before.now
        (rows.array_load_row step.now.before.now opcode) result }
{
    match opcode.checked_sub(IALOAD) {
        Some(0) => load_from(step, b"[I", VType::Int),
        Some(1) => load_from(step, b"[J", VType::Long),
        Some(2) => load_from(step, b"[F", VType::Float),
        Some(3) => load_from(step, b"[D", VType::Double),
        Some(4) => load_reference(step),
        Some(5) => step.plain(&[Need::ArrayAmong(b"[B", b"[Z"), INT], Some(VType::Int)),
        Some(6) => load_from(step, b"[C", VType::Int),
        Some(7) => load_from(step, b"[S", VType::Int),
        _ => step.no_row(),
    }
}

/// Pops a value into an element.
pub(crate) fn store(step: &Step<'_>, opcode: u8) -> Result<Ruled, RuleFault>
    ensures { RowRules (row_scope step.now.rules.now) step.now.before.now
        (rows.array_store_row step.now.before.now opcode) result }
{
    match opcode.checked_sub(IASTORE) {
        Some(0) => store_into(step, b"[I", INT),
        Some(1) => store_into(step, b"[J", LONG),
        Some(2) => store_into(step, b"[F", FLOAT),
        Some(3) => store_into(step, b"[D", DOUBLE),
        Some(4) => step.plain(&[Need::ArrayOfReferences, INT, Need::Initialised], None),
        Some(5) => step.plain(&[Need::ArrayAmong(b"[B", b"[Z"), INT, INT], None),
        Some(6) => store_into(step, b"[C", INT),
        Some(7) => store_into(step, b"[S", INT),
        _ => step.no_row(),
    }
}

// Pops an array of this name and an index, and pushes an element.
fn load_from(step: &Step<'_>, array: &'static [u8], element: VType) -> Result<Ruled, RuleFault>
    ensures { RowRules (row_scope step.now.rules.now) step.now.before.now
        (plain step.now.before.now (array_among (array.now ∷ []) ∷ of_kind kinds.Int ∷ [])
        (element ∷ [])) result }
{
    step.plain(&[Need::ArrayAmong(array, array), INT], Some(element))
}

// Pops an array of this name, an index and a value.
fn store_into(
    step: &Step<'_>,
    array: &'static [u8],
    value: Need<'static>,
) -> Result<Ruled, RuleFault>
    ensures { RowRules (row_scope step.now.rules.now) step.now.before.now
        (plain step.now.before.now
        (array_among (array.now ∷ []) ∷ of_kind kinds.Int ∷ need_meant value.entry ∷ []) [])
        result }
{
    step.plain(&[Need::ArrayAmong(array, array), INT, value], None)
}

// Pops an array of references and an index, and pushes an element.
fn load_reference(step: &Step<'_>) -> Result<Ruled, RuleFault>
    ensures { RowRules (row_scope step.now.rules.now) step.now.before.now
        (rows.array_load_row step.now.before.now AALOAD) result }
{
    let element = element(step)?;
    step.plain(&[Need::ArrayOfReferences, INT], Some(element))
}

// The type of the elements of the array of references under an index.
fn element(step: &Step<'_>) -> Result<VType, NoMemory>
    ensures { IfOk result (λ element.
        AllFit (row_scope step.now.rules.now) (array_of_references ∷ of_kind kinds.Int ∷ [])
        (topmost 2 step.now.before.now.stack)
        → element ≡ rows.component_type (lowest_of 2 step.now.before.now.stack)) }
{
    let operands = topmost(step.before.stack.as_slice(), 2);
    let [array, ..] = operands else {
        return Ok(VType::Null);
    };
    element_type(step.alloc, array)
}

// The type of the elements of an array of references. What is none has no elements.
fn element_type(alloc: Global, array: &VType) -> Result<VType, NoMemory>
    ensures { IfOk result (λ element.
        IsNullOr (λ name. (component : Name) × IsReferenceComponent name component) array.now
        → element ≡ rows.component_type array.now) }
{
    match array {
        VType::Object(name) => match component(name.bytes()) {
            Some(component) => Ok(VType::Object(Text::of_text(alloc, component)?)),
            None => Ok(VType::Null),
        },
        _ => Ok(VType::Null),
    }
}

/// Makes an array of a primitive type.
#[tactic(auto, using(crate::proofs::ArrayTexts::primitive_text))]
pub(crate) fn new_array(step: &Step<'_>, code: u8) -> Result<Ruled, RuleFault>
    ensures { RowRules (row_scope step.now.rules.now) step.now.before.now
        (rows.new_array_row step.now.before.now code) result }
{
    match code {
        T_BOOLEAN => made(step, b"[Z"),
        T_CHAR => made(step, b"[C"),
        T_FLOAT => made(step, b"[F"),
        T_DOUBLE => made(step, b"[D"),
        T_BYTE => made(step, b"[B"),
        T_SHORT => made(step, b"[S"),
        T_INT => made(step, b"[I"),
        T_LONG => made(step, b"[J"),
        _ => step.no_row(),
    }
}

/// Makes an array of a class or of arrays.
pub(crate) fn new_ref_array(step: &Step<'_>, index: u16) -> Result<Ruled, RuleFault>
    requires { IfSome (class_at step.now.rules.now.class.pool index) FitsArray }
    ensures { RowRules (row_scope step.now.rules.now) step.now.before.now
        (rows.new_ref_array_row (row_scope step.now.rules.now) step.now.before.now index) result }
{
    let rules = step.rules;
    let Some(name) = rules.class.pool.class_name(index) else {
        return step.no_row();
    };
    let array = array_of(step.alloc, name.bytes())?;
    made(step, array.as_slice())
}

// Pops a count and pushes an array of this name.
fn made(step: &Step<'_>, array: &[u8]) -> Result<Ruled, RuleFault>
    requires { IsText array.now }
    ensures { RowRules (row_scope step.now.rules.now) step.now.before.now
        (rows.made_row step.now.before.now 1 (Some array.now)) result }
{
    let array = Text::of_text(step.alloc, array)?;
    step.plain(&[INT], Some(VType::Object(array)))
}

// The name of the array of a class or array.
fn array_of(alloc: Global, name: &[u8]) -> Result<Vec<u8>, NoMemory>
    ensures { IfOk result (λ array. array.items ≡ left_bracket ∷ named_text name.now) }
{
    let mut array = Vec::with_capacity(alloc, name.len() + 3)?;
    array.push(b'[')?;
    if is_array(name) {
        array.extend_from_slice(name)?;
        return Ok(array);
    }
    array.push(b'L')?;
    array.extend_from_slice(name)?;
    array.push(b';')?;
    Ok(array)
}

/// Makes an array of arrays with so many counts.
pub(crate) fn new_multi(step: &Step<'_>, index: u16, dimensions: u8) -> Result<Ruled, RuleFault>
    ensures { RowRules (row_scope step.now.rules.now) step.now.before.now
        (rows.new_multi_row (row_scope step.now.rules.now) step.now.before.now index dimensions)
        result }
{
    let rules = step.rules;
    let Some(name) = rules.class.pool.class_name(index) else {
        return step.no_row();
    };
    let counts = counts(step.alloc, dimensions)?;
    let array = name.copy()?;
    step.plain(counts.as_slice(), Some(VType::Object(array)))
}

// What so many counts must be.
fn counts(alloc: Global, dimensions: u8) -> Result<Vec<Need<'static>>, NoMemory>
    ensures { IfOk result
        (λ counts. map need_meant counts.items ≡ replicate dimensions (of_kind kinds.Int)) }
{
    Ok(vec![in alloc; INT; usize::from(dimensions)]?)
}

/// The length of an array.
pub(crate) fn length(step: &Step<'_>) -> Result<Ruled, RuleFault>
    ensures { RowRules (row_scope step.now.rules.now) step.now.before.now
        (rows.length_row step.now.before.now) result }
{
    step.plain(&[Need::SomeArray], Some(VType::Int))
}
