//! The rules of returns (JVM Specification SE 8, 6.5).
ghost use Rattle.std.specs.Prelude.{◌≡◌, ◌↔◌, IsTrue, Some};
ghost use Rattle.class_model.specs.Code.{verification_type};
ghost use Rattle.member_link.specs.Rows.Assigning.{IsAssignableIn};
ghost use Rattle.member_link.specs.Rows.MemberRows.{MayReturn, MayReturnValue, NoUninitThis, return_row};
ghost use Rattle.type_rules.specs.Rule.{RowRules};
ghost use Rattle.member_link.specs.Scope.{row_scope};

use crate::assignability::{has_uninit_this, is_value_of};
use crate::fault::RuleFault;
use crate::method_rules::MethodRules;
use crate::need::Need;
use crate::operands::lowest_of;
use crate::ruled::Ruled;
use crate::step::Step;
use class_model::{FieldType, Frame, Kind, VType};

/// Returns, with a value of a kind or none.
pub(crate) fn give_back(step: &Step<'_>, kind: Option<Kind>) -> Result<Ruled, RuleFault>
    ensures { RowRules (row_scope step.now.rules.now) step.now.before.now
        (return_row (row_scope step.now.rules.now) step.now.before.now kind) result }
{
    match kind {
        Some(kind) => give_back_value(step, kind),
        None => step.end(0, may_return(step.rules, step.before)),
    }
}

// Returns with a value of a kind.
fn give_back_value(step: &Step<'_>, kind: Kind) -> Result<Ruled, RuleFault>
    ensures { RowRules (row_scope step.now.rules.now) step.now.before.now
        (return_row (row_scope step.now.rules.now) step.now.before.now (Some kind)) result }
{
    let needs = [Need::OfKind(kind)];
    step.takes(&needs)?;
    let top = VType::Top;
    let value = lowest_of(step.before.stack.as_slice(), 1, &top);
    step.end(1, may_return_value(step.rules, kind, value))
}

// Whether a method may return none behind a frame: an instance initialiser when its this is initialised.
fn may_return(rules: &MethodRules<'_>, frame: &Frame) -> bool
    ensures { IsTrue result ↔ MayReturn (row_scope rules.now) frame.now }
{
    rules.result().is_none() && (!rules.is_init() || is_this_initialised(frame))
}

// Whether no uninitialised this is in a frame.
fn is_this_initialised(frame: &Frame) -> bool
    ensures { IsTrue result ↔ (NoUninitThis frame.now.locals × NoUninitThis frame.now.stack) }
{
    !has_uninit_this(&frame.locals) && has_no_uninit_this(frame.stack.as_slice())
}

// Whether no entry is an uninitialised this.
fn has_no_uninit_this(entries: &[VType]) -> bool
    ensures { IsTrue result ↔ NoUninitThis entries.now }
{
    entries
        .iter()
        .all(|entry| !matches!(entry, VType::UninitThis))
}

// Whether a method may return a value of a kind.
fn may_return_value(rules: &MethodRules<'_>, kind: Kind, value: &VType) -> bool
    ensures { IsTrue result ↔ MayReturnValue (row_scope rules.now) kind value.now }
{
    match rules.result() {
        Some(result) => result.kind() == kind && is_value_if_ref(rules, kind, value, result),
        None => false,
    }
}

// Whether a value is assignable to a field type, if it is a reference by its kind.
fn is_value_if_ref(
    rules: &MethodRules<'_>,
    kind: Kind,
    value: &VType,
    field_type: &FieldType,
) -> bool
    ensures { IsTrue result
        ↔ (kind ≡ Kind.Ref
        → IsAssignableIn rules.now.headers rules.now.class.major value.now
        (verification_type field_type.now)) }
{
    match kind {
        Kind::Ref => is_value_of(rules.tree, value, field_type),
        Kind::Int | Kind::Long | Kind::Float | Kind::Double => true,
    }
}
