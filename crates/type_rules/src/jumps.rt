//! Jumps that take operands (JVM Specification SE 8, 6.5).
ghost use Rattle.std.specs.Prelude.{◌&&◌, [], ◌∷◌, map, nat_le};
ghost use Rattle.class_model.specs.declared.descriptor.Kind.TheVariants as kinds;
ghost use Rattle.class_model.specs.declared.opcodes.TheConstants as opcodes;
ghost use Rattle.member_link.specs.Rows.Operands.{of_kind};
ghost use Rattle.member_link.specs.Rows.Row.{plain};
ghost use Rattle.member_link.specs.Rows.Table.{jump_row};
ghost use Rattle.type_rules.specs.Inner.Meanings.{need_meant};
ghost use Rattle.type_rules.specs.Rule.{RowRules};
ghost use Rattle.member_link.specs.Scope.{row_scope};

use crate::fault::RuleFault;
use crate::need::Need;
use crate::ruled::Ruled;
use crate::step::Step;
use class_model::Kind;
use class_model::opcodes::{
    IF_ACMPEQ, IF_ACMPNE, IF_ICMPEQ, IF_ICMPLE, IFEQ, IFLE, IFNONNULL, IFNULL,
};

const INT: Need<'static> = Need::OfKind(Kind::Int);

const REF: Need<'static> = Need::OfKind(Kind::Ref);

/// Compares an int with 0.
pub(crate) fn compare_zero(step: &Step<'_>, opcode: u8) -> Result<Ruled, RuleFault>
    ensures { RowRules (row_scope step.now.rules.now) step.now.before.now
        (jump_row step.now.before.now (nat_le opcodes.IFEQ opcode && nat_le opcode opcodes.IFLE)
        (of_kind kinds.Int ∷ [])) result }
{
    compare(step, IFEQ <= opcode && opcode <= IFLE, &[INT])
}

/// Compares two ints.
pub(crate) fn compare_ints(step: &Step<'_>, opcode: u8) -> Result<Ruled, RuleFault>
    ensures { RowRules (row_scope step.now.rules.now) step.now.before.now
        (jump_row step.now.before.now
        (nat_le opcodes.IF_ICMPEQ opcode && nat_le opcode opcodes.IF_ICMPLE)
        (of_kind kinds.Int ∷ of_kind kinds.Int ∷ [])) result }
{
    compare(
        step,
        IF_ICMPEQ <= opcode && opcode <= IF_ICMPLE,
        &[INT, INT],
    )
}

/// Compares two references.
pub(crate) fn compare_references(step: &Step<'_>, opcode: u8) -> Result<Ruled, RuleFault>
    ensures { RowRules (row_scope step.now.rules.now) step.now.before.now
        (jump_row step.now.before.now
        (nat_le opcodes.IF_ACMPEQ opcode && nat_le opcode opcodes.IF_ACMPNE)
        (of_kind kinds.Ref ∷ of_kind kinds.Ref ∷ [])) result }
{
    compare(
        step,
        IF_ACMPEQ <= opcode && opcode <= IF_ACMPNE,
        &[REF, REF],
    )
}

/// Compares a reference with null.
pub(crate) fn compare_null(step: &Step<'_>, opcode: u8) -> Result<Ruled, RuleFault>
    ensures { RowRules (row_scope step.now.rules.now) step.now.before.now
        (jump_row step.now.before.now
        (nat_le opcodes.IFNULL opcode && nat_le opcode opcodes.IFNONNULL)
        (of_kind kinds.Ref ∷ [])) result }
{
    compare(step, IFNULL <= opcode && opcode <= IFNONNULL, &[REF])
}

/// Jumps by a table.
pub(crate) fn choose(step: &Step<'_>) -> Result<Ruled, RuleFault>
    ensures { RowRules (row_scope step.now.rules.now) step.now.before.now
        (plain step.now.before.now (of_kind kinds.Int ∷ []) []) result }
{
    step.plain(&[INT], None)
}

// Compares operands, by an opcode that is known or not.
fn compare(step: &Step<'_>, is_known: bool, needs: &[Need<'_>]) -> Result<Ruled, RuleFault>
    ensures { RowRules (row_scope step.now.rules.now) step.now.before.now
        (jump_row step.now.before.now is_known (map need_meant needs.now)) result }
{
    if is_known {
        step.plain(needs, None)
    } else {
        step.no_row()
    }
}
