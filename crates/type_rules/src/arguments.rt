//! The receiver and the arguments of a call.
ghost use Rattle.std.specs.Prelude.{◌≡◌, ◌↔◌, IsTrue, length};
ghost use Rattle.member_link.specs.Rows.Operands.{AllFit};
ghost use Rattle.type_rules.specs.Inner.Calls.{TakesSo, operand_needs, signature_row};
ghost use Rattle.type_rules.specs.Rule.{RowRules};
ghost use Rattle.member_link.specs.Scope.{row_scope};

use crate::descriptors::result_type;
use crate::fault::{RuleFault, TypeRule};
use crate::method_rules::MethodRules;
use crate::need::{Need, are_values_of, topmost};
use crate::ruled::Ruled;
use crate::step::Step;
use class_model::{Descriptor, FieldType, VType};

/// Calls a method of this descriptor, on a receiver or none.
pub(crate) fn call_with(
    step: &Step<'_>,
    receiver: Option<Need<'_>>,
    descriptor: &Descriptor,
    further: bool,
    access: bool,
) -> Result<Ruled, RuleFault>
    ensures { RowRules (row_scope step.now.rules.now) step.now.before.now
        (signature_row step.now.before.now receiver.entry descriptor.now (IsTrue further)
        (IsTrue access)) result }
{
    let count = take_operands(step, receiver, descriptor)?;
    let stack = step.replaced(count, result_type(descriptor)?)?;
    let locals = step.before.locals.copy(step.alloc)?;
    step.conclude(stack, locals, further, access)
}

/// Asks that the topmost entries of the stack are a receiver, if there is one, and arguments, and counts them.
///
/// # Errors
/// `Stack`.
pub(crate) fn take_operands(
    step: &Step<'_>,
    receiver: Option<Need<'_>>,
    descriptor: &Descriptor,
) -> Result<usize, RuleFault>
    ensures { TakesSo (row_scope step.now.rules.now) step.now.before.now
        (operand_needs receiver.entry descriptor.now.params) result }
{
    let rules = step.rules;
    let params = descriptor.params.as_slice();
    let count = operand_count(receiver, params);
    let operands = topmost(step.before.stack.as_slice(), count);
    if are_operands(rules, receiver, params, operands) {
        Ok(count)
    } else {
        Err(RuleFault::Fails(TypeRule::Stack))
    }
}

// How many operands a call takes.
fn operand_count(receiver: Option<Need<'_>>, params: &[FieldType]) -> usize
    ensures { result ≡ length (operand_needs receiver.entry params.now) }
{
    match receiver {
        Some(_) => params.len() + 1,
        None => params.len(),
    }
}

// Whether operands are a receiver, if there is one, and arguments.
fn are_operands(
    rules: &MethodRules<'_>,
    receiver: Option<Need<'_>>,
    params: &[FieldType],
    operands: &[VType],
) -> bool
    ensures { IsTrue result
        ↔ AllFit (row_scope rules.now) (operand_needs receiver.entry params.now) operands.now }
{
    match receiver {
        Some(need) => match operands.split_first() {
            Some((first, arguments)) => need.fits(rules, first)
                && are_values_of(rules, params, arguments),
            None => false,
        },
        None => are_values_of(rules, params, operands),
    }
}
