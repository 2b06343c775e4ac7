//! Whether the jumps of a code go to instructions (JVM Specification SE 8, 4.9.1).
ghost use Rattle.std.specs.Prelude.{◌≡◌};
ghost use Rattle.std.specs.List.{list_all};
ghost use Rattle.class_model.specs.Answers.{Tells};
ghost use Rattle.class_model.specs.Code.{jump_checks};
ghost use Rattle.class_model.specs.Instructions.{is_start, targets};

use class_model::{ClassFault, CodeIndex, FileRule, Instr, PlacedList};
use std::alloc::Global;

/// Tests that each target is the start of an instruction, in time linear in the code's length.
pub(crate) fn check_jumps(alloc: Global, code: &PlacedList) -> Result<(), ClassFault>
    ensures { Tells (jump_checks 0 code.now code.now) (λ _. Unit {0}) result }
{
    let index = CodeIndex::of(alloc, code)?;
    for placed in code.as_slice() {
        if !has_targets(&index, &placed.instr) {
            return Err(ClassFault::Malformed {
                at: u64::from(placed.at),
                rule: FileRule::Jump,
            });
        }
    }
    Ok(())
}

// Whether each target of an instruction is a start.
fn has_targets(code: &CodeIndex<'_>, instr: &Instr) -> bool
    ensures { result ≡ list_all (is_start code.now) (targets instr.now) }
{
    match instr {
        Instr::If(_, to)
        | Instr::If2(_, to)
        | Instr::IfSame(_, to)
        | Instr::IfNull(_, to)
        | Instr::Goto(to) => code.has_start(*to),
        Instr::Table { other, targets, .. } => {
            code.has_start(*other) && targets.as_slice().iter().all(|to| code.has_start(*to))
        }
        Instr::Lookup { other, pairs } => {
            code.has_start(*other) && pairs.as_slice().iter().all(|pair| code.has_start(pair.to))
        }
        _ => true,
    }
}
