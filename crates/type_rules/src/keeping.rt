//! Instructions that leave the frame before them, or its locals or all but a few, as they are.
ghost use Rattle.std.specs.Prelude.{◌≡◌, ℕ, [], Some, Ok, IsTrue};
ghost use Rattle.class_model.specs.declared.frame.Frame.{Frame as frame};
ghost use Rattle.member_link.specs.RowScope.{RowScope};
ghost use Rattle.member_link.specs.Rows.Table.{row_of};
ghost use Rattle.type_rules.specs.Changes.{AreBehind};
ghost use Rattle.type_rules.specs.Inner.Keeping.{is_known_to_leave};
ghost use Rattle.type_rules.specs.Rule.{Rules};

use crate::method_rules::MethodRules;
use crate::step::is_within;
use class_model::opcodes::INVOKESPECIAL;
use class_model::{Frame, Instr, Placed};

impl MethodRules<'_> {
    /// Whether the rule of an instruction is known to hold behind this frame, and to leave the frame as it is (JVM
    /// Specification SE 8, 4.10.1.9): it is a `nop`, and the stack is no deeper than the method's may be. Where
    /// the answer is no, `rule` says what the instruction does.
    pub fn keeps(&self, instr: &Placed, before: &Frame) -> bool
        ensures { IsTrue result → Rules self.now instr.now before.now
            (Ok (record {
              next = Some before.now;
              thrown = record { locals = before.now.locals; stack = [] };
            })) }
    {
        match &instr.instr {
            Instr::Nop => is_within(before.stack.as_slice(), self.part.max_stack),
            _ => false,
        }
    }
}

/// The local units, counted from 0, that may have other types behind an instruction than before it.
#[derive(Clone, Copy, PartialEq, Eq)]
pub enum LocalChanges {
    /// None.
    Nowhere,
    /// Those from one number up to before another.
    Within { from: usize, end: usize },
    /// Any.
    Anywhere,
}

/// The local units whose types an instruction may change, whatever the frame before it (JVM Specification SE 8, 4.10.1.9):
/// for a store those that it writes, and the one before them, since a long or double there is cut. For a `new` and an
/// `invokespecial` the answer is any.
pub fn local_changes(instr: &Instr) -> LocalChanges
    ensures { (s : RowScope) (before : frame) (at : ℕ)
        → AreBehind result before.locals (row_of s before at instr.now).locals }
{
    match instr {
        Instr::Store(_, local) => LocalChanges::Within {
            from: usize::from(*local).saturating_sub(1),
            end: usize::from(*local) + 2,
        },
        other if is_known_to_leave(other) => LocalChanges::Nowhere,
        _ => LocalChanges::Anywhere,
    }
}

// Whether an instruction is neither a store, nor a `new`, nor a call that may initialise an object.
fn is_known_to_leave(instr: &Instr) -> bool
    ensures { result ≡ is_known_to_leave instr.now }
{
    match instr {
        Instr::Store(_, _) | Instr::New(_) => false,
        Instr::Invoke(opcode, _, _) => *opcode != INVOKESPECIAL,
        _ => true,
    }
}
