//! The rule of each instruction (JVM Specification SE 8, 4.10.1.9).
ghost use Rattle.std.specs.Prelude.{IfSome, IsSome};
ghost use Rattle.member_link.specs.Linked.{IsLinked};
ghost use Rattle.type_rules.specs.Rule.{FitsPool, Rules};
ghost use Rattle.member_link.specs.Scope.{scope_at};

use crate::arithmetic::{divide, float, pure};
use crate::calls::{call, call_dynamic};
use crate::constants::{push_constant, push_imm};
use crate::fault::RuleFault;
use crate::fields::{get_field, get_static, put_field, put_static};
use crate::jumps::{choose, compare_ints, compare_null, compare_references, compare_zero};
use crate::method_rules::MethodRules;
use crate::objects::{cast, is_instance, new_object, throw, use_monitor};
use crate::returns::give_back;
use crate::ruled::Ruled;
use crate::shuffles::shuffle;
use crate::step::Step;
use crate::{arrays, locals};
use class_model::{Frame, Instr, MethodAt, Placed};
use class_tree::Tree;
use std::alloc::Global;

/// What an instruction of a method does to the frame before it: the frame with which control goes on, and the one that
/// handlers see (JVM Specification SE 8, 4.10.1.9).
///
/// # Errors
/// `Fails` with the first rule that fails, of `Stack`, `Local`, `Depth` and `Kind`; `NoMemory`, where memory runs out.
pub fn rule(
    alloc: Global,
    tree: &Tree,
    at: MethodAt,
    instr: &Placed,
    before: &Frame,
) -> Result<Ruled, RuleFault>
    requires linked { IsLinked tree.now }
    requires has_code { IsSome (scope_at tree.now at) }
    requires fits { IfSome (scope_at tree.now at) (λ s. FitsPool s instr.now.instr) }
    ensures { IfSome (scope_at tree.now at) (λ s. Rules s instr.now before.now result) }
{
    let rules = MethodRules::new(alloc, tree, at)?;
    let ruled = rules.rule(alloc, instr, before);
    // let go by a call, so that its drop is proved once
    drop(rules);
    ruled
}

impl MethodRules<'_> {
    /// What an instruction of the method does to the frame before it, as `rule`.
    ///
    /// # Errors
    /// As `rule`.
    pub fn rule(&self, alloc: Global, instr: &Placed, before: &Frame) -> Result<Ruled, RuleFault>
        requires { FitsPool self.now instr.now.instr }
        ensures { Rules self.now instr.now before.now result }
    {
        let step = Step {
            alloc,
            rules: self,
            before,
        };
        rule_behind(&step, instr)
    }
}

// What an instruction does to the frame behind which it stands.
fn rule_behind(step: &Step<'_>, instr: &Placed) -> Result<Ruled, RuleFault>
    requires { FitsPool step.now.rules.now instr.now.instr }
    ensures { Rules step.now.rules.now instr.now step.now.before.now result }
{
    match &instr.instr {
        Instr::Nop | Instr::Goto(_) => step.unchanged(),
        Instr::Const(imm) => push_imm(step, *imm),
        Instr::Ldc(index) | Instr::Ldc2(index) => push_constant(step, *index),
        Instr::Load(kind, local) => locals::load(step, *kind, *local),
        Instr::Store(kind, local) => locals::store(step, *kind, *local),
        Instr::Iinc(local, _) => locals::increment(step, *local),
        Instr::ArrayLoad(opcode) => arrays::load(step, *opcode),
        Instr::ArrayStore(opcode) => arrays::store(step, *opcode),
        Instr::Shuffle(opcode) => shuffle(step, *opcode),
        Instr::Pure(opcode) => pure(step, *opcode),
        Instr::Divide(opcode) => divide(step, *opcode),
        Instr::FloatAsk(opcode) => float(step, *opcode),
        Instr::If(opcode, _) => compare_zero(step, *opcode),
        Instr::If2(opcode, _) => compare_ints(step, *opcode),
        Instr::IfSame(opcode, _) => compare_references(step, *opcode),
        Instr::IfNull(opcode, _) => compare_null(step, *opcode),
        Instr::Table { .. } | Instr::Lookup { .. } => choose(step),
        Instr::Enter | Instr::Leave => use_monitor(step),
        Instr::Return(kind) => give_back(step, *kind),
        Instr::GetStatic(index) => get_static(step, *index),
        Instr::PutStatic(index) => put_static(step, *index),
        Instr::GetField(index) => get_field(step, *index),
        Instr::PutField(index) => put_field(step, *index),
        Instr::Invoke(opcode, index, _) => call(step, *opcode, *index),
        Instr::Dynamic(index) => call_dynamic(step, *index),
        Instr::New(_) => new_object(step, instr.at),
        Instr::NewArray(code) => arrays::new_array(step, *code),
        Instr::NewRefArray(index) => arrays::new_ref_array(step, *index),
        Instr::NewMulti(index, dimensions) => arrays::new_multi(step, *index, *dimensions),
        Instr::Length => arrays::length(step),
        Instr::Throw => throw(step),
        Instr::Cast(index) => cast(step, *index),
        Instr::InstanceOf(_) => is_instance(step),
    }
}
