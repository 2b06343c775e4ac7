//! The rewriting of one method.
ghost use Rattle.std.specs.Prelude.{◌≡◌, IfOk};
ghost use Rattle.class_model.specs.declared.class_file.MethodAt.{MethodAt};
ghost use Rattle.class_rewrite.specs.Inner.Meanings.{IsEditOf};
ghost use Rattle.class_rewrite.specs.Inner.Outcomes.{IsOutcome};
ghost use Rattle.class_rewrite.specs.Inner.WrittenCodes.{IsFlatOf, IsLeastFor, IsOutcomeOf, MayBePlanned};
ghost use Rattle.flow_code.specs.TypedFrames.{FolderFrames};
ghost use Rattle.member_link.specs.Linked.{IsLinked};
ghost use Rattle.type_rules.specs.Verified.{TypesFolder};

use crate::method_laws::{a_flat_code_can_be_planned, field_constructors_have_descriptors};
use crate::outcome::{Outcome, RewrittenMethod};
use crate::written_method::written_method;
use class_model::{MethodAt, NoMemory};
use class_tree::Tree;
use code_drafts::Setting;
use expanded_runs::codes_of_a_tree_are_bytes;
use field_constructors::Constructors;
use flow_code::{Flat, KeptFault, Reason};
use inline_expand::Expander;
use materialise::Units;
use member_link::a_tree_has_links;
use plan_flow::{Plan, gain, least_plan};
use pool_edit::PoolEdit;
use std::alloc::Global;
use std::marker::Model;
use type_rules::TypedFolder;

/// Rewrites the methods of a folder. What is found of the folder is found once. Contracts see the folder and its frames.
pub(crate) struct Rewriter<'t> {
    tree: &'t Tree,
    expander: Expander<'t>,
    constructors: Constructors<'t>,
}

// Written out: a derived drop would be spelled out, field by field, in each function that drops one, and be proved there.
impl Drop for Rewriter<'_> {
    fn drop(self) {
        let Rewriter {
            tree: _,
            expander: _,
            constructors: _,
        } = self;
    }
}

impl<'t> Model for Rewriter<'t> {
    ghost use Rattle.std.specs.Prelude.{◌≡◌};
    ghost use Rattle.class_rewrite.specs.Inner.VerifiedFolders.{IsVerifiedFolder};
    ghost use Rattle.inline_expand.specs.TypedClasses.{TypedClasses};

    ghost Value = { TypedClasses };

    ghost view = { λ r. r.expander };

    ghost invariant = { λ r.
        IsVerifiedFolder r.expander
        × (r.tree.now ≡ r.expander.classes)
        × (r.constructors ≡ r.expander.classes) };
}

impl<'t> Rewriter<'t> {
    /// That of a linked folder with the frames that type it.
    ///
    /// # Errors
    /// `NoMemory`, where memory runs out.
    pub(crate) fn new(
        alloc: Global,
        tree: &'t Tree,
        typed: &'t TypedFolder,
    ) -> Result<Self, NoMemory>
        requires linked { IsLinked tree.now }
        requires typed { TypesFolder tree.now typed.now }
        ensures { IfOk result
            (λ rewriter. rewriter ≡ record { classes = tree.now; typed = typed.now }) }
    {
        codes_of_a_tree_are_bytes(tree);
        let _ = tree.folder();
        Ok(Rewriter {
            tree,
            expander: Expander::new(alloc, tree, typed)?,
            constructors: Constructors::new(alloc, tree)?,
        })
    }

    /// What becomes of a method, and what is written of it, where an edit of the pool of its class is as the methods before it leave it. The
    /// constants that it needs are added.
    ///
    /// # Errors
    /// `NoMemory`, where memory runs out.
    pub(crate) fn rewrite(
        &mut self,
        alloc: Global,
        at: MethodAt,
        pool: &mut PoolEdit,
    ) -> Result<Outcome, NoMemory>
        requires { IsEditOf self.old.classes at pool.old }
        ensures outcome { IfOk result
            (IsOutcome self.old.classes self.old.typed at pool.old pool.new) }
        ensures same { self.new ≡ self.old }
    {
        match self.expander.expand(alloc, at) {
            Ok(flat) => {
                let outcome = of_flat(alloc, self.tree, &self.constructors, &flat, pool);
                // let go by a call, so that its drop is proved once
                drop(flat);
                outcome
            }
            Err(KeptFault::Kept(reason)) => Ok(Outcome::Kept(reason)),
            Err(KeptFault::NoMemory) => Err(NoMemory),
        }
    }
}

// What becomes of a method that has a flat code with its callees in place of their calls.
fn of_flat(
    alloc: Global,
    tree: &Tree,
    constructors: &Constructors<'_>,
    flat: &Flat,
    pool: &mut PoolEdit,
) -> Result<Outcome, NoMemory>
    requires constructors { constructors.now ≡ tree.now }
    requires known { MayBePlanned tree.now flat.now pool.old }
    ensures { IfOk result (λ outcome. (typed : FolderFrames) (at : MethodAt)
        → IsFlatOf tree.now typed at flat.now
        → IsOutcome tree.now typed at pool.old pool.new outcome) }
{
    a_tree_has_links(tree);
    a_flat_code_can_be_planned();
    let plan = least_plan(alloc, tree, flat)?;
    let outcome = of_plan(alloc, tree, constructors, flat, &plan, pool);
    // let go by a call, so that its drop is proved once
    drop(plan);
    outcome
}

// What becomes of it, by its least plan.
fn of_plan(
    alloc: Global,
    tree: &Tree,
    constructors: &Constructors<'_>,
    flat: &Flat,
    plan: &Plan,
    pool: &mut PoolEdit,
) -> Result<Outcome, NoMemory>
    requires constructors { constructors.now ≡ tree.now }
    requires known { MayBePlanned tree.now flat.now pool.old }
    requires least { IsLeastFor tree.now flat.now plan.now }
    ensures { IfOk result (λ outcome. (typed : FolderFrames) (at : MethodAt)
        → IsFlatOf tree.now typed at flat.now
        → IsOutcome tree.now typed at pool.old pool.new outcome) }
{
    a_tree_has_links(tree);
    a_flat_code_can_be_planned();
    field_constructors_have_descriptors();
    if !gain(flat, plan) {
        return Ok(Outcome::Kept(Reason::NoGain));
    }
    let units = Units::new(alloc, flat)?;
    let setting = Setting::new(tree, flat, plan, constructors, &units);
    outcome_of(written_method(alloc, &setting, pool))
}

// What becomes of it where it could be written, or could not for a reason.
fn outcome_of(written: Result<RewrittenMethod, KeptFault>) -> Result<Outcome, NoMemory>
    ensures { IsOutcomeOf written result }
{
    match written {
        Ok(method) => Ok(Outcome::Rewritten(method)),
        Err(KeptFault::Kept(reason)) => Ok(Outcome::Kept(reason)),
        Err(KeptFault::NoMemory) => Err(NoMemory),
    }
}
