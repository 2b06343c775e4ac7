//! Optimising a folder.
ghost use Rattle.std.specs.Prelude.{IfOk, length};
ghost use Rattle.class_rewrite.specs.Inner.Marking.{AreFieldsMarked, AreMarked, IsListed, StandsInMade};
ghost use Rattle.class_rewrite.specs.Optimised.{IsOptimised};
ghost use Rattle.class_tree.specs.Headers.{headers_of};
ghost use Rattle.member_link.specs.Linked.{IsLinked};
ghost use Rattle.type_rules.specs.Verified.{TypesFolder};

use crate::decided::Decided;
use crate::drafts::{Drafts, drafts_of};
use crate::finished::{Additions, finished_classes};
use crate::laws::{
    a_rewriting_has_one_answer, a_tree_has_rules, a_written_folder_runs_as_its_folder,
    a_written_folder_verifies, rewritten_methods_make_candidates,
};
use crate::marked_classes::{classes_of_chains, named_classes};
use crate::marked_fields::marked_fields;
use crate::report::Report;
use class_model::NoMemory;
use class_tree::{ClassFileList, Tree, a_tree_is_a_hierarchy};
use expanded_runs::codes_of_a_tree_are_bytes;
use machine_laws::running_the_same_is_reflexive;
use std::alloc::Global;
use type_rules::TypedFolder;

/// What is written of a folder.
#[derive(Drop)]
pub struct Optimised {
    /// A class for each class of the folder, in the same order.
    pub classes: ClassFileList,
    /// What became of each method.
    pub report: Report,
}

/// Optimises a linked folder that these frames type: the folder that is written, which verifies and runs as this one, and what became
/// of each method. It is this project's profile.
///
/// # Errors
/// `NoMemory`, where memory runs out.
pub fn optimise_folder(
    alloc: Global,
    tree: &Tree,
    typed: &TypedFolder,
) -> Result<Optimised, NoMemory>
    requires linked { IsLinked tree.now }
    requires typed { TypesFolder tree.now typed.now }
    ensures { IfOk result (IsOptimised tree.now typed.now) }
{
    let _folder = tree.folder();
    a_tree_is_a_hierarchy(tree);
    codes_of_a_tree_are_bytes(tree);
    a_tree_has_rules(tree);
    a_rewriting_has_one_answer();
    rewritten_methods_make_candidates();
    a_written_folder_runs_as_its_folder();
    a_written_folder_verifies();
    running_the_same_is_reflexive();
    let Drafts { drafts, known } = drafts_of(alloc, tree, typed)?;
    let additions = additions_of(alloc, tree, &known)?;
    let classes = finished_classes(alloc, tree, drafts.as_slice(), &additions)?;
    Ok(Optimised {
        classes,
        report: known.report,
    })
}

// What is added to classes, and the flags that are cleared of fields.
fn additions_of(alloc: Global, tree: &Tree, known: &Decided) -> Result<Additions, NoMemory>
    ensures extended { IfOk result (λ additions. AreMarked (length tree.now.folder)
        (StandsInMade (headers_of tree.now) known.now.made (length tree.now.folder))
        additions.extended) }
    ensures finals { IfOk result (λ additions. AreFieldsMarked tree.now.folder
        (IsListed known.now.finals) additions.finals.items) }
    ensures privates { IfOk result (λ additions. AreFieldsMarked tree.now.folder
        (IsListed known.now.privates) additions.privates.items) }
{
    let made = named_classes(alloc, tree, known.made.as_slice())?;
    Ok(Additions {
        extended: classes_of_chains(alloc, tree, &made)?,
        finals: marked_fields(alloc, tree, known.finals.as_slice())?,
        privates: marked_fields(alloc, tree, known.privates.as_slice())?,
    })
}
