//! What is written of the classes of a folder, but for what the whole folder decides.
ghost use Rattle.std.specs.Prelude.{◌≡◌, [], Some, IfOk, length, slice_get};
ghost use Rattle.class_rewrite.specs.Inner.Deciding.{AreAllDecided, AreDraftsOf, HasRules, IsMethodDecided};
ghost use Rattle.class_rewrite.specs.Inner.Outcomes.{IsEditOf};
ghost use Rattle.member_link.specs.Linked.{IsLinked};
ghost use Rattle.pool_edit.specs.Edits.{Edit, grown};
ghost use Rattle.type_rules.specs.Verified.{TypesFolder};

use crate::decided::{Decided, Draft, method_of};
use crate::laws::{a_rewriting_has_one_answer, a_tree_has_rules};
use crate::rewriter::Rewriter;
use class_model::{ClassFile, ListOf, Method, MethodAt, MethodList, NoMemory};
use class_tree::Tree;
use pool_edit::PoolEdit;
use std::alloc::Global;
use type_rules::TypedFolder;

// The greatest count of a pool to which the constants of written code are added: field constructors need up to 1,000 more.
const MOST_CONSTANTS: u16 = 64_535;

/// What is written of the classes, and what is known once all methods are decided.
#[derive(Drop)]
pub(crate) struct Drafts {
    pub(crate) drafts: Vec<Draft>,
    pub(crate) known: Decided,
}

/// Decides the methods of a folder, class by class.
pub(crate) fn drafts_of(alloc: Global, tree: &Tree, typed: &TypedFolder) -> Result<Drafts, NoMemory>
    requires linked { IsLinked tree.now }
    requires typed { TypesFolder tree.now typed.now }
    ensures { IfOk result (λ all. AreDraftsOf tree.now typed.now (length tree.now.folder)
        all.drafts.items all.known) }
{
    a_tree_has_rules(tree);
    a_rewriting_has_one_answer();
    let mut rewriter = Rewriter::new(alloc, tree, typed)?;
    let mut drafts = Vec::new(alloc);
    let mut known = Decided::new(alloc);
    for (number, class) in tree.folder().as_slice().iter().enumerate() {
        drafts.push(draft_of(alloc, &mut rewriter, number, class, &mut known)?)?;
    }
    Ok(Drafts { drafts, known })
}

// Decides the methods of a class.
fn draft_of(
    alloc: Global,
    rewriter: &mut Rewriter<'_>,
    number: usize,
    class: &ClassFile,
    known: &mut Decided,
) -> Result<Draft, NoMemory>
    requires rules { HasRules rewriter.old.classes }
    requires there { slice_get rewriter.old.classes.folder number ≡ Some class.now }
    ensures decided { IfOk result (λ draft. (pool : Edit)
        × (grown pool ≡ draft.pool)
        × AreAllDecided rewriter.old.classes rewriter.old.typed number class.now
        (length class.now.methods) pool draft.methods known.old known.new) }
    ensures same { rewriter.new ≡ rewriter.old }
{
    let mut pool = PoolEdit::over(alloc, &class.pool, MOST_CONSTANTS)?;
    let methods = written_methods(alloc, rewriter, number, class, &mut pool, known)?;
    Ok(Draft {
        pool: pool.finish()?,
        methods,
    })
}

// Decides the methods of a class in the order of the file.
fn written_methods(
    alloc: Global,
    rewriter: &mut Rewriter<'_>,
    number: usize,
    class: &ClassFile,
    pool: &mut PoolEdit,
    known: &mut Decided,
) -> Result<MethodList, NoMemory>
    requires rules { HasRules rewriter.old.classes }
    requires there { slice_get rewriter.old.classes.folder number ≡ Some class.now }
    requires edit { pool.old ≡ record { base = class.now.pool; limit = 64535; added = [] } }
    ensures decided { IfOk result (λ methods. AreAllDecided rewriter.old.classes
        rewriter.old.typed number class.now (length class.now.methods) pool.new methods
        known.old known.new) }
    ensures same { rewriter.new ≡ rewriter.old }
{
    a_rewriting_has_one_answer();
    let mut written = ListOf::new(alloc);
    let methods = class.methods.as_slice();
    for method in 0..methods.len() {
        let at = MethodAt {
            class: number,
            method,
        };
        written.push(written_method(alloc, rewriter, at, &methods[method], pool, known)?)?;
    }
    Ok(written)
}

// Decides a method.
fn written_method(
    alloc: Global,
    rewriter: &mut Rewriter<'_>,
    at: MethodAt,
    method: &Method,
    pool: &mut PoolEdit,
    known: &mut Decided,
) -> Result<Method, NoMemory>
    requires { IsEditOf rewriter.old.classes at pool.old }
    ensures decided { IfOk result (IsMethodDecided rewriter.old.classes rewriter.old.typed at
        method.now pool.old pool.new known.old known.new) }
    ensures same { rewriter.new ≡ rewriter.old }
{
    let outcome = rewriter.rewrite(alloc, at, pool)?;
    known.add(at, &outcome)?;
    let written = method_of(alloc, method, &outcome);
    // let go by a call, so that its drop is proved once
    drop(outcome);
    written
}
