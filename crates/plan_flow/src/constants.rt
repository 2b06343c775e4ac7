//! What the constants of a class of the folder name (JVM Specification SE 8, 4.4).
ghost use Rattle.std.specs.Prelude.{◌≡◌, IfOk, slice_get, option_map};
ghost use Rattle.std.specs.Option.{option_copied};
ghost use Rattle.class_model.specs.Pool.{constant_at};
ghost use Rattle.class_model.specs.PoolChecks.{class_at};
ghost use Rattle.flow_code.specs.FlatCode.{FlatCode};
ghost use Rattle.member_link.specs.Machine.Programs.{Links};
ghost use Rattle.plan_flow.specs.Inner.RowViews.{dynamic_desc};
ghost use Rattle.plan_flow.specs.PlanScope.{member_of, pool_of, scope_of};

use class_model::{Const, NoMemory, Pool, Text};
use class_tree::Tree;
use member_link::{Reference, descriptor_at, reference_of};

/// The member that a constant of a class refers to, by the class's number, if it is one of a field or
/// method.
///
/// # Errors
/// `NoMemory`, where memory runs out.
pub fn member_of(tree: &Tree, class: usize, index: u16) -> Result<Option<Reference>, NoMemory>
    ensures { IfOk result (λ member. (links : Links) (flat : FlatCode)
        → member ≡ member_of (scope_of tree.now links flat) class index) }
{
    match pool_at(tree, class) {
        Some(pool) => reference_of(pool, index),
        None => Ok(None),
    }
}

/// The class or array that a constant of a class names, by the class's number, if it is a Class constant. It does not allocate.
pub fn class_named(tree: &Tree, class: usize, index: u16) -> Option<&Text>
    ensures { (links : Links) (flat : FlatCode)
        → option_copied result ≡ class_at (pool_of (scope_of tree.now links flat) class) index }
{
    match pool_at(tree, class) {
        Some(pool) => pool.class_name(index),
        None => None,
    }
}

/// The descriptor of the call site that a constant of a class names, by the class's number, if it is an InvokeDynamic.
pub(crate) fn dynamic_descriptor(tree: &Tree, class: usize, index: u16) -> Option<&Text>
    ensures { (links : Links) (flat : FlatCode)
        → option_copied result
        ≡ dynamic_desc (pool_of (scope_of tree.now links flat) class)
        (constant_at (pool_of (scope_of tree.now links flat) class) index) }
{
    match pool_at(tree, class) {
        Some(pool) => descriptor_of(pool, index),
        None => None,
    }
}

// The descriptor of an InvokeDynamic constant.
fn descriptor_of(pool: &Pool, index: u16) -> Option<&Text>
    ensures { option_copied result ≡ dynamic_desc pool.now (constant_at pool.now index) }
{
    match pool.get(index) {
        Some(Const::InvokeDynamic(_, member)) => descriptor_at(pool, *member),
        _ => None,
    }
}

// The constant pool of a class of the folder.
fn pool_at(tree: &Tree, class: usize) -> Option<&Pool>
    ensures { option_copied result
        ≡ option_map (λ file. file.pool) (slice_get tree.now.folder class) }
{
    match tree.folder().get(class) {
        Some(file) => Some(&file.pool),
        None => None,
    }
}
