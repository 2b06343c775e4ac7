//! The state in which the instruction of a point is done.
ghost use Rattle.std.specs.Prelude.{◌≡◌, Some, IfOk};
ghost use Rattle.class_tree.specs.Headers.{headers_of};
ghost use Rattle.flow_code.specs.FlatCode.{point_at};
ghost use Rattle.flow_code.specs.declared.point.Point.{Point};
ghost use Rattle.member_link.specs.Machine.Links.{AreLinksOf};
ghost use Rattle.member_link.specs.Machine.Programs.{Links};
ghost use Rattle.plan_flow.specs.Inner.Iteration.{IsLeft};
ghost use Rattle.plan_flow.specs.Narrow.{IsNarrow};
ghost use Rattle.plan_flow.specs.PlanScope.{scope_of};

use crate::needs::must;
use class_model::NoMemory;
use class_tree::Tree;
use flow_code::Flat;
use member_link::a_tree_has_links;
use std::alloc::Global;
use virtual_state::{VState, without};

/// The least state above another one in which the instruction of a point asks for no object: what
/// it asks for is made, until it asks for none.
///
/// # Errors
/// `NoMemory`, where memory runs out.
pub(crate) fn settled(
    alloc: Global,
    tree: &Tree,
    flat: &Flat,
    at: usize,
    state: &VState,
) -> Result<VState, NoMemory>
    requires { IsNarrow flat.now }
    ensures { IfOk result (λ left. (links : Links) (point : Point)
        → AreLinksOf (headers_of tree.now) links
        → point_at flat.now at ≡ Some point
        → IsLeft (scope_of tree.now links flat.now) at point state.now left) }
{
    a_tree_has_links(tree);
    state.is_state();
    let mut left = state.copy()?;
    let mut sites = must(alloc, tree, flat, at, &left)?;
    while !sites.is_empty() {
        left = without(alloc, &left, &sites)?;
        sites = must(alloc, tree, flat, at, &left)?;
    }
    Ok(left)
}
