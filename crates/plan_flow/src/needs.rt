//! Which virtual objects an instruction asks to be made.
ghost use Rattle.std.specs.Prelude.{◌≡◌, Some, IfOk, option_map};
ghost use Rattle.class_tree.specs.Headers.{headers_of};
ghost use Rattle.flow_code.specs.FlatCode.{point_at};
ghost use Rattle.flow_code.specs.declared.point.Point.{Point};
ghost use Rattle.member_link.specs.Machine.Links.{AreLinksOf};
ghost use Rattle.member_link.specs.Machine.Programs.{Links};
ghost use Rattle.plan_flow.specs.Inner.Asking.{AreAsked};
ghost use Rattle.plan_flow.specs.Inner.Doing.{IsRowOf};
ghost use Rattle.plan_flow.specs.Must.{IsMust};
ghost use Rattle.plan_flow.specs.Narrow.{HasFewLocals, IsNarrow};
ghost use Rattle.plan_flow.specs.PlanScope.{scope_of};

use crate::asked::add_asked;
use crate::beneath::add_beneath;
use crate::edges::open_edges;
use crate::rows::Row;
use crate::table::row_at;
use class_model::{Frame, NoMemory};
use class_tree::Tree;
use flow_code::{Flat, FlatInstr};
use std::alloc::Global;
use virtual_state::{SiteSet, VState, closure};

/// The sites whose objects the instruction of a point asks to be made in a state, and those that their objects reach over
/// fields: none, where there is no such point.
///
/// # Errors
/// `NoMemory`, where memory runs out.
pub fn must(
    alloc: Global,
    tree: &Tree,
    flat: &Flat,
    at: usize,
    state: &VState,
) -> Result<SiteSet, NoMemory>
    requires { IsNarrow flat.now }
    ensures { IfOk result (λ sites. (links : Links)
        → AreLinksOf (headers_of tree.now) links
        → IsMust (scope_of tree.now links flat.now) at state.now sites) }
{
    let Some(instr) = flat.instr(at) else {
        return Ok(SiteSet::new(alloc));
    };
    let Some(types) = flat.typed(at) else {
        return Ok(SiteSet::new(alloc));
    };
    let asked = asked_at(alloc, tree, flat, at, types, instr, state)?;
    let sites = closure(alloc, state, &asked)?;
    let _order = sites.as_slice();
    Ok(sites)
}

// The sites for which it asks.
fn asked_at(
    alloc: Global,
    tree: &Tree,
    flat: &Flat,
    at: usize,
    types: &Frame,
    instr: &FlatInstr,
    state: &VState,
) -> Result<SiteSet, NoMemory>
    requires narrow { IsNarrow flat.now }
    requires types { option_map (λ point. point.typed) (point_at flat.now at) ≡ Some types.now }
    requires instr { option_map (λ point. point.instr) (point_at flat.now at) ≡ Some instr.now }
    ensures { IfOk result (λ asked. (links : Links) (point : Point)
        → AreLinksOf (headers_of tree.now) links
        → point_at flat.now at ≡ Some point
        → AreAsked (scope_of tree.now links flat.now) at point state.now asked) }
{
    let row = row_at(tree, flat, at, types, instr)?;
    let asked = asked_by(alloc, tree, flat, at, types, instr, &row, state);
    // let go by a call, so that its drop is proved once
    drop(row);
    asked
}

// The sites for which an instruction asks that has this row.
fn asked_by(
    alloc: Global,
    tree: &Tree,
    flat: &Flat,
    at: usize,
    types: &Frame,
    instr: &FlatInstr,
    row: &Row,
    state: &VState,
) -> Result<SiteSet, NoMemory>
    requires narrow { IsNarrow flat.now }
    requires types { HasFewLocals types.now }
    requires instr { option_map (λ point. point.instr) (point_at flat.now at) ≡ Some instr.now }
    ensures { IfOk result (λ asked. (links : Links) (point : Point)
        → AreLinksOf (headers_of tree.now) links
        → point_at flat.now at ≡ Some point
        → IsRowOf (scope_of tree.now links flat.now) at point types.now row.now
        → AreAsked (scope_of tree.now links flat.now) at point state.now asked) }
{
    // a handler begins with nothing but what was thrown on the stack, so its edge asks for no object
    let edges = open_edges(alloc, flat, at, instr, row, Some(&[]), state)?;
    let mut asked = SiteSet::new(alloc);
    add_asked(&mut asked, alloc, tree, flat, types, row, state)?;
    add_beneath(
        &mut asked,
        alloc,
        tree,
        flat,
        types,
        row,
        edges.as_slice(),
        state,
    )?;
    Ok(asked)
}
