//! Make code.
ghost use Rattle.std.specs.Prelude.{◌≡◌, ◌≤◌, length, IfOk, IsTrue};
ghost use Rattle.std.specs.List.{AllByRecursion};
ghost use Rattle.cases_rewrite.specs.Inner.Making.{AreLow, IsShort};
ghost use Rattle.flow_code.specs.WrittenUnits.{written_units};
ghost use Rattle.materialise.specs.MadeCode.{CanMake, HasFewLocals, HaveConstructors, IsMadeClass};
ghost use Rattle.virtual_state.specs.States.{is_present};

use class_model::{NoMemory, Text};
use class_tree::Tree;
use field_constructors::{Constructors, folder_number};
use flow_code::{Flat, KeptFault, Site};
use materialise::{InstrList, RestackList, make_code, restack};
use pool_edit::PoolEdit;
use std::alloc::Global;
use virtual_state::{SiteSet, VState};

const MOST_SITES: usize = 20;

const MOST_FIELDS: usize = 500;

const MOST_LOCALS: u16 = 10_000;

/// The make code of sites in a state at a point of a small flat code, if it is as `make_code` asks.
pub fn made_code(
    alloc: Global,
    tree: &Tree,
    flat: &Flat,
    at: usize,
    state: &VState,
    sites: &SiteSet,
    pool: &mut PoolEdit,
) -> Result<Option<InstrList>, KeptFault> {
    if !can_make(flat, at, state, sites) {
        return Ok(None);
    }
    if !have_constructors(alloc, tree, flat)? {
        return Ok(None);
    }
    Ok(Some(make_code(alloc, tree, flat, at, state, sites, pool)?))
}

/// What the make code of sites saves of the stack at a point of a small flat code, if it is as `restack` asks.
pub fn saved_places(
    alloc: Global,
    flat: &Flat,
    at: usize,
    state: &VState,
    sites: &SiteSet,
) -> Result<Option<RestackList>, NoMemory> {
    if can_make(flat, at, state, sites) {
        Ok(Some(restack(alloc, flat, at, state, sites)?))
    } else {
        Ok(None)
    }
}

// Whether the objects of these sites can be made.
fn can_make(flat: &Flat, at: usize, state: &VState, sites: &SiteSet) -> bool
    ensures { IsTrue result → CanMake flat.now at state.now sites.now }
{
    if state.site_from(flat.sites().len()).is_some() {
        return false;
    }
    if !is_small(flat) {
        return false;
    }
    if !has_few_locals(flat, at) {
        return false;
    }
    are_present(state, sites.as_slice())
}

// Whether a flat code is far from being too wide.
fn is_small(flat: &Flat) -> bool
    ensures { IsTrue result → written_units flat.now ≤ 65535 }
{
    if flat.locals() > MOST_LOCALS {
        return false;
    }
    if flat.sites().len() > MOST_SITES {
        return false;
    }
    if !are_short(flat.sites().as_slice()) {
        return false;
    }
    are_low(flat)
}

fn are_short(sites: &[Site]) -> bool
    ensures { IsTrue result → AllByRecursion IsShort sites.now }
{
    match sites {
        [] => true,
        [first, others @ ..] => first.fields.len() <= MOST_FIELDS && are_short(others),
    }
}

// Whether no point has a deep stack.
fn are_low(flat: &Flat) -> bool
    ensures { IsTrue result → AreLow flat.now (length flat.now.points) }
{
    for at in 0..flat.len() {
        if let Some(types) = flat.typed(at) {
            if types.stack.len() > MOST_FIELDS {
                return false;
            }
        }
    }
    true
}

fn has_few_locals(flat: &Flat, at: usize) -> bool
    ensures { IsTrue result → HasFewLocals flat.now at }
{
    match flat.typed(at) {
        Some(types) => types.locals.len() <= 65_536,
        None => true,
    }
}

fn are_present(state: &VState, sites: &[u16]) -> bool
    ensures { IsTrue result
        → AllByRecursion (λ site. IsTrue (is_present state.now.objects site)) sites.now }
{
    match sites {
        [] => true,
        [first, others @ ..] => state.present(*first) && are_present(state, others),
    }
}

// Whether the classes of the sites may have field constructors.
fn have_constructors(alloc: Global, tree: &Tree, flat: &Flat) -> Result<bool, NoMemory>
    ensures { IfOk result (λ have. IsTrue have → HaveConstructors tree.now flat.now) }
{
    let constructors = Constructors::new(alloc, tree)?;
    let have = each_has_constructor(alloc, tree, &constructors, flat.sites().as_slice());
    drop(constructors);
    have
}

fn each_has_constructor(
    alloc: Global,
    tree: &Tree,
    constructors: &Constructors<'_>,
    sites: &[Site],
) -> Result<bool, NoMemory>
    requires { constructors.now ≡ tree.now }
    ensures { IfOk result (λ have. IsTrue have
        → AllByRecursion (λ site. IsMadeClass tree.now site.class) sites.now) }
{
    match sites {
        [] => Ok(true),
        [first, others @ ..] => {
            if !has_constructor(alloc, tree, constructors, &first.class)? {
                return Ok(false);
            }
            each_has_constructor(alloc, tree, constructors, others)
        }
    }
}

fn has_constructor(
    alloc: Global,
    tree: &Tree,
    constructors: &Constructors<'_>,
    class: &Text,
) -> Result<bool, NoMemory>
    requires { constructors.now ≡ tree.now }
    ensures { IfOk result (λ has. IsTrue has → IsMadeClass tree.now class.now) }
{
    let Some(_number) = folder_number(tree, class) else {
        return Ok(false);
    };
    match constructors.of_class(alloc, class)? {
        Some(_desc) => Ok(true),
        None => Ok(false),
    }
}
