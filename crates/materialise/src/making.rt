//! Make code.
ghost use Rattle.std.specs.Prelude.{◌≡◌, ℕ, List, IfOk, OnErr, OnOk};
ghost use Rattle.std.specs.Result.{IsErrOf};
ghost use Rattle.class_tree.specs.Headers.{Name};
ghost use Rattle.flow_code.specs.declared.reason.Reason.{Reason};
ghost use Rattle.making_code.specs.IndexedMaking.{all_making_needs};
ghost use Rattle.making_code.specs.MakeCode.{make_code};
ghost use Rattle.making_code.specs.MakeOrder.{IsMakeOrder};
ghost use Rattle.materialise.specs.Growing.{IsFull};
ghost use Rattle.materialise.specs.Inner.CodeWords.{Writes};
ghost use Rattle.materialise.specs.Inner.StackWords.{copying, saving};
ghost use Rattle.materialise.specs.MadeCode.{CanMake, DescribesConstructors, HasFewLocals, HaveConstructors, IsMakeCode};
ghost use Rattle.pool_edit.specs.Edits.{Continues};

use crate::copies::{copy_to_fields, copy_to_locals, load_entries, save_entries};
use crate::objects::make_objects;
use crate::ordering::make_order;
use crate::stack::{StackEntry, entries_above, saved_entries};
use crate::units::Units;
use class_model::{Instr, ListOf, NoMemory};
use class_tree::Tree;
use field_constructors::Constructors;
use flow_code::{Flat, KeptFault};
use pool_edit::{PoolEdit, an_edit_goes_back_to_what_it_was};
use std::alloc::Global;
use virtual_state::{SiteSet, VState};

/// Instructions, in order.
pub type InstrList = ListOf<Instr>;

/// The make code of a closed set of sites, in a state at a point of a flat code or on an edge to it: the instructions that make
/// their objects. The constants that they name are added to the pool of the host's class.
///
/// It goes over all constants of the folder: for the code of a whole method use `write_make_code`.
///
/// # Errors
/// `Kept(PoolFull)` exactly where a constant does not fit into the pool; `NoMemory`, where memory runs out. After an error the
/// pool is as before.
pub fn make_code(
    alloc: Global,
    tree: &Tree,
    flat: &Flat,
    at: usize,
    state: &VState,
    sites: &SiteSet,
    pool: &mut PoolEdit,
) -> Result<InstrList, KeptFault>
    requires can { CanMake flat.now at state.now sites.now }
    requires constructors { HaveConstructors tree.now flat.now }
    ensures ok { IfOk result
        (IsMakeCode tree.now flat.now at state.now sites.now pool.old pool.new) }
    ensures full { (reason : Reason) (constructor : Name → List ℕ) (order : List ℕ)
        → IsErrOf result (KeptFault.Kept reason)
        → DescribesConstructors tree.now constructor
        → IsMakeOrder state.now.objects sites.now order
        → IsFull pool.old
        (all_making_needs constructor (make_code flat.now at state.now sites.now order)) reason }
    ensures err { OnErr result (pool.new ≡ pool.old) }
    ensures more { Continues pool.old pool.new }
{
    an_edit_goes_back_to_what_it_was();
    let constructors = Constructors::new(alloc, tree)?;
    let units = Units::new(alloc, flat)?;
    write_make_code(alloc, &constructors, &units, at, state, sites, pool)
}

/// The same, by what is found once of the folder's classes and of the flat code.
///
/// # Errors
/// `Kept(PoolFull)` exactly where a constant does not fit into the pool; `NoMemory`, where memory runs out. After an error the
/// pool is as before.
pub fn write_make_code(
    alloc: Global,
    constructors: &Constructors<'_>,
    units: &Units<'_>,
    at: usize,
    state: &VState,
    sites: &SiteSet,
    pool: &mut PoolEdit,
) -> Result<InstrList, KeptFault>
    requires can { CanMake units.now at state.now sites.now }
    requires constructors { HaveConstructors constructors.now units.now }
    ensures ok { IfOk result
        (IsMakeCode constructors.now units.now at state.now sites.now pool.old pool.new) }
    ensures full { (reason : Reason) (constructor : Name → List ℕ) (order : List ℕ)
        → IsErrOf result (KeptFault.Kept reason)
        → DescribesConstructors constructors.now constructor
        → IsMakeOrder state.now.objects sites.now order
        → IsFull pool.old
        (all_making_needs constructor (make_code units.now at state.now sites.now order)) reason }
    ensures err { OnErr result (pool.new ≡ pool.old) }
    ensures more { Continues pool.old pool.new }
{
    an_edit_goes_back_to_what_it_was();
    let count = pool.count();
    match making(alloc, constructors, units, at, state, sites, pool) {
        Ok(instrs) => Ok(ListOf::from_vec(instrs)),
        Err(fault) => {
            pool.back(count);
            Err(fault)
        }
    }
}

// The same, but that after an error constants may be left in the pool.
fn making(
    alloc: Global,
    constructors: &Constructors<'_>,
    units: &Units<'_>,
    at: usize,
    state: &VState,
    sites: &SiteSet,
    pool: &mut PoolEdit,
) -> Result<Vec<Instr>, KeptFault>
    requires can { CanMake units.now at state.now sites.now }
    requires constructors { HaveConstructors constructors.now units.now }
    ensures ok { IfOk result (λ instrs.
        IsMakeCode constructors.now units.now at state.now sites.now pool.old pool.new instrs.items) }
    ensures full { (reason : Reason) (constructor : Name → List ℕ) (order : List ℕ)
        → IsErrOf result (KeptFault.Kept reason)
        → DescribesConstructors constructors.now constructor
        → IsMakeOrder state.now.objects sites.now order
        → IsFull pool.old
        (all_making_needs constructor (make_code units.now at state.now sites.now order)) reason }
    ensures more { Continues pool.old pool.new }
{
    an_edit_goes_back_to_what_it_was();
    state.is_state();
    let order = make_order(alloc, state, sites)?;
    let entries = entries_above(alloc, units.flat(), at, state, sites)?;
    let mut instrs = Vec::new(alloc);
    save_plain(alloc, units, entries.as_slice(), &mut instrs)?;
    make_objects(
        alloc,
        constructors,
        units,
        state,
        order.as_slice(),
        &mut instrs,
        pool,
    )?;
    copy_objects(units, at, state, sites, entries.as_slice(), &mut instrs)?;
    Ok(instrs)
}

// Saves the plain ones of these entries, the topmost first.
fn save_plain(
    alloc: Global,
    units: &Units<'_>,
    entries: &[StackEntry],
    instrs: &mut Vec<Instr>,
) -> Result<(), NoMemory>
    ensures { OnOk result
        (Writes units.now instrs.old.items (saving entries.now) instrs.new.items) }
{
    let saved = saved_entries(alloc, entries)?;
    save_entries(units, saved.as_slice(), instrs)?;
    Ok(())
}

// Copies the objects of a set to where they are held, and loads the entries of the stack again.
fn copy_objects(
    units: &Units<'_>,
    at: usize,
    state: &VState,
    sites: &SiteSet,
    entries: &[StackEntry],
    instrs: &mut Vec<Instr>,
) -> Result<(), NoMemory>
    requires { HasFewLocals units.now at }
    ensures { OnOk result (Writes units.now instrs.old.items
        (copying units.now at state.now sites.now entries.now)
        instrs.new.items) }
{
    copy_to_locals(units, at, state, sites, instrs)?;
    copy_to_fields(units, state, sites, instrs)?;
    load_entries(units, sites, entries, instrs)?;
    Ok(())
}
