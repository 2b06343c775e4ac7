//! The code that makes objects.
ghost use Rattle.std.specs.Prelude.{◌≡◌, ℕ, List, IfOk, OnOk};
ghost use Rattle.std.specs.Result.{IsErrOf};
ghost use Rattle.std.specs.List.{flat_map};
ghost use Rattle.class_model.specs.Names.{init as init_name};
ghost use Rattle.class_tree.specs.Headers.{Name};
ghost use Rattle.flow_code.specs.FlatCode.{FlatCode};
ghost use Rattle.flow_code.specs.declared.reason.Reason.{Reason};
ghost use Rattle.making_code.specs.IndexedMaking.{all_making_needs};
ghost use Rattle.making_code.specs.MakeCode.{enters, load_field, load_fields_from, make_one};
ghost use Rattle.making_code.specs.Units.{field_unit, object_unit};
ghost use Rattle.materialise.specs.Growing.{Grows, IsFull};
ghost use Rattle.materialise.specs.Inner.CodeWords.{Makes, Writes, WritesObject, coded};
ghost use Rattle.materialise.specs.Inner.ConstantWords.{AreIndices, made_needs};
ghost use Rattle.materialise.specs.Inner.UnitWords.{kept_unit};
ghost use Rattle.materialise.specs.MadeCode.{DescribesConstructors, HaveConstructors, IsMadeClass};
ghost use Rattle.pool_edit.specs.Edits.{Continues};

use crate::constants::{Reference, add_class, add_member};
use crate::units::Units;
use class_model::opcodes::{DUP, INVOKESPECIAL};
use class_model::{FieldType, INIT, Imm, Instr, Kind, NoMemory, Text};
use field_constructors::Constructors;
use flow_code::{KeptFault, Site};
use pool_edit::{PoolEdit, an_edit_goes_back_to_what_it_was};
use std::alloc::Global;
use virtual_state::{Slot, VObject, VState};

// The indices of a class and of its field constructor.
#[derive(Clone, Copy)]
struct Made {
    class: u16,
    constructor: u16,
}

/// Makes the objects of these sites, one after the other. What it needs is added to the pool.
pub(crate) fn make_objects(
    alloc: Global,
    constructors: &Constructors<'_>,
    units: &Units<'_>,
    state: &VState,
    order: &[u16],
    instrs: &mut Vec<Instr>,
    pool: &mut PoolEdit,
) -> Result<(), KeptFault>
    requires { HaveConstructors constructors.now units.now }
    ensures ok { OnOk result ((constructor : Name → List ℕ)
        → DescribesConstructors constructors.now constructor
        → Makes units.now constructor pool.old instrs.old.items
        (flat_map (make_one units.now state.now) order.now)
        pool.new instrs.new.items) }
    ensures full { (reason : Reason) (constructor : Name → List ℕ)
        → IsErrOf result (KeptFault.Kept reason)
        → DescribesConstructors constructors.now constructor
        → IsFull pool.old
        (all_making_needs constructor (flat_map (make_one units.now state.now) order.now)) reason }
    ensures more { Continues pool.old pool.new }
{
    an_edit_goes_back_to_what_it_was();
    for site in order {
        make_object_of(alloc, constructors, units, state, *site, instrs, pool)?;
    }
    Ok(())
}

// Makes the object of a site. What it needs is added to the pool.
fn make_object_of(
    alloc: Global,
    constructors: &Constructors<'_>,
    units: &Units<'_>,
    state: &VState,
    site: u16,
    instrs: &mut Vec<Instr>,
    pool: &mut PoolEdit,
) -> Result<(), KeptFault>
    requires { HaveConstructors constructors.now units.now }
    ensures ok { OnOk result ((constructor : Name → List ℕ)
        → DescribesConstructors constructors.now constructor
        → Makes units.now constructor pool.old instrs.old.items
        (make_one units.now state.now site)
        pool.new instrs.new.items) }
    ensures full { (reason : Reason) (constructor : Name → List ℕ)
        → IsErrOf result (KeptFault.Kept reason)
        → DescribesConstructors constructors.now constructor
        → IsFull pool.old (all_making_needs constructor (make_one units.now state.now site)) reason }
    ensures more { Continues pool.old pool.new }
{
    an_edit_goes_back_to_what_it_was();
    let Some(object) = state.object(site) else {
        return Ok(());
    };
    let Some(one) = units.flat().sites().get(usize::from(site)) else {
        return Ok(());
    };
    let made = add_made(alloc, constructors, &one.class, pool)?;
    write_object(units, object.as_ref(), one, made, instrs)?;
    Ok(())
}

// Adds a class and its field constructor to the pool.
fn add_made(
    alloc: Global,
    constructors: &Constructors<'_>,
    class: &Text,
    pool: &mut PoolEdit,
) -> Result<Made, KeptFault>
    requires { IsMadeClass constructors.now class.now }
    ensures ok { OnOk result ((constructor : Name → List ℕ)
        → DescribesConstructors constructors.now constructor
        → Grows pool.old (made_needs class.now (constructor class.now)) pool.new) }
    ensures indices { IfOk result (λ made. (constructor : Name → List ℕ)
        → DescribesConstructors constructors.now constructor
        → AreIndices pool.new class.now (constructor class.now) made.class made.constructor) }
    ensures full { (reason : Reason) (constructor : Name → List ℕ)
        → IsErrOf result (KeptFault.Kept reason)
        → DescribesConstructors constructors.now constructor
        → IsFull pool.old (made_needs class.now (constructor class.now)) reason }
    ensures more { Continues pool.old pool.new }
{
    an_edit_goes_back_to_what_it_was();
    let Some(desc) = constructors.of_class(alloc, class)? else {
        unreachable!()
    };
    let init = Text::of_plain(alloc, INIT)?;
    add_both(class, &init, &desc, pool)
}

// Adds a class and its constructor of a name and a descriptor.
fn add_both(class: &Text, init: &Text, desc: &Text, pool: &mut PoolEdit) -> Result<Made, KeptFault>
    requires { init.now ≡ init_name }
    ensures ok { OnOk result (Grows pool.old (made_needs class.now desc.now) pool.new) }
    ensures indices { IfOk result
        (λ made. AreIndices pool.new class.now desc.now made.class made.constructor) }
    ensures full { (reason : Reason)
        → IsErrOf result (KeptFault.Kept reason)
        → IsFull pool.old (made_needs class.now desc.now) reason }
    ensures more { Continues pool.old pool.new }
{
    an_edit_goes_back_to_what_it_was();
    let class_index = add_class(pool, class)?;
    let constructor = add_member(pool, Reference::Method, class, init, desc)?;
    Ok(Made {
        class: class_index,
        constructor,
    })
}

// Makes an object of a site, by the indices of its class and of the field constructor.
fn write_object(
    units: &Units<'_>,
    object: &VObject,
    one: &Site,
    made: Made,
    instrs: &mut Vec<Instr>,
) -> Result<(), NoMemory>
    ensures { OnOk result (WritesObject units.now instrs.old.items object.now one.now
        made.class made.constructor instrs.new.items) }
{
    instrs.push(Instr::New(made.class))?;
    instrs.push(Instr::Shuffle(DUP))?;
    load_fields(units, object, one.fields.as_slice(), instrs)?;
    instrs.push(Instr::Const(Imm::Null))?;
    instrs.push(Instr::Invoke(INVOKESPECIAL, made.constructor, 0))?;
    let unit = units.object(object.site);
    instrs.push(Instr::Store(Kind::Ref, unit))?;
    enter(unit, object.depth, instrs)?;
    Ok(())
}

// Loads the fields of an object, those that hold a virtual one from that one's unit.
fn load_fields(
    units: &Units<'_>,
    object: &VObject,
    types: &[FieldType],
    instrs: &mut Vec<Instr>,
) -> Result<(), NoMemory>
    ensures { OnOk result (Writes units.now instrs.old.items
        (load_fields_from object.now.site 0 types.now object.now.fields)
        instrs.new.items) }
{
    let mut unit = units.first_field(object.site);
    for (number, slot) in object.fields.as_slice().iter().enumerate() {
        let Some(field) = types.get(number) else {
            return Ok(());
        };
        instrs.push(load_field(units, field, *slot, unit))?;
        unit = units.next_field(object.site, number, unit);
    }
    Ok(())
}

// The load of a field that has this unit.
fn load_field(units: &Units<'_>, field: &FieldType, slot: Slot, unit: u16) -> Instr
    ensures { (site number : ℕ) (class_of constructor_of : Name → ℕ)
        → kept_unit units.now (field_unit site number) ≡ unit
        → result
        ≡ coded units.now class_of constructor_of (load_field site number field.now slot) }
{
    match slot {
        Slot::Virt(named) => Instr::Load(Kind::Ref, units.object(named)),
        Slot::Plain | Slot::Unusable => Instr::Load(field.kind(), unit),
    }
}

// Enters the monitor of the object in a unit so often.
fn enter(unit: u16, depth: u16, instrs: &mut Vec<Instr>) -> Result<(), NoMemory>
    ensures { OnOk result ((flat : FlatCode) (site : ℕ)
        → kept_unit flat (object_unit site) ≡ unit
        → Writes flat instrs.old.items (enters site depth) instrs.new.items) }
{
    for _ in 0..depth {
        instrs.push(Instr::Load(Kind::Ref, unit))?;
        instrs.push(Instr::Enter)?;
    }
    Ok(())
}
