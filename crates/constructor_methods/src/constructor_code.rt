//! The instructions of field constructors.
ghost use Rattle.std.specs.Prelude.{◌≡◌, ◌≢◌, ◌+◌, ◌++◌, ◌≤◌, ℕ, List, [], ◌∷◌, map, Some, None, IfOk, OnOk, codes};
ghost use Rattle.std.specs.List.{flat_map};
ghost use Rattle.std.specs.Result.{IsErrOf};
ghost use Rattle.class_model.specs.Pool.{Constants};
ghost use Rattle.class_tree.specs.Headers.{Name, headers_of};
ghost use Rattle.class_tree.specs.Layouts.{instance_fields};
ghost use Rattle.class_tree.specs.Names.{object};
ghost use Rattle.field_constructors.specs.Constructors.{field_descs};
ghost use Rattle.field_constructors.specs.Inner.FieldWords.{instance_fields_of};
ghost use Rattle.flow_code.specs.declared.reason.Reason.{Reason};
ghost use Rattle.making_code.specs.ConstructorCode.{indexed_instr};
ghost use Rattle.making_code.specs.FieldConstructor.{call_above, calls_object, constructor_items, item_needs, puts_from, simple, super_call, units_of_fields};
ghost use Rattle.class_model.specs.declared.descriptor.Kind.TheVariants as kinds;
ghost use Rattle.class_model.specs.declared.instr.Instr.TheVariants.{Load};
ghost use Rattle.constructor_methods.specs.ConstructorMethods.{HasWrittenConstructor};
ghost use Rattle.materialise.specs.Growing.{IsFull};
ghost use Rattle.constructor_methods.specs.Inner.ConstructorWords.{Constructs, IsHeaderOf, descs_above, loads_of, put_items, units_of_descs};
ghost use Rattle.materialise.specs.MadeCode.{DescribesConstructors, IsMadeClass};
ghost use Rattle.pool_edit.specs.Edits.{Continues};

use crate::field_kinds::{field_kind, field_units};
use class_model::opcodes::INVOKESPECIAL;
use class_model::{ACC_STATIC, Header, INIT, Imm, Instr, Kind, Member, NoMemory, Text, has};
use class_tree::OBJECT;
use field_constructors::Constructors;
use flow_code::KeptFault;
use materialise::{Reference, add_member};
use pool_edit::{PoolEdit, an_edit_goes_back_to_what_it_was};
use std::alloc::Global;

/// Loads parameters from a unit on, of fields of these descriptors.
pub(crate) fn load_parameters(
    descs: &[Text],
    from: u16,
    instrs: &mut Vec<Instr>,
) -> Result<(), NoMemory>
    requires { from + units_of_descs descs.now ≤ 65 }
    ensures { OnOk result ((constructor : Name → List ℕ) (pool : Constants)
        → instrs.new.items
        ≡ instrs.old.items ++ map (indexed_instr pool constructor) (loads_of from descs.now)) }
{
    let mut unit = from;
    for desc in descs {
        let kind = field_kind(desc);
        instrs.push(Instr::Load(kind, unit))?;
        unit += kind.units();
    }
    Ok(())
}

/// Stores a field of this class from a unit.
pub(crate) fn write_put(
    pool: &mut PoolEdit,
    class: &Text,
    field: &Member,
    unit: u16,
    instrs: &mut Vec<Instr>,
) -> Result<(), KeptFault>
    ensures ok { OnOk result ((constructor : Name → List ℕ)
        → Constructs constructor pool.old instrs.old.items
        (put_items class.now unit field.now)
        pool.new instrs.new.items) }
    ensures full { (reason : Reason) (constructor : Name → List ℕ)
        → IsErrOf result (KeptFault.Kept reason)
        → IsFull pool.old
        (flat_map (item_needs constructor) (put_items class.now unit field.now)) reason }
    ensures more { Continues pool.old pool.new }
{
    an_edit_goes_back_to_what_it_was();
    instrs.push(Instr::Load(Kind::Ref, 0))?;
    instrs.push(Instr::Load(field_kind(&field.desc), unit))?;
    let index = add_member(pool, Reference::Field, class, &field.name, &field.desc)?;
    instrs.push(Instr::PutField(index))?;
    Ok(())
}

/// Stores the instance fields that a class declares, from a unit on.
pub(crate) fn write_puts(
    pool: &mut PoolEdit,
    header: &Header,
    from: u16,
    instrs: &mut Vec<Instr>,
) -> Result<(), KeptFault>
    requires { from + units_of_fields (instance_fields_of header.now) ≤ 65 }
    ensures ok { OnOk result ((constructor : Name → List ℕ)
        → Constructs constructor pool.old instrs.old.items
        (puts_from header.now.name from (instance_fields_of header.now))
        pool.new instrs.new.items) }
    ensures full { (reason : Reason) (constructor : Name → List ℕ)
        → IsErrOf result (KeptFault.Kept reason)
        → IsFull pool.old
        (flat_map (item_needs constructor)
        (puts_from header.now.name from (instance_fields_of header.now))) reason }
    ensures more { Continues pool.old pool.new }
{
    an_edit_goes_back_to_what_it_was();
    let mut unit = from;
    for field in header.fields.as_slice() {
        if !has(field.flags, ACC_STATIC) {
            write_put(pool, &header.name, field, unit, instrs)?;
            unit += field_kind(&field.desc).units();
        }
    }
    Ok(())
}

/// Calls the constructor of `java/lang/Object`.
pub(crate) fn call_object(
    alloc: Global,
    pool: &mut PoolEdit,
    instrs: &mut Vec<Instr>,
) -> Result<(), KeptFault>
    ensures ok { OnOk result ((constructor : Name → List ℕ)
        → Constructs constructor pool.old instrs.old.items
        (simple (Load kinds.Ref 0) ∷ calls_object ∷ [])
        pool.new instrs.new.items) }
    ensures full { (reason : Reason) (constructor : Name → List ℕ)
        → IsErrOf result (KeptFault.Kept reason)
        → IsFull pool.old
        (flat_map (item_needs constructor) (simple (Load kinds.Ref 0) ∷ calls_object ∷ [])) reason }
    ensures more { Continues pool.old pool.new }
{
    an_edit_goes_back_to_what_it_was();
    instrs.push(Instr::Load(Kind::Ref, 0))?;
    let class = Text::of_plain(alloc, OBJECT)?;
    let init = Text::of_plain(alloc, INIT)?;
    let desc = Text::of_plain(alloc, b"()V")?;
    let index = add_member(pool, Reference::Method, &class, &init, &desc)?;
    instrs.push(Instr::Invoke(INVOKESPECIAL, index, 0))?;
    Ok(())
}

/// Calls the field constructor of the superclass, whose fields have these descriptors.
pub(crate) fn call_constructor(
    alloc: Global,
    constructors: &Constructors<'_>,
    class: &Text,
    fields: &[Text],
    pool: &mut PoolEdit,
    instrs: &mut Vec<Instr>,
) -> Result<(), KeptFault>
    requires made { IsMadeClass constructors.now class.now }
    requires apart { class.now ≢ object }
    requires fields { fields.now ≡ field_descs (headers_of constructors.now) class.now }
    requires few { units_of_descs fields.now ≤ 64 }
    ensures ok { OnOk result ((constructor : Name → List ℕ)
        → DescribesConstructors constructors.now constructor
        → Constructs constructor pool.old instrs.old.items
        (super_call (headers_of constructors.now) class.now)
        pool.new instrs.new.items) }
    ensures full { (reason : Reason) (constructor : Name → List ℕ)
        → IsErrOf result (KeptFault.Kept reason)
        → DescribesConstructors constructors.now constructor
        → IsFull pool.old
        (flat_map (item_needs constructor) (super_call (headers_of constructors.now) class.now))
        reason }
    ensures more { Continues pool.old pool.new }
{
    an_edit_goes_back_to_what_it_was();
    instrs.push(Instr::Load(Kind::Ref, 0))?;
    load_parameters(fields, 1, instrs)?;
    instrs.push(Instr::Const(Imm::Null))?;
    let Some(desc) = constructors.of_class(alloc, class)? else {
        unreachable!()
    };
    let init = Text::of_plain(alloc, INIT)?;
    let index = add_member(pool, Reference::Method, class, &init, &desc)?;
    instrs.push(Instr::Invoke(INVOKESPECIAL, index, 0))?;
    Ok(())
}

/// Calls the constructor of the superclass, if there is one. The fields of the classes above have these descriptors.
pub(crate) fn write_call(
    alloc: Global,
    constructors: &Constructors<'_>,
    header: &Header,
    above: &[Text],
    pool: &mut PoolEdit,
    instrs: &mut Vec<Instr>,
) -> Result<(), KeptFault>
    requires may { HasWrittenConstructor constructors.now header.now }
    requires above { above.now ≡ descs_above (headers_of constructors.now) header.now }
    requires few { units_of_descs above.now ≤ 64 }
    ensures ok { OnOk result ((constructor : Name → List ℕ)
        → DescribesConstructors constructors.now constructor
        → Constructs constructor pool.old instrs.old.items
        (call_above (headers_of constructors.now) header.now.super_name)
        pool.new instrs.new.items) }
    ensures full { (reason : Reason) (constructor : Name → List ℕ)
        → IsErrOf result (KeptFault.Kept reason)
        → DescribesConstructors constructors.now constructor
        → IsFull pool.old
        (flat_map (item_needs constructor)
        (call_above (headers_of constructors.now) header.now.super_name)) reason }
    ensures more { Continues pool.old pool.new }
{
    an_edit_goes_back_to_what_it_was();
    let Some(class) = &header.super_name else {
        return Ok(());
    };
    if class.bytes() == OBJECT {
        call_object(alloc, pool, instrs)
    } else {
        call_constructor(alloc, constructors, class, above, pool, instrs)
    }
}

/// The instructions of the field constructor of a class, where the fields of the classes above have these descriptors.
pub(crate) fn write_constructor_code(
    alloc: Global,
    constructors: &Constructors<'_>,
    header: &Header,
    above: &[Text],
    pool: &mut PoolEdit,
    instrs: &mut Vec<Instr>,
) -> Result<(), KeptFault>
    requires may { HasWrittenConstructor constructors.now header.now }
    requires found { IsHeaderOf (headers_of constructors.now) header.now }
    requires above { above.now ≡ descs_above (headers_of constructors.now) header.now }
    requires few { units_of_descs above.now + units_of_fields (instance_fields_of header.now) ≤ 64 }
    ensures ok { OnOk result ((constructor : Name → List ℕ)
        → DescribesConstructors constructors.now constructor
        → Constructs constructor pool.old instrs.old.items
        (constructor_items (headers_of constructors.now) header.now.name)
        pool.new instrs.new.items) }
    ensures full { (reason : Reason) (constructor : Name → List ℕ)
        → IsErrOf result (KeptFault.Kept reason)
        → DescribesConstructors constructors.now constructor
        → IsFull pool.old
        (flat_map (item_needs constructor)
        (constructor_items (headers_of constructors.now) header.now.name)) reason }
    ensures more { Continues pool.old pool.new }
{
    an_edit_goes_back_to_what_it_was();
    write_call(alloc, constructors, header, above, pool, instrs)?;
    write_puts(pool, header, 1 + field_units(above), instrs)?;
    instrs.push(Instr::Return(None))?;
    Ok(())
}
