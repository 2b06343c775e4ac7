//! Field constructors as methods of class files.
ghost use Rattle.std.specs.Prelude.{◌≡◌, ◌+◌, ◌++◌, ◌<◌, ◌≤◌, ℕ, List, [], ◌∷◌, length, map, slice_get, Some, IfOk, OnOk, codes};
ghost use Rattle.std.specs.List.{flat_map};
ghost use Rattle.std.specs.Result.{IsErrOf};
ghost use Rattle.class_model.specs.Members.{PUBLIC};
ghost use Rattle.class_model.specs.Names.{init};
ghost use Rattle.class_model.specs.declared.class_file.Attr.TheVariants.{Code};
ghost use Rattle.class_model.specs.Pool.{Constants};
ghost use Rattle.class_model.specs.declared.header.Header.{Header};
ghost use Rattle.class_tree.specs.Headers.{Headers, Name, headers_of};
ghost use Rattle.class_tree.specs.Layouts.{own_fields};
ghost use Rattle.field_constructors.specs.Inner.FieldWords.{instance_fields_of};
ghost use Rattle.flow_code.specs.declared.reason.Reason.{Reason};
ghost use Rattle.making_code.specs.Constants.{needs_text};
ghost use Rattle.making_code.specs.ConstructorCode.{SYNTHETIC, depth_of_call, depth_of_stores};
ghost use Rattle.making_code.specs.FieldConstructor.{constructor_items, constructor_method_needs, item_needs, units_of_fields};
ghost use Rattle.constructor_methods.specs.ConstructorMethods.{HasRoomFor, HasWrittenConstructor, IsFieldConstructor};
ghost use Rattle.materialise.specs.Growing.{Grows, IsFull};
ghost use Rattle.constructor_methods.specs.Inner.ConstructorWords.{AreNames, IsHeaderOf, IsMethodOf, IsPartOf, descs_above, head_needs, units_of_descs};
ghost use Rattle.materialise.specs.MadeCode.{DescribesConstructors, IsMadeClass};
ghost use Rattle.pool_edit.specs.Edits.{Continues};

use crate::constructor_bytes::bytes_of;
use crate::constructor_code::write_constructor_code;
use crate::field_kinds::{field_kind, field_units};
use class_model::{
    ACC_PUBLIC, ACC_STATIC, Attr, CodePart, Header, INIT, ListOf, Method, NoMemory, Text, has,
};
use class_tree::{OBJECT, Place, Tree, a_tree_is_a_hierarchy};
use field_constructors::{Constructors, field_texts};
use flow_code::KeptFault;
use materialise::add_text;
use pool_edit::{PoolEdit, an_edit_goes_back_to_what_it_was};
use std::alloc::Global;

// It is in no source file (JVM Specification SE 8, 4.6).
const ACC_SYNTHETIC: u16 = 0x1000;

/// The field constructor of the class of this number in the folder, as a method of its file; what it needs is added to the pool. The
/// pool has room for 1,000 constants, and it needs at most 393. After an error constants may have been added.
///
/// # Errors
/// `NoMemory`, where memory runs out.
pub fn field_constructor(
    alloc: Global,
    tree: &Tree,
    class: usize,
    pool: &mut PoolEdit,
) -> Result<Method, NoMemory>
    requires of_folder { class < length (headers_of tree.now).folder }
    requires may { (header : Header)
        → slice_get (headers_of tree.now).folder class ≡ Some header
        → HasWrittenConstructor tree.now header }
    requires room { HasRoomFor 1000 pool.old }
    ensures method { IfOk result (IsFieldConstructor tree.now class pool.old pool.new) }
    ensures more { Continues pool.old pool.new }
{
    an_edit_goes_back_to_what_it_was();
    let constructors = Constructors::new(alloc, tree)?;
    let method = field_constructor_with(alloc, &constructors, class, pool);
    drop(constructors);
    method
}

/// As `field_constructor`, where the field constructors of the folder are found already.
///
/// # Errors
/// `NoMemory`, where memory runs out.
pub fn field_constructor_with(
    alloc: Global,
    constructors: &Constructors<'_>,
    class: usize,
    pool: &mut PoolEdit,
) -> Result<Method, NoMemory>
    requires of_folder { class < length (headers_of constructors.now).folder }
    requires may { (header : Header)
        → slice_get (headers_of constructors.now).folder class ≡ Some header
        → HasWrittenConstructor constructors.now header }
    requires room { HasRoomFor 1000 pool.old }
    ensures method { IfOk result (IsFieldConstructor constructors.now class pool.old pool.new) }
    ensures more { Continues pool.old pool.new }
{
    an_edit_goes_back_to_what_it_was();
    a_tree_is_a_hierarchy(constructors.tree());
    let Some(header) = constructors.tree().header(Place::Folder(class)) else {
        unreachable!()
    };
    match write_method(alloc, constructors, header, pool) {
        Ok(method) => Ok(method),
        Err(KeptFault::NoMemory) => Err(NoMemory),
        Err(KeptFault::Kept(_)) => unreachable!(),
    }
}

// The field constructor of a class as a method.
fn write_method(
    alloc: Global,
    constructors: &Constructors<'_>,
    header: &Header,
    pool: &mut PoolEdit,
) -> Result<Method, KeptFault>
    requires may { HasWrittenConstructor constructors.now header.now }
    requires made { IsMadeClass constructors.now header.now.name }
    requires found { IsHeaderOf (headers_of constructors.now) header.now }
    requires few { units_of_descs (descs_above (headers_of constructors.now) header.now)
        + units_of_fields (instance_fields_of header.now) ≤ 64 }
    ensures ok { IfOk result (λ method. (constructor : Name → List ℕ)
        → DescribesConstructors constructors.now constructor
        → IsMethodOf (headers_of constructors.now) constructor header.now.name
        pool.old pool.new method) }
    ensures full { (reason : Reason) (constructor : Name → List ℕ)
        → IsErrOf result (KeptFault.Kept reason)
        → DescribesConstructors constructors.now constructor
        → IsFull pool.old
        (constructor_method_needs (headers_of constructors.now) constructor header.now.name) reason }
    ensures more { Continues pool.old pool.new }
{
    an_edit_goes_back_to_what_it_was();
    let Some(desc) = constructors.of_class(alloc, &header.name)? else {
        unreachable!()
    };
    let names = add_names(alloc, &desc, pool)?;
    let above = fields_above(alloc, constructors, header)?;
    let part = code_part(alloc, constructors, header, above.as_slice(), pool)?;
    method_of(alloc, names, part)
}

// The indices of the name of a method, of its descriptor, and of the name of its attribute.
#[derive(Clone, Copy)]
struct Names {
    name: u16,
    desc: u16,
    code: u16,
}

// Adds the texts that a field constructor of this descriptor names.
fn add_names(alloc: Global, desc: &Text, pool: &mut PoolEdit) -> Result<Names, KeptFault>
    ensures ok { OnOk result (Grows pool.old (head_needs desc.now) pool.new) }
    ensures indices { IfOk result (AreNames pool.new desc.now) }
    ensures full { (reason : Reason)
        → IsErrOf result (KeptFault.Kept reason)
        → IsFull pool.old (head_needs desc.now) reason }
    ensures more { Continues pool.old pool.new }
{
    an_edit_goes_back_to_what_it_was();
    let init = Text::of_plain(alloc, INIT)?;
    let name = add_text(pool, &init)?;
    let desc = add_text(pool, desc)?;
    let text = Text::of_plain(alloc, b"Code")?;
    let code = add_text(pool, &text)?;
    Ok(Names { name, desc, code })
}

// The descriptors of the fields of the classes above.
fn fields_above(
    alloc: Global,
    constructors: &Constructors<'_>,
    header: &Header,
) -> Result<Vec<Text>, NoMemory>
    requires may { HasWrittenConstructor constructors.now header.now }
    requires found { IsHeaderOf (headers_of constructors.now) header.now }
    ensures { IfOk result
        (λ fields. fields.items ≡ descs_above (headers_of constructors.now) header.now) }
{
    match &header.super_name {
        Some(class) => field_texts(alloc, constructors.tree(), class),
        None => Ok(Vec::new(alloc)),
    }
}

// The code of a field constructor, where the fields of the classes above have these descriptors.
fn code_part(
    alloc: Global,
    constructors: &Constructors<'_>,
    header: &Header,
    above: &[Text],
    pool: &mut PoolEdit,
) -> Result<CodePart, KeptFault>
    requires may { HasWrittenConstructor constructors.now header.now }
    requires found { IsHeaderOf (headers_of constructors.now) header.now }
    requires above { above.now ≡ descs_above (headers_of constructors.now) header.now }
    requires few { units_of_descs above.now + units_of_fields (instance_fields_of header.now) ≤ 64 }
    ensures ok { IfOk result (λ part. (constructor : Name → List ℕ)
        → DescribesConstructors constructors.now constructor
        → IsPartOf (headers_of constructors.now) constructor header.now.name
        pool.old pool.new part) }
    ensures full { (reason : Reason) (constructor : Name → List ℕ)
        → IsErrOf result (KeptFault.Kept reason)
        → DescribesConstructors constructors.now constructor
        → IsFull pool.old
        (flat_map (item_needs constructor)
        (constructor_items (headers_of constructors.now) header.now.name)) reason }
    ensures more { Continues pool.old pool.new }
{
    an_edit_goes_back_to_what_it_was();
    let mut instrs = Vec::new(alloc);
    write_constructor_code(alloc, constructors, header, above, pool, &mut instrs)?;
    let code = bytes_of(alloc, instrs.as_slice())?;
    let units = field_units(above);
    let call = call_depth(header, units);
    let stores = stores_depth(header);
    Ok(CodePart {
        max_stack: if call < stores { stores } else { call },
        max_locals: 2 + units + own_units(header),
        code,
        handlers: ListOf::new(alloc),
        attrs: ListOf::new(alloc),
    })
}

// The greatest depth of the call, where the fields of the classes above take so many units.
fn call_depth(header: &Header, above: u16) -> u16
    requires { above ≤ 64 }
    ensures { (headers : Headers)
        → above ≡ units_of_descs (descs_above headers header.now)
        → result ≡ depth_of_call headers header.now.super_name }
{
    match &header.super_name {
        None => 0,
        Some(class) => {
            if class.bytes() == OBJECT {
                1
            } else {
                above + 2
            }
        }
    }
}

// The greatest depth of the stores.
fn stores_depth(header: &Header) -> u16
    ensures { result ≡ depth_of_stores (instance_fields_of header.now) }
{
    let mut depth = 0;
    for field in header.fields.as_slice() {
        if !has(field.flags, ACC_STATIC) {
            let units = 1 + field_kind(&field.desc).units();
            if depth < units {
                depth = units;
            }
        }
    }
    depth
}

// The units of the instance fields that a class declares.
fn own_units(header: &Header) -> u16
    requires { units_of_fields (instance_fields_of header.now) ≤ 64 }
    ensures { result ≡ units_of_fields (instance_fields_of header.now) }
{
    let mut units = 0;
    for field in header.fields.as_slice() {
        if !has(field.flags, ACC_STATIC) {
            units += field_kind(&field.desc).units();
        }
    }
    units
}

// The method of these names and this code.
fn method_of(alloc: Global, names: Names, part: CodePart) -> Result<Method, KeptFault>
    ensures flags { IfOk result (λ method. method.flags ≡ PUBLIC + SYNTHETIC) }
    ensures names { IfOk result
        (λ method. (method.name ≡ names.name) × (method.desc ≡ names.desc)) }
    ensures attrs { IfOk result (λ method. method.attrs ≡ Code names.code part ∷ []) }
    ensures full { (reason : Reason) → ¬ IsErrOf result (KeptFault.Kept reason) }
{
    let mut attrs = Vec::new(alloc);
    attrs.push(Attr::Code {
        name: names.code,
        part,
    })?;
    Ok(Method {
        flags: ACC_PUBLIC | ACC_SYNTHETIC,
        name: names.name,
        desc: names.desc,
        attrs: ListOf::from_vec(attrs),
    })
}
