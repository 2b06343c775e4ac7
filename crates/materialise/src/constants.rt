//! Constants that written code needs, added to a constant pool by what they mean.
ghost use Rattle.std.specs.Prelude.{◌≡◌, [], ◌∷◌, IfOk, OnOk, OnErr};
ghost use Rattle.std.specs.Result.{IsErrOf};
ghost use Rattle.flow_code.specs.declared.reason.Reason.{Reason};
ghost use Rattle.making_code.specs.Constants.{Need, class_needs, member_needs, name_and_type_needs, needs_class, needs_member, needs_name_and_type, needs_string, needs_text, reference_of_kind, string_needs};
ghost use Rattle.materialise.specs.Growing.{Grows, IsFull};
ghost use Rattle.materialise.specs.Indices.{IsIndex, kind_needed, need_of_text};
ghost use Rattle.materialise.specs.Inner.ConstantWords.{Means};
ghost use Rattle.pool_edit.specs.Edits.{Continues};

use class_model::{Const, Text, constants_compare_by_value};
use flow_code::{KeptFault, Reason};
use pool_edit::{AddFault, PoolEdit, an_edit_goes_back_to_what_it_was};

/// What a reference to a member is (JVM Specification SE 8, 4.4.2): to a field, to a method of a class, or to one of an interface.
#[derive(Clone, Copy)]
pub enum Reference {
    Field,
    Method,
    InterfaceMethod,
}

/// Adds a reference to a member of a class, with what it names. It gives its index.
///
/// # Errors
/// `Kept(PoolFull)`, exactly where it does not fit; `NoMemory`, where memory runs out. Constants may have been added then.
pub fn add_member(
    pool: &mut PoolEdit,
    kind: Reference,
    class: &Text,
    name: &Text,
    desc: &Text,
) -> Result<u16, KeptFault>
    ensures ok { OnOk result
        (Grows pool.old (member_needs (kind_needed kind) class.now name.now desc.now) pool.new) }
    ensures index { IfOk result
        (IsIndex pool.new (needs_member (kind_needed kind) class.now name.now desc.now)) }
    ensures full { (reason : Reason)
        → IsErrOf result (KeptFault.Kept reason)
        → IsFull pool.old (member_needs (kind_needed kind) class.now name.now desc.now) reason }
    ensures more { Continues pool.old pool.new }
{
    an_edit_goes_back_to_what_it_was();
    let class_index = add_class(pool, class)?;
    let member = add_name_and_type(pool, name, desc)?;
    add(pool, reference_to(kind, class_index, member))
}

// The reference to a member, by the indices of its class and of its name and descriptor.
fn reference_to(kind: Reference, class: u16, member: u16) -> Const
    ensures { result ≡ reference_of_kind (kind_needed kind) class member }
{
    match kind {
        Reference::Field => Const::Fieldref(class, member),
        Reference::Method => Const::Methodref(class, member),
        Reference::InterfaceMethod => Const::InterfaceMethodref(class, member),
    }
}

/// Adds a class, or an array by its descriptor, with its name. It gives its index.
///
/// # Errors
/// As `add_member`.
pub fn add_class(pool: &mut PoolEdit, name: &Text) -> Result<u16, KeptFault>
    ensures ok { OnOk result (Grows pool.old (class_needs name.now) pool.new) }
    ensures index { IfOk result (IsIndex pool.new (needs_class name.now)) }
    ensures full { (reason : Reason)
        → IsErrOf result (KeptFault.Kept reason)
        → IsFull pool.old (class_needs name.now) reason }
    ensures more { Continues pool.old pool.new }
{
    an_edit_goes_back_to_what_it_was();
    let text = add_text(pool, name)?;
    add(pool, Const::Class(text))
}

/// Adds a string, with its text. It gives its index.
///
/// # Errors
/// As `add_member`.
pub fn add_string(pool: &mut PoolEdit, text: &Text) -> Result<u16, KeptFault>
    ensures ok { OnOk result (Grows pool.old (string_needs text.now) pool.new) }
    ensures index { IfOk result (IsIndex pool.new (needs_string text.now)) }
    ensures full { (reason : Reason)
        → IsErrOf result (KeptFault.Kept reason)
        → IsFull pool.old (string_needs text.now) reason }
    ensures more { Continues pool.old pool.new }
{
    an_edit_goes_back_to_what_it_was();
    let text_index = add_text(pool, text)?;
    add(pool, Const::String(text_index))
}

/// Adds a name and a descriptor, and what has both. It gives the index of that.
///
/// # Errors
/// As `add_member`.
pub fn add_name_and_type(pool: &mut PoolEdit, name: &Text, desc: &Text) -> Result<u16, KeptFault>
    ensures ok { OnOk result (Grows pool.old (name_and_type_needs name.now desc.now) pool.new) }
    ensures index { IfOk result (IsIndex pool.new (needs_name_and_type name.now desc.now)) }
    ensures full { (reason : Reason)
        → IsErrOf result (KeptFault.Kept reason)
        → IsFull pool.old (name_and_type_needs name.now desc.now) reason }
    ensures more { Continues pool.old pool.new }
{
    an_edit_goes_back_to_what_it_was();
    let name_index = add_text(pool, name)?;
    let desc_index = add_text(pool, desc)?;
    add(pool, Const::NameAndType(name_index, desc_index))
}

/// Adds a text. It gives its index.
///
/// # Errors
/// As `add_member`.
pub fn add_text(pool: &mut PoolEdit, text: &Text) -> Result<u16, KeptFault>
    ensures ok { OnOk result (Grows pool.old (needs_text text.now) pool.new) }
    ensures index { IfOk result (IsIndex pool.new (need_of_text text.now)) }
    ensures full { (reason : Reason)
        → IsErrOf result (KeptFault.Kept reason)
        → IsFull pool.old (needs_text text.now) reason }
    ensures more { Continues pool.old pool.new }
{
    an_edit_goes_back_to_what_it_was();
    let copy = text.copy()?;
    add(pool, Const::Utf8(copy))
}

/// Adds a constant, in whose place one is needed that means the same in the pool. It gives its index.
pub(crate) fn add(pool: &mut PoolEdit, value: Const) -> Result<u16, KeptFault>
    ensures ok { OnOk result ((need : Need)
        → Means pool.old need value
        → Grows pool.old (need ∷ []) pool.new) }
    ensures index { IfOk result (λ index. (need : Need)
        → Means pool.old need value
        → IsIndex pool.new need index) }
    ensures full { (reason : Reason)
        → IsErrOf result (KeptFault.Kept reason)
        → (need : Need)
        → Means pool.old need value
        → IsFull pool.old (need ∷ []) reason }
    ensures more { Continues pool.old pool.new }
{
    constants_compare_by_value();
    an_edit_goes_back_to_what_it_was();
    match pool.add(value) {
        Ok(index) => Ok(index),
        Err(AddFault::PoolFull) => Err(KeptFault::Kept(Reason::PoolFull)),
        Err(AddFault::NoMemory) => Err(KeptFault::NoMemory),
    }
}
