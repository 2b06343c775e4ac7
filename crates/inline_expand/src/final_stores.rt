//! Stores into final fields.
ghost use Rattle.std.specs.Prelude.{◌≡◌, ◌↔◌, ◌||◌, ◌<◌, ℕ, Bool, length, get_or, true, false, Some, IfOk, OnOk, IsTrue};
ghost use Rattle.std.specs.List.{AllByRecursion, list_any};
ghost use Rattle.class_tree.specs.Headers.{headers_of};
ghost use Rattle.code_bytes.specs.Codes.{HasInstrs, HasReadMethods, IsReadMethod};
ghost use Rattle.inline_expand.specs.Inner.StoreWords.{Adds, AreMarks, IsFinalClass, StoredBefore, StoresAt, StoresFrom, is_store, is_stored_by, is_wanted, method_instrs, stores_into};

use class_model::{ACC_FINAL, ClassFile, INIT, Instr, Method, NoMemory, Placed, Pool, has};
use class_tree::{Place, Tree, a_tree_is_a_hierarchy};
use code_bytes::{a_class_file_has_read_methods, instructions_of, is_text};
use member_link::{a_look_up_finds_one_field, find_field, member_at};
use std::alloc::Global;
use type_rules::code_of;

/// For each class of the folder by its number, whether a method of the folder that is none of its instance initialisers stores
/// into a final field of it.
pub(crate) fn stored_finals(alloc: Global, tree: &Tree) -> Result<Vec<bool>, NoMemory>
    ensures len { IfOk result (λ marks. length marks.items ≡ length tree.now.folder) }
    ensures each { IfOk result (λ marks. (number : ℕ)
        → number < length tree.now.folder
        → IsTrue (get_or marks.items number false)
        ↔ StoredBefore (headers_of tree.now) tree.now.folder (length tree.now.folder) number) }
{
    let mut marks = vec![in alloc; false; tree.folder().len()]?;
    mark_folder(alloc, tree, marks.as_mut_slice())?;
    Ok(marks)
}

// Marks the classes into whose final fields a class of the folder stores.
fn mark_folder(alloc: Global, tree: &Tree, marks: &mut [bool]) -> Result<(), NoMemory>
    ensures { OnOk result (Adds
        (StoredBefore (headers_of tree.now) tree.now.folder (length tree.now.folder))
        marks.old marks.new) }
{
    a_class_file_has_read_methods();
    for (number, class) in tree.folder().as_slice().iter().enumerate() {
        mark_class(alloc, tree, number, class, marks)?;
    }
    Ok(())
}

// Marks the classes into whose final fields a class of this number stores.
fn mark_class(
    alloc: Global,
    tree: &Tree,
    number: usize,
    class: &ClassFile,
    marks: &mut [bool],
) -> Result<(), NoMemory>
    requires { HasReadMethods class.now }
    ensures { OnOk result (Adds
        (StoresFrom (headers_of tree.now) class.now number (length class.now.pool))
        marks.old marks.new) }
{
    let by_initialisers = stored_fields(alloc, class, true)?;
    let elsewhere = stored_fields(alloc, class, false)?;
    for index in 0..class.pool.count() {
        let by_initialiser = by_initialisers[usize::from(index)];
        let is_elsewhere = elsewhere[usize::from(index)];
        let found = stored_class(tree, number, class, index, by_initialiser, is_elsewhere);
        mark(marks, found);
    }
    Ok(())
}

// The class into whose final field a class of this number stores, where the field is that of a constant.
fn stored_class(
    tree: &Tree,
    number: usize,
    class: &ClassFile,
    index: u16,
    by_initialiser: bool,
    is_elsewhere: bool,
) -> Option<usize>
    requires by_initialiser { by_initialiser ≡ is_stored_by class.now true index }
    requires is_elsewhere { is_elsewhere ≡ is_stored_by class.now false index }
    ensures { (found : ℕ)
        → (result ≡ Some found) ↔ StoresAt (headers_of tree.now) class.now number index found }
{
    if !is_elsewhere && !by_initialiser {
        return None;
    }
    let Some(found) = final_class(tree, &class.pool, index) else {
        return None;
    };
    if is_elsewhere || found != number {
        Some(found)
    } else {
        None
    }
}

// Marks the class of a number, if there is one.
fn mark(marks: &mut [bool], found: Option<usize>)
    ensures { Adds (λ number. found ≡ Some number) marks.old marks.new }
{
    let Some(found) = found else {
        return;
    };
    if found < marks.len() {
        marks[found] = true;
    }
}

// By the index of a constant, whether a method of a class file stores into the field that it refers to: one of its instance
// initialisers, or one of its other methods.
fn stored_fields(
    alloc: Global,
    class: &ClassFile,
    of_initialisers: bool,
) -> Result<Vec<bool>, NoMemory>
    requires { HasReadMethods class.now }
    ensures { IfOk result (λ stored. AreMarks stored.items (length class.now.pool)
        (is_stored_by class.now of_initialisers)) }
{
    let mut stored = vec![in alloc; false; usize::from(class.pool.count())]?;
    let methods = class.methods.as_slice();
    mark_methods(
        alloc,
        class,
        of_initialisers,
        methods,
        stored.as_mut_slice(),
    )?;
    Ok(stored)
}

// Marks what methods store into, those of them that are wanted.
fn mark_methods(
    alloc: Global,
    class: &ClassFile,
    of_initialisers: bool,
    methods: &[Method],
    marks: &mut [bool],
) -> Result<(), NoMemory>
    requires { AllByRecursion (IsReadMethod class.now.pool) methods.now }
    ensures { OnOk result ((count : ℕ) (test : ℕ → Bool)
        → AreMarks marks.old count test
        → AreMarks marks.new count
        (λ index. test index || list_any (stores_into class.now of_initialisers index) methods.now)) }
{
    for method in methods {
        mark_method(alloc, class, of_initialisers, method, marks)?;
    }
    Ok(())
}

// Marks what a method stores into, if it is wanted.
fn mark_method(
    alloc: Global,
    class: &ClassFile,
    of_initialisers: bool,
    method: &Method,
    marks: &mut [bool],
) -> Result<(), NoMemory>
    requires { IsReadMethod class.now.pool method.now }
    ensures { OnOk result ((count : ℕ) (test : ℕ → Bool)
        → AreMarks marks.old count test
        → AreMarks marks.new count
        (λ index. test index || stores_into class.now of_initialisers index method.now)) }
{
    if !is_wanted(class, of_initialisers, method) {
        return Ok(());
    }
    mark_code(alloc, method, marks)
}

// Marks what the code of a method stores into.
fn mark_code(alloc: Global, method: &Method, marks: &mut [bool]) -> Result<(), NoMemory>
    requires { AllByRecursion HasInstrs method.now.attrs }
    ensures { OnOk result ((count : ℕ) (test : ℕ → Bool)
        → AreMarks marks.old count test
        → AreMarks marks.new count
        (λ index. test index || list_any (is_store index) (method_instrs method.now))) }
{
    let Some(part) = code_of(method.attrs.as_slice()) else {
        return Ok(());
    };
    let instrs = instructions_of(alloc, part.code.as_slice())?;
    mark_stores(instrs.as_slice(), marks);
    Ok(())
}

// Marks what instructions store into.
fn mark_stores(instrs: &[Placed], marks: &mut [bool])
    ensures { (count : ℕ) (test : ℕ → Bool)
        → AreMarks marks.old count test
        → AreMarks marks.new count (λ index. test index || list_any (is_store index) instrs.now) }
{
    for placed in instrs {
        mark_store(placed, marks);
    }
}

// Marks what an instruction stores into.
fn mark_store(placed: &Placed, marks: &mut [bool])
    ensures { (count : ℕ) (test : ℕ → Bool)
        → AreMarks marks.old count test
        → AreMarks marks.new count (λ index. test index || is_store index placed.now) }
{
    if let Instr::PutField(index) = &placed.instr {
        let index = usize::from(*index);
        if index < marks.len() {
            marks[index] = true;
        }
    }
}

// Whether a method is an instance initialiser, or whether it is none.
fn is_wanted(class: &ClassFile, of_initialisers: bool, method: &Method) -> bool
    ensures { result ≡ is_wanted class.now of_initialisers method.now }
{
    let is_initialiser = is_text(&class.pool, INIT, method.name);
    if of_initialisers {
        is_initialiser
    } else {
        !is_initialiser
    }
}

// The number of the class of the folder of whose final field a constant is a reference.
fn final_class(tree: &Tree, pool: &Pool, index: u16) -> Option<usize>
    ensures { IsFinalClass (headers_of tree.now) pool.now index result }
{
    a_tree_is_a_hierarchy(tree);
    a_look_up_finds_one_field();
    let Some(reference) = member_at(pool, index) else {
        return None;
    };
    let Some(found) = find_field(tree, reference.class, reference.name, reference.desc) else {
        return None;
    };
    if !has(found.flags, ACC_FINAL) {
        return None;
    }
    match found.place {
        Place::Folder(number) => Some(number),
        Place::Library(_) => None,
    }
}
