//! What is written of the classes of a folder.
ghost use Rattle.std.specs.Prelude.{◌≡◌, ◌<◌, Some, IfOk, IsTrue, get_or, length, slice_get};
ghost use Rattle.class_model.specs.declared.header.Header.{Header};
ghost use Rattle.class_rewrite.specs.Inner.Finishing.{AllCanExtend, AreFinished, CanExtend, Extends, ExtendsIf, IsFinished};
ghost use Rattle.class_tree.specs.Headers.{headers_of};

use crate::decided::Draft;
use crate::marked_fields::{FieldMarks, cleared_fields};
use crate::marks::MarkList;
use class_model::{
    Attr, AttrList, ClassFile, FieldList, IndexList, ListOf, Method, MethodList, NoMemory, Pool,
};
use class_tree::{ClassFileList, Tree};
use constructor_methods::field_constructor_with;
use field_constructors::Constructors;
use pool_edit::PoolEdit;
use std::alloc::Global;

/// What the whole folder decides of its classes: those to which field constructors are added, and the fields of which final and
/// private are cleared.
#[derive(Drop)]
pub(crate) struct Additions {
    pub(crate) extended: MarkList,
    pub(crate) finals: FieldMarks,
    pub(crate) privates: FieldMarks,
}

/// The classes of the folder, by what is written of each and by what the whole folder decides.
pub(crate) fn finished_classes(
    alloc: Global,
    tree: &Tree,
    drafts: &[Draft],
    additions: &Additions,
) -> Result<ClassFileList, NoMemory>
    requires drafts { length drafts.now ≡ length tree.now.folder }
    requires finals { length additions.now.finals.items ≡ length tree.now.folder }
    requires privates { length additions.now.privates.items ≡ length tree.now.folder }
    requires can { AllCanExtend tree.now drafts.now additions.now.extended }
    ensures { IfOk result (AreFinished tree.now drafts.now additions.now.extended
        additions.now.finals.items additions.now.privates.items (length tree.now.folder)) }
{
    let constructors = Constructors::new(alloc, tree)?;
    let mut classes = ListOf::new(alloc);
    let files = tree.folder().as_slice();
    for number in 0..files.len() {
        let class = finished_class(
            alloc,
            &constructors,
            number,
            &files[number],
            &drafts[number],
            additions.extended.has(number),
            &additions.finals[number],
            &additions.privates[number],
        )?;
        classes.push(class)?;
    }
    Ok(classes)
}

// A class of the folder.
fn finished_class(
    alloc: Global,
    constructors: &Constructors<'_>,
    number: usize,
    file: &ClassFile,
    draft: &Draft,
    extends: bool,
    finals: &MarkList,
    privates: &MarkList,
) -> Result<ClassFile, NoMemory>
    requires of_folder { number < length (headers_of constructors.now).folder }
    requires can { (header : Header)
        → IsTrue extends
        → slice_get (headers_of constructors.now).folder number ≡ Some header
        → CanExtend constructors.now header draft.now }
    ensures { IfOk result (IsFinished constructors.now number file.now draft.now extends
        finals.now privates.now) }
{
    let fields = cleared_fields(alloc, file.fields.as_slice(), finals, privates)?;
    let Draft { pool, methods } = extended_if(alloc, constructors, number, draft, extends)?;
    with_members(alloc, file, pool, fields, methods)
}

// What is written of a class, with its field constructor if it is to have one.
fn extended_if(
    alloc: Global,
    constructors: &Constructors<'_>,
    number: usize,
    draft: &Draft,
    extends: bool,
) -> Result<Draft, NoMemory>
    requires of_folder { number < length (headers_of constructors.now).folder }
    requires can { (header : Header)
        → IsTrue extends
        → slice_get (headers_of constructors.now).folder number ≡ Some header
        → CanExtend constructors.now header draft.now }
    ensures { IfOk result (ExtendsIf constructors.now number extends draft.now) }
{
    if extends {
        extended(alloc, constructors, number, draft)
    } else {
        copied(alloc, draft)
    }
}

// An equal draft.
fn copied(alloc: Global, draft: &Draft) -> Result<Draft, NoMemory>
    ensures { IfOk result (λ copy. copy ≡ draft.now) }
{
    Ok(Draft {
        pool: draft.pool.copy(alloc)?,
        methods: methods_copied(alloc, draft.methods.as_slice())?,
    })
}

// What is written of a class, with its field constructor.
fn extended(
    alloc: Global,
    constructors: &Constructors<'_>,
    number: usize,
    draft: &Draft,
) -> Result<Draft, NoMemory>
    requires of_folder { number < length (headers_of constructors.now).folder }
    requires can { (header : Header)
        → slice_get (headers_of constructors.now).folder number ≡ Some header
        → CanExtend constructors.now header draft.now }
    ensures { IfOk result (Extends constructors.now number draft.now) }
{
    let mut pool = PoolEdit::over(alloc, &draft.pool, 65_535)?;
    let mut methods = methods_copied(alloc, draft.methods.as_slice())?;
    let method = field_constructor_with(alloc, constructors, number, &mut pool)?;
    methods.push(method)?;
    Ok(Draft {
        pool: pool.finish()?,
        methods,
    })
}

// A class file with another pool and other members.
fn with_members(
    alloc: Global,
    file: &ClassFile,
    pool: Pool,
    fields: FieldList,
    methods: MethodList,
) -> Result<ClassFile, NoMemory>
    ensures { IfOk result (λ also. also ≡ record file.now {
      pool = pool;
      fields = fields;
      methods = methods;
    }) }
{
    let interfaces = indices_copied(alloc, &file.interfaces)?;
    let attrs = attrs_copied(alloc, file.attrs.as_slice())?;
    Ok(ClassFile {
        major: file.major,
        minor: file.minor,
        pool,
        flags: file.flags,
        this_class: file.this_class,
        super_class: file.super_class,
        interfaces,
        fields,
        methods,
        attrs,
    })
}

// Equal methods.
fn methods_copied(alloc: Global, methods: &[Method]) -> Result<MethodList, NoMemory>
    ensures { IfOk result (λ copies. copies ≡ methods.now) }
{
    let mut copies = ListOf::new(alloc);
    for method in methods {
        copies.push(method.copy(alloc)?)?;
    }
    Ok(copies)
}

// Equal attributes.
fn attrs_copied(alloc: Global, attrs: &[Attr]) -> Result<AttrList, NoMemory>
    ensures { IfOk result (λ copies. copies ≡ attrs.now) }
{
    let mut copies = ListOf::new(alloc);
    for attr in attrs {
        copies.push(attr.copy(alloc)?)?;
    }
    Ok(copies)
}

// Equal indices.
fn indices_copied(alloc: Global, indices: &IndexList) -> Result<IndexList, NoMemory>
    ensures { IfOk result (λ copies. copies ≡ indices.now) }
{
    Ok(ListOf::from_vec(Vec::from_slice(alloc, indices.as_slice())?))
}
