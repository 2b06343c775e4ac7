//! Fields that operations name (JVM Specification SE 8, 5.4.3.2).
ghost use Rattle.std.specs.Prelude.{◌≡◌, ◌&&◌, not, IfOk, Some, None};
ghost use Rattle.std.specs.Option.{option_copied};
ghost use Rattle.class_model.specs.Members as members;
ghost use Rattle.class_tree.specs.Headers.{headers_of};
ghost use Rattle.member_link.specs.DeclaredMembers.{Declared};
ghost use Rattle.member_link.specs.Found.{IsFieldFound};
ghost use Rattle.member_link.specs.Machine.Programs.{Program};
ghost use Rattle.machine_code.specs.Inner.QuestionWords.{is_class_of};
ghost use Rattle.machine_code.specs.Inner.Resolved.{IsTargetOf, home_of};
ghost use Rattle.member_link.specs.RunOps.{IsFieldOp, IsStoredAs};
ghost use Rattle.member_link.specs.TreePrograms.{IsProgram};

use class_model::{ACC_FINAL, ACC_STATIC, FieldType, NoMemory, Text, has};
use class_tree::{Place, Tree, a_tree_is_a_hierarchy};
use member_link::{
    FieldHome, FieldOp, FieldTarget, Found, Reference, a_look_up_finds_one_field, find_field,
    reference_to,
};

/// A read or store of a field, with the field that is found. `initialises` is of a store: the class whose initialiser the code is.
///
/// # Errors
/// `NoMemory`, where memory runs out.
pub(crate) fn resolve_field(
    tree: &Tree,
    named: Reference,
    initialises: Option<Text>,
) -> Result<FieldOp, NoMemory>
    ensures named { IfOk result (λ op. op.named ≡ named) }
    ensures initialises { IfOk result (λ op. op.initialises ≡ initialises) }
    ensures resolved { IfOk result
        (λ op. (P : Program) → IsProgram tree.now P → IsFieldOp P op) }
{
    a_tree_is_a_hierarchy(tree);
    a_look_up_finds_one_field();
    let found = match find_field(tree, &named.class, &named.name, &named.desc) {
        Some(found) => Some(field_target(tree, found, initialises.as_ref())?),
        None => None,
    };
    Ok(FieldOp {
        named,
        initialises,
        found,
    })
}

// The field that is found.
fn field_target(
    tree: &Tree,
    found: Found,
    initialises: Option<&Text>,
) -> Result<FieldTarget, NoMemory>
    requires { (field : Declared) × IsFieldFound (headers_of tree.now) found field }
    ensures { IfOk result (λ target. (field : Declared)
        → IsFieldFound (headers_of tree.now) found field
        → IsTargetOf field found (option_copied initialises.entry) target) }
{
    let Some(header) = tree.header(found.place) else {
        unreachable!()
    };
    let Some(member) = header.fields.get(found.member) else {
        unreachable!()
    };
    Ok(FieldTarget {
        field: reference_to(&header.name, member)?,
        is_static: has(found.flags, ACC_STATIC),
        is_barred: has(found.flags, ACC_FINAL) && !is_inside(&header.name, initialises),
        desc: stored_type(&member.desc)?,
        home: home_of(found),
        seen: None,
    })
}

// Where a field that is found is declared.
fn home_of(found: Found) -> FieldHome
    ensures { result ≡ home_of found }
{
    match found.place {
        Place::Folder(class) => FieldHome::Folder {
            class,
            number: Some(found.member),
        },
        Place::Library(_) => FieldHome::Library,
    }
}

// The type that keeps values as the type of a field's descriptor does.
fn stored_type(desc: &Text) -> Result<FieldType, NoMemory>
    ensures { IfOk result (λ type. IsStoredAs type desc.now) }
{
    Ok(match desc.bytes() {
        [b'B', ..] => FieldType::Byte,
        [b'C', ..] => FieldType::Char,
        [b'D', ..] => FieldType::Double,
        [b'F', ..] => FieldType::Float,
        [b'I', ..] => FieldType::Int,
        [b'J', ..] => FieldType::Long,
        [b'S', ..] => FieldType::Short,
        [b'Z', ..] => FieldType::Bool,
        _ => FieldType::Named(desc.copy()?),
    })
}

// Whether the class is that of the initialiser.
fn is_inside(class: &Text, initialises: Option<&Text>) -> bool
    ensures { result ≡ is_class_of (option_copied initialises.entry) class.now }
{
    match initialises {
        Some(own) => own.bytes() == class.bytes(),
        None => false,
    }
}
