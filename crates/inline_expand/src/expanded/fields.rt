//! The candidate sites with the types of their fields.
ghost use Rattle.member_link.specs.FieldConstructors.{field_types};
ghost use Rattle.std.specs.Prelude.{◌≡◌, map, IfOk};
ghost use Rattle.std.specs.List.{AllByRecursion};
ghost use Rattle.class_model.specs.Descriptors.{type_of};
ghost use Rattle.class_tree.specs.Headers.{headers_of};
ghost use Rattle.expanded_code.specs.Candidates.{IsCandidate};
ghost use Rattle.inline_expand.specs.Inner.FieldTypes.{IsShortDescriptor};
ghost use Rattle.inline_expand.specs.Inner.SiteNumbers.{sites_by};

use crate::candidates::Candidates;
use crate::expanded::sites::NewAt;
use class_model::{
    FieldType, FieldTypeList, NameFault, NoMemory, Text, a_descriptor_of_a_text, parse_field_type,
};
use class_tree::{Tree, a_tree_is_a_hierarchy};
use flow_code::{Site, SiteList};
use std::alloc::Global;

/// Candidate sites with the types of the fields of their classes, each of which is a candidate.
///
/// # Errors
/// `NoMemory`, where memory runs out.
pub(crate) fn with_fields(
    alloc: Global,
    candidates: &mut Candidates<'_>,
    tree: &Tree,
    news: &[NewAt],
) -> Result<SiteList, NoMemory>
    requires classes { candidates.old ≡ tree.now }
    requires candidates { AllByRecursion (λ new. IsCandidate tree.now new.class) news.now }
    ensures sites { IfOk result (λ sites. sites ≡ sites_by (headers_of tree.now) news.now) }
    ensures classes { candidates.new ≡ candidates.old }
{
    let mut sites = Vec::with_capacity(alloc, news.len())?;
    for new in news {
        let fields = fields_of(alloc, candidates, tree, &new.class)?;
        sites.push(Site {
            at: usize::from(new.at),
            class: new.class.copy()?,
            fields,
        })?;
    }
    Ok(SiteList::from_vec(sites))
}

// The types of the instance fields of a candidate class, those of the highest class first.
fn fields_of(
    alloc: Global,
    candidates: &mut Candidates<'_>,
    tree: &Tree,
    class: &Text,
) -> Result<FieldTypeList, NoMemory>
    requires classes { candidates.old ≡ tree.now }
    requires candidate { IsCandidate tree.now class.now }
    ensures types { IfOk result
        (λ types. types ≡ field_types (headers_of tree.now) class.now) }
    ensures classes { candidates.new ≡ candidates.old }
{
    a_tree_is_a_hierarchy(tree);
    let _folder = tree.folder();
    let Some(descs) = candidates.fields_of(alloc, class)? else {
        unreachable!()
    };
    let types = types_of(alloc, descs.as_slice())?;
    Ok(types)
}

// The types that descriptors spell.
fn types_of(alloc: Global, descs: &[Text]) -> Result<FieldTypeList, NoMemory>
    requires { AllByRecursion IsShortDescriptor descs.now }
    ensures { IfOk result (λ types. types ≡ map type_of descs.now) }
{
    let mut types = Vec::with_capacity(alloc, descs.len())?;
    for desc in descs {
        types.push(type_of(alloc, desc)?)?;
    }
    Ok(FieldTypeList::from_vec(types))
}

// The type that a descriptor spells.
fn type_of(alloc: Global, desc: &Text) -> Result<FieldType, NoMemory>
    requires { IsShortDescriptor desc.now }
    ensures { IfOk result (λ field_type. field_type ≡ type_of desc.now) }
{
    a_descriptor_of_a_text();
    let _bytes = desc.bytes();
    match parse_field_type(alloc, desc) {
        Ok(field_type) => Ok(field_type),
        Err(NameFault::BadName) => unreachable!(),
        Err(NameFault::NoMemory) => Err(NoMemory),
    }
}
