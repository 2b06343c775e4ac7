//! What the references of a folder's methods are asked to be linked.
ghost use Rattle.std.specs.Prelude.{◌≡◌, ◌<◌, length, slice_get, Some};
ghost use Rattle.class_model.specs.Checks.{asked_each};
ghost use Rattle.class_model.specs.Header.{header_of};
ghost use Rattle.class_model.specs.Methods.{home_of};
ghost use Rattle.class_model.specs.declared.class_file.ClassFile.{ClassFile};
ghost use Rattle.class_tree.specs.Answers.{Answers};
ghost use Rattle.class_tree.specs.Headers.{headers_of};
ghost use Rattle.member_link.specs.Inner.Resolving.{resolved_scope};
ghost use Rattle.member_link.specs.Uses.{attr_checks, use_checks};
ghost use Rattle.code_bytes.specs.Codes.{HasInstrs, IsReadMethod, HasReadMethods};

use crate::code_uses::check_code;
use crate::resolver::Resolver;
use class_model::{Attr, ClassFile, Header, Member, Method};
use class_tree::{LinkFault, Place, Tree};
use code_bytes::a_class_file_has_read_methods;
use std::alloc::Global;

/// Asks of each method of the class at a place of the folder that its instructions, its exception table and its stated frames
/// refer to what is there, of the right form and accessible.
pub(crate) fn check_uses(alloc: Global, tree: &Tree, place: usize) -> Result<(), LinkFault>
    requires { place < length tree.now.folder }
    ensures { (class : ClassFile)
        → slice_get tree.now.folder place ≡ Some class
        → Answers (use_checks (headers_of tree.now) class) result }
{
    a_class_file_has_read_methods();
    let class = &tree.folder().as_slice()[place];
    let Some(header) = tree.header(Place::Folder(place)) else {
        unreachable!()
    };
    check_class_uses(alloc, tree, class, header)
}

// Asks the same of the methods of a class file, which has this header.
fn check_class_uses(
    alloc: Global,
    tree: &Tree,
    class: &ClassFile,
    header: &Header,
) -> Result<(), LinkFault>
    requires header { header.now ≡ header_of class.now }
    requires methods { HasReadMethods class.now }
    ensures { Answers (use_checks (headers_of tree.now) class.now) result }
{
    let mut resolver = Resolver::new(alloc, tree, class, &header.name)?;
    let members = header.methods.as_slice();
    for (method, member) in class.methods.as_slice().iter().zip(members) {
        check_method(alloc, &mut resolver, class, method, member)?;
    }
    Ok(())
}

// Asks the same of a method of a class file, which is this member of its header.
fn check_method(
    alloc: Global,
    resolver: &mut Resolver<'_>,
    class: &ClassFile,
    method: &Method,
    member: &Member,
) -> Result<(), LinkFault>
    requires pool { resolver.old.pool ≡ class.now.pool }
    requires method { IsReadMethod class.now.pool method.now }
    ensures same { resolver.new ≡ resolver.old }
    ensures told { Answers
        (asked_each (attr_checks (resolved_scope resolver.old member.now)
        (home_of class.now) method.now) method.now.attrs) result }
{
    for attr in method.attrs.as_slice() {
        check_attr(alloc, resolver, class, method, member, attr)?;
    }
    Ok(())
}

// Asks the same of an attribute of a method, if it is the method's code.
fn check_attr(
    alloc: Global,
    resolver: &mut Resolver<'_>,
    class: &ClassFile,
    method: &Method,
    member: &Member,
    attr: &Attr,
) -> Result<(), LinkFault>
    requires pool { resolver.old.pool ≡ class.now.pool }
    requires method { IsReadMethod class.now.pool method.now }
    requires instrs { HasInstrs attr.now }
    ensures same { resolver.new ≡ resolver.old }
    ensures told { Answers
        (attr_checks (resolved_scope resolver.old member.now)
        (home_of class.now) method.now attr.now) result }
{
    match attr {
        Attr::Code { part, .. } => check_code(alloc, resolver, class, method, member, part),
        Attr::Raw { .. } => Ok(()),
    }
}
