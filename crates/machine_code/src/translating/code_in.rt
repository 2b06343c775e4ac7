//! The code of a method of the folder.
ghost use Rattle.std.specs.Prelude.{◌≡◌, IfOk};
ghost use Rattle.std.specs.Option.{option_copied};
ghost use Rattle.class_model.specs.Header.{header_of};
ghost use Rattle.class_model.specs.MethodCode.{code_of};
ghost use Rattle.class_model.specs.PoolChecks.{text_or_empty, utf8_at};
ghost use Rattle.code_bytes.specs.Codes.{IsReadMethod};
ghost use Rattle.machine_code.specs.Inner.Preparing.{code_in};
ghost use Rattle.member_link.specs.Signatures.{result_of};

use crate::translating::method_code::MethodCode;
use class_model::{
    Attr, CLINIT, ClassFile, CodePart, FieldType, Header, INIT, Method, NoMemory, Pool,
};
use class_tree::Tree;
use code_bytes::{is_text, method_descriptor};
use std::alloc::Global;

/// The code of a method of a class file that was read, which has this header.
///
/// # Errors
/// `NoMemory`, where memory runs out.
pub(crate) fn code_in<'a>(
    alloc: Global,
    tree: &'a Tree,
    header: &'a Header,
    class: &'a ClassFile,
    method: &'a Method,
    part: &'a CodePart,
) -> Result<MethodCode<'a>, NoMemory>
    requires header { header.now ≡ header_of class.now }
    requires read { IsReadMethod class.now.pool method.now }
    ensures { IfOk result (λ code. code ≡ code_in tree.now class.now method.now part.now) }
{
    Ok(MethodCode {
        tree,
        class,
        method,
        part,
        header,
        result: result_type(alloc, &class.pool, method)?,
        is_init: is_text(&class.pool, INIT, method.name),
        is_clinit: is_text(&class.pool, CLINIT, method.name),
    })
}

// What a method gives, if it gives a value.
fn result_type(alloc: Global, pool: &Pool, method: &Method) -> Result<Option<FieldType>, NoMemory>
    requires { IsReadMethod pool.now method.now }
    ensures { IfOk result
        (λ result. result ≡ result_of (text_or_empty (utf8_at pool.now method.now.desc))) }
{
    let Some(text) = pool.utf8(method.desc) else {
        unreachable!()
    };
    let descriptor = method_descriptor(alloc, text, method.flags)?;
    Ok(descriptor.into_result())
}

/// The content of the first Code attribute among attributes. It does not allocate.
pub(crate) fn code_of(attrs: &[Attr]) -> Option<&CodePart>
    ensures { option_copied result ≡ code_of attrs.now }
{
    for attr in attrs {
        if let Attr::Code { part, .. } = attr {
            return Some(part);
        }
    }
    None
}
