//! The grammar of names.
ghost use Rattle.std.specs.Prelude.{◌↔◌, IsOk, IsTrue};
ghost use Rattle.class_model.specs.Names.{IsClassName, IsNameByte, IsUnqualifiedName, IsPlainMethodName, IsMethodName, IsFieldName, IsNoAngle};

use crate::text::Text;

/// The text is outside the grammar of names.
#[derive(Clone, Copy, PartialEq, Eq)]
pub struct BadName;

/// The name of instance initialisers (JVM Specification SE 8, 2.9).
pub const INIT: &[u8] = b"<init>";

/// The name of class initialisers.
pub const CLINIT: &[u8] = b"<clinit>";

/// Whether a text is a class name in internal form (JVM Specification SE 8, 4.2.1), as
/// `java/lang/Object`. It takes no memory.
pub fn parse_class_name(text: &Text) -> Result<(), BadName>
    ensures { IsOk result ↔ IsClassName text.now }
{
    if is_class_name(text.bytes()) {
        Ok(())
    } else {
        Err(BadName)
    }
}

/// Whether bytes are a class name in internal form. It takes no memory.
pub fn is_class_name(bytes: &[u8]) -> bool
    ensures { IsTrue result ↔ IsClassName bytes.now }
{
    let mut starts_part = true;
    for byte in bytes {
        match *byte {
            b'/' if starts_part => return false,
            b'/' => starts_part = true,
            byte if is_name_byte(byte) => starts_part = false,
            _ => return false,
        }
    }
    !starts_part
}

/// Whether bytes are an unqualified name (4.2.2), as that of a field or a method is. It takes no memory.
pub fn is_unqualified_name(bytes: &[u8]) -> bool
    ensures { IsTrue result ↔ IsUnqualifiedName bytes.now }
{
    !bytes.is_empty() && bytes.iter().all(|byte| is_name_byte(*byte))
}

/// Whether bytes are the name of a method: an unqualified name with no `<` or `>`, `<init>` or `<clinit>`
/// (4.2.2). It takes no memory.
pub fn is_method_name(bytes: &[u8]) -> bool
    ensures { IsTrue result ↔ IsMethodName bytes.now }
{
    bytes == INIT || bytes == CLINIT || is_plain_method_name(bytes)
}

/// Whether bytes are the name of a field: an unqualified name that does not begin with `<`, which this
/// project's profile refuses. It takes no memory.
pub fn is_field_name(bytes: &[u8]) -> bool
    ensures { IsTrue result ↔ IsFieldName bytes.now }
{
    !bytes.starts_with(b"<") && is_unqualified_name(bytes)
}

// Whether bytes are the name of a method that is no initialiser.
fn is_plain_method_name(bytes: &[u8]) -> bool
    ensures { IsTrue result ↔ IsPlainMethodName bytes.now }
{
    !bytes.is_empty() && bytes.iter().all(|byte| is_method_byte(*byte))
}

// Whether the name of a method may have a byte.
fn is_method_byte(byte: u8) -> bool
    ensures { IsTrue result ↔ (IsNameByte byte × IsNoAngle byte) }
{
    is_name_byte(byte) && !matches!(byte, b'<' | b'>')
}

// Whether an unqualified name may have a byte (4.2.2).
fn is_name_byte(byte: u8) -> bool
    ensures { IsTrue result ↔ IsNameByte byte }
{
    !matches!(byte, b'.' | b'/' | b';' | b'[')
}
