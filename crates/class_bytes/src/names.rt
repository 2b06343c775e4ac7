//! The names of attributes (JVM Specification SE 8, 4.7).
ghost use Rattle.std.specs.Prelude.{◌≡◌};
ghost use Rattle.class_model.specs.Members.{is_named};
ghost use Rattle.class_bytes.specs.Inner.Cut.{attr_of};

use crate::cut::CutAttr;
use class_model::Pool;
use code_bytes::is_text;

pub(crate) const CODE: &[u8] = b"Code";

pub(crate) const CONSTANT_VALUE: &[u8] = b"ConstantValue";

pub(crate) const BOOTSTRAP_METHODS: &[u8] = b"BootstrapMethods";

pub(crate) const STACK_MAP_TABLE: &[u8] = b"StackMapTable";

/// Whether an attribute has this name.
pub(crate) fn is_named(pool: &Pool, name: &[u8], attr: &CutAttr<'_>) -> bool
    ensures { result ≡ is_named pool.now name.now (attr_of attr.now) }
{
    is_text(pool, name, attr.name)
}
