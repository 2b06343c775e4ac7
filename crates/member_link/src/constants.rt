//! What kinds of members constants refer to (JVM Specification SE 8, 4.4.2).
ghost use Rattle.std.specs.Prelude.{◌↔◌, IsTrue};
ghost use Rattle.std.specs.Option.{option_copied};
ghost use Rattle.class_model.specs.PoolChecks.{IsFieldConstant};
ghost use Rattle.member_link.specs.Inner.Resolutions.{IsCalleeConstant};

use class_model::Const;

/// Whether a constant refers to a field.
pub(crate) fn is_field(constant: Option<&Const>) -> bool
    ensures { IsTrue result ↔ IsFieldConstant (option_copied constant.entry) }
{
    matches!(constant, Some(Const::Fieldref(..)))
}

/// Whether a constant refers to a method.
pub(crate) fn is_method(constant: Option<&Const>) -> bool
    ensures { IsTrue result ↔ IsCalleeConstant (option_copied constant.entry) }
{
    matches!(
        constant,
        Some(Const::Methodref(..) | Const::InterfaceMethodref(..))
    )
}
