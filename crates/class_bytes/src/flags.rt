//! What access flags say (JVM Specification SE 8, 4.5 and 4.6).
ghost use Rattle.std.specs.Prelude.{◌≡◌};
ghost use Rattle.class_model.specs.Members as members;

use class_model::{ACC_PRIVATE, ACC_PROTECTED, ACC_PUBLIC, has};

/// Whether no two of public, private and protected are set.
pub(crate) fn one_visibility(flags: u16) -> bool
    ensures { result ≡ members.one_visibility flags }
{
    let is_public = has(flags, ACC_PUBLIC);
    let is_private = has(flags, ACC_PRIVATE);
    let is_protected = has(flags, ACC_PROTECTED);
    !((is_public && is_private) || (is_public && is_protected) || (is_private && is_protected))
}
