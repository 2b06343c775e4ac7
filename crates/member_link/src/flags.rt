//! What the access flags of members say (JVM Specification SE 8, 4.5 and 4.6).
ghost use Rattle.std.specs.Prelude.{◌≡◌, ◌&&◌, ◌||◌, not};
ghost use Rattle.class_model.specs.Members as members;
ghost use Rattle.class_model.specs.declared.header.Member.{Member};
ghost use Rattle.member_link.specs.DeclaredMembers as declared;

use class_model::{ACC_PRIVATE, ACC_PROTECTED, ACC_PUBLIC, ACC_STATIC, has};

/// Whether a method is neither private nor static: classes below inherit or override it.
pub(crate) fn is_inherited(flags: u16) -> bool
    ensures { (member : Member) → member.flags ≡ flags → result ≡ declared.is_inherited member }
{
    !has(flags, ACC_PRIVATE) && !has(flags, ACC_STATIC)
}

/// Whether a member is none of public, protected and private.
pub(crate) fn is_package_access(flags: u16) -> bool
    ensures { (member : Member)
        → member.flags ≡ flags
        → result ≡ declared.is_package_access member }
{
    !has(flags, ACC_PUBLIC) && !has(flags, ACC_PROTECTED) && !has(flags, ACC_PRIVATE)
}

/// Whether a member is public or protected.
pub(crate) fn is_open(flags: u16) -> bool
    ensures { (member : Member) → member.flags ≡ flags → result ≡ declared.is_open member }
{
    has(flags, ACC_PUBLIC) || has(flags, ACC_PROTECTED)
}
