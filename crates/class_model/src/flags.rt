//! Access flags (JVM Specification SE 8, tables 4.1-A, 4.5-A and 4.6-A).
ghost use Rattle.std.specs.Prelude.{◌≡◌};
ghost use Rattle.class_model.specs.Members as members;

/// Of a class or member: it is public.
pub const ACC_PUBLIC: u16 = 0x0001;

/// Of a member: it is private.
pub const ACC_PRIVATE: u16 = 0x0002;

/// Of a member: it is protected.
pub const ACC_PROTECTED: u16 = 0x0004;

/// Of a member: it is static.
pub const ACC_STATIC: u16 = 0x0008;

/// Of a class or member: it is final.
pub const ACC_FINAL: u16 = 0x0010;

/// Of a class: its `invokespecial` look-up begins at its superclass.
pub const ACC_SUPER: u16 = 0x0020;

/// Of a method: it is native.
pub const ACC_NATIVE: u16 = 0x0100;

/// Of a class: it is an interface.
pub const ACC_INTERFACE: u16 = 0x0200;

/// Of a class or method: it is abstract.
pub const ACC_ABSTRACT: u16 = 0x0400;

/// Whether a flag is set.
pub fn has(flags: u16, mask: u16) -> bool
    ensures { result ≡ members.has flags mask }
{
    flags & mask != 0
}
