//! The head of a class file: its flags, its name, its superclass and its interfaces (JVM Specification
//! SE 8, 4.1).
ghost use Rattle.std.specs.Prelude.{◌≡◌, ◌+◌, ◌*◌, ◌<◌, ◌^◌, length, IsTrue};
ghost use Rattle.class_model.specs.Answers.{Tells};
ghost use Rattle.class_model.specs.Members.{fits_class, class_name_checks, super_checks, interfaces_checks};
ghost use Rattle.class_bytes.specs.Inner.Cut.{class_of};
ghost use Rattle.class_bytes.specs.Inner.Parts.{head_checks, head_len};

use crate::cut::CutBody;
use class_model::{
    ACC_ABSTRACT, ACC_FINAL, ACC_INTERFACE, ClassFault, FileRule, Pool, is_class_name,
};

/// Checks the head, whose flags stand at this place, and answers the place behind the interfaces.
pub(crate) fn check_head(pool: &Pool, body: &CutBody<'_>, at: u64) -> Result<u64, ClassFault>
    requires { at + head_len (class_of pool.now body.now) < 2 ^ 64 }
    ensures { Tells (head_checks pool.now at (class_of pool.now body.now))
        (λ end. end ≡ at + head_len (class_of pool.now body.now)) result }
{
    if !fits_class(body.flags) {
        return Err(ClassFault::Malformed {
            at,
            rule: FileRule::Flags,
        });
    }
    check_class_name(pool, body.this_class, at + 2)?;
    check_super(pool, body.super_class, at + 4)?;
    let interfaces = body.interfaces.as_slice();
    check_interfaces(pool, interfaces, at + 8)?;
    Ok(at + 8 + 2 * interfaces.len() as u64)
}

// Whether the flags of a class fit each other: an interface is abstract and not final.
fn fits_class(flags: u16) -> bool
    ensures { result ≡ fits_class flags }
{
    flags & ACC_INTERFACE == 0 || flags & ACC_ABSTRACT != 0 && flags & ACC_FINAL == 0
}

// Checks the superclass, or that there is none.
fn check_super(pool: &Pool, index: u16, at: u64) -> Result<(), ClassFault>
    ensures { Tells (super_checks pool.now at index) (λ done. Unit {0}) result }
{
    if index == 0 {
        return Ok(());
    }
    check_class_name(pool, index, at)
}

// Checks the interfaces, the first of which stands at this place.
fn check_interfaces(pool: &Pool, indices: &[u16], at: u64) -> Result<(), ClassFault>
    requires { at + 2 * length indices.now < 2 ^ 64 }
    ensures { Tells (interfaces_checks pool.now at indices.now) (λ done. Unit {0}) result }
{
    let mut place = at;
    for index in indices {
        check_class_name(pool, *index, place)?;
        place += 2;
    }
    Ok(())
}

// Checks that an index names a class by a class name.
fn check_class_name(pool: &Pool, index: u16, at: u64) -> Result<(), ClassFault>
    ensures { Tells (class_name_checks pool.now at index) (λ done. Unit {0}) result }
{
    let Some(name) = pool.class_name(index) else {
        return Err(ClassFault::Malformed {
            at,
            rule: FileRule::Index,
        });
    };
    if !is_class_name(name.bytes()) {
        return Err(ClassFault::Malformed {
            at,
            rule: FileRule::Name,
        });
    }
    Ok(())
}
