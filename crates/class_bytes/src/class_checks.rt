//! What a class file is asked behind its cutting, in order: the constant pool; the head, the fields, the methods and the
//! attributes; the dynamic calls (JVM Specification SE 8, 4.1 to 4.9).
ghost use Rattle.std.specs.Prelude.{◌≡◌, ◌+◌, ◌<◌, ◌^◌, length};
ghost use Rattle.std.specs.List.{flat_map};
ghost use Rattle.class_model.specs.Answers.{Tells};
ghost use Rattle.class_model.specs.ClassOf.{class_file_checks};
ghost use Rattle.class_model.specs.Methods.{bootstrap_count};
ghost use Rattle.class_model.specs.Spelling.{entry_bytes};
ghost use Rattle.class_bytes.specs.Inner.Cut.{attrs_of, class_of};
ghost use Rattle.class_bytes.specs.Inner.Parts.{behind_checks, behind_len};

use crate::bootstraps::check_class_attrs;
use crate::cut::CutBody;
use crate::fields::check_fields;
use crate::head::check_head;
use crate::home::Home;
use crate::known_shapes::KnownShapes;
use crate::methods::check_methods;
use class_model::{ClassFault, Pool};
use pool_bytes::RawPool;
use std::alloc::Global;

/// The place of the first constant: behind the magic, the version and the pool's count.
pub(crate) const CONSTANTS_AT: u64 = 10;

// How many bytes a count takes.
const COUNT_LEN: u64 = 2;

/// Checks a class file that was cut out of bytes, whose flags stand at this place, and answers its pool.
pub(crate) fn check_class(
    alloc: Global,
    raw: &RawPool<'_>,
    body: &CutBody<'_>,
    flags_at: u64,
) -> Result<Pool, ClassFault>
    requires place { flags_at ≡ 10 + length (flat_map entry_bytes raw.now) }
    requires room { flags_at + behind_len (class_of raw.now body.now) < 2 ^ 63 }
    ensures { Tells (class_file_checks (class_of raw.now body.now))
        (λ pool. pool ≡ raw.now) result }
{
    raw.check(body.version.major, CONSTANTS_AT)?;
    let pool = raw.to_pool(alloc)?;
    let bootstraps = check_behind(alloc, &pool, body, flags_at)?;
    raw.check_dynamics(bootstraps, CONSTANTS_AT)?;
    Ok(pool)
}

// Checks what stands behind the pool, and answers how many bootstrap methods there are.
fn check_behind(
    alloc: Global,
    pool: &Pool,
    body: &CutBody<'_>,
    at: u64,
) -> Result<usize, ClassFault>
    requires { at + behind_len (class_of pool.now body.now) < 2 ^ 63 }
    ensures { Tells (behind_checks at (class_of pool.now body.now))
        (λ count. count ≡ bootstrap_count pool.now (attrs_of body.now.attrs)) result }
{
    let fields = check_head(pool, body, at)?;
    let shapes = KnownShapes::of(alloc, pool);
    let methods = check_fields(
        alloc,
        pool,
        &shapes,
        body.flags,
        body.fields.as_slice(),
        fields + COUNT_LEN,
    )?;
    let home = Home {
        pool,
        major: body.version.major,
        flags: body.flags,
        name: pool.class_name(body.this_class),
        shapes: &shapes,
    };
    let attrs = check_methods(alloc, &home, body.methods.as_slice(), methods + COUNT_LEN)?;
    check_class_attrs(alloc, pool, body.attrs.as_slice(), attrs + COUNT_LEN)
}
