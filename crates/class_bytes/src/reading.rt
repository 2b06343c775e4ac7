//! Reading a class file.
ghost use Rattle.std.specs.Prelude.{◌≡◌, ◌↔◌, IfOk, IsTrue};
ghost use Rattle.class_model.specs.ClassOf.{IsReadVersion};
ghost use Rattle.class_model.specs.Spelling.{class_bytes};
ghost use Rattle.class_bytes.specs.Counts.{FitsCounts};
ghost use Rattle.class_bytes.specs.Inner.Cut.{version_of};
ghost use Rattle.class_bytes.specs.Reading.{IsReadOf};

use crate::class_checks::check_class;
use crate::cut::Version;
use crate::cutting::{cut_body, cut_version};
use crate::entering::enter;
use class_model::{
    ClassFault, ClassFile, Cursor, a_class_file_is_spelled, a_cut_class_is_spelled,
    a_cut_pool_is_spelled,
};
use pool_bytes::cut_pool;
use std::alloc::Global;

/// The class file that the bytes are, all of the bytes (JVM Specification SE 8, 4.1 to 4.9). Versions 50.x,
/// 51.x and 52.0 are read. Its spelling is these bytes.
///
/// # Errors
/// `Version` where the magic and eight bytes are there and the version is another; else `Malformed` with the
/// first fault and its place in bytes: the items of the file, the constant pool, the members and attributes
/// in file order, the bootstrap methods of dynamic calls.
pub fn read_class(alloc: Global, bytes: &[u8]) -> Result<ClassFile, ClassFault>
    ensures told { IsReadOf bytes.now result }
    ensures fits { IfOk result FitsCounts }
    ensures spelled { IfOk result (λ class. bytes.now ≡ class_bytes class) }
{
    let mut cursor = Cursor::new(bytes, 0);
    let version = cut_version(&mut cursor)?;
    if !is_read(version) {
        return Err(ClassFault::Version {
            major: version.major,
            minor: version.minor,
        });
    }
    let raw = cut_pool(alloc, version.major, &mut cursor)?;
    let flags_at = cursor.at();
    let body = cut_body(alloc, version, &mut cursor)?;
    a_cut_pool_is_spelled();
    a_cut_class_is_spelled();
    let pool = check_class(alloc, &raw, &body, flags_at)?;
    a_class_file_is_spelled();
    Ok(enter(alloc, pool, body)?)
}

// Whether class files of a version are read: 50, 51 and 52.0.
fn is_read(version: Version) -> bool
    ensures { IsTrue result ↔ IsReadVersion (version_of version) }
{
    matches!(version.major, 50 | 51) || version.major == 52 && version.minor == 0
}
