//! Reading the header of a library's class file.
ghost use Rattle.std.specs.Prelude.{◌↔◌, IsTrue};
ghost use Rattle.class_model.specs.Header.{IsLibraryVersion};
ghost use Rattle.class_bytes.specs.Inner.Cut.{version_of};
ghost use Rattle.class_bytes.specs.Reading.{IsHeaderReadOf};

use crate::class_checks::CONSTANTS_AT;
use crate::cut::Version;
use crate::cutting::cut_version;
use crate::header_checks::own_header;
use crate::header_cutting::cut_header;
use class_model::{ClassFault, Cursor, Header, a_cut_class_is_spelled, a_cut_pool_is_spelled};
use pool_bytes::cut_pool;
use std::alloc::Global;

/// What is kept of a library's class file: its head and the names and descriptors of its members (JVM Specification
/// SE 8, 4.1 to 4.6). Versions 45.x to 51.x and 52.0 are read, with lighter checks than those of a folder's class file:
/// attributes are skipped by their length.
///
/// # Errors
/// `Version` where the magic and eight bytes are there and the version is another; else `Malformed` with the first fault
/// and its place in bytes: the items of the file, the texts of the pool, then the names, descriptors and indices of the
/// head and of the members, in file order.
pub fn read_header(alloc: Global, bytes: &[u8]) -> Result<Header, ClassFault>
    ensures { IsHeaderReadOf bytes.now result }
{
    let mut cursor = Cursor::new(bytes, 0);
    let version = cut_version(&mut cursor)?;
    if !is_library_version(version) {
        return Err(ClassFault::Version {
            major: version.major,
            minor: version.minor,
        });
    }
    let raw = cut_pool(alloc, version.major, &mut cursor)?;
    let flags_at = cursor.at();
    let head = cut_header(alloc, &mut cursor)?;
    a_cut_pool_is_spelled();
    a_cut_class_is_spelled();
    raw.check_texts(CONSTANTS_AT)?;
    own_header(alloc, &raw, &head, flags_at)
}

// Whether a library's class files of a version are read: 45 to 51, and 52.0.
fn is_library_version(version: Version) -> bool
    ensures { IsTrue result ↔ IsLibraryVersion (version_of version) }
{
    matches!(version.major, 45..=51) || version.major == 52 && version.minor == 0
}
