//! What may be a mistake, and is no refusal.
use crate::lines::Lines;
use class_model::NoMemory;
use std::alloc::Global;

/// Notes where the input or the library has no class files, of so many files and class files of the input and class files of the
/// library. The text is empty where both have class files.
pub fn class_counts(
    alloc: Global,
    files: usize,
    classes: usize,
    library_classes: usize,
) -> Result<String, NoMemory> {
    let mut lines = Lines::new(alloc);
    if library_classes == 0 {
        lines.put("pea: note: LIB has no class files");
        lines.put("; scripts/jdk-library.sh LIB makes a library of the machine's JDK\n");
    }
    if files == 0 {
        lines.put("pea: note: NOTHING WAS READ: IN is not there, or has no files\n");
    } else if classes == 0 {
        lines.put("pea: note: NO CLASS FILE WAS READ: the name of none in IN ends in .class\n");
    }
    lines.finish()
}
