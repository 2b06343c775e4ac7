//! Versions that are not read.
use crate::lines::Lines;
use crate::side::Side;
use class_model::NoMemory;
use std::alloc::Global;

/// Explains that a class file is of a version that is not read: which Java it is of, and which are read.
pub fn explain_version(
    alloc: Global,
    side: Side,
    name: &str,
    major: u16,
    minor: u16,
) -> Result<String, NoMemory> {
    let mut lines = Lines::new(alloc);
    lines.put("pea: error: ");
    lines.put(side.word());
    lines.put("/");
    lines.name(name.as_bytes());
    lines.put(" is a class file of version ");
    lines.number(u64::from(major));
    lines.put(".");
    lines.number(u64::from(minor));
    put_java(&mut lines, major, minor);
    lines.put(hint(name));
    lines.put(read_versions(side));
    lines.finish()
}

// Which Java a version is of (JVM Specification SE 8, 4.1, and those of later editions).
fn put_java(lines: &mut Lines, major: u16, minor: u16) {
    if major < 45 {
        lines.put(", which is of no Java\n");
        return;
    }
    let number = u64::from(major - 44);
    if number == 1 {
        lines.put(", which is of Java 1.0 or 1.1\n");
        return;
    }
    lines.put(if number < 5 {
        ", which is of Java 1."
    } else {
        ", which is of Java "
    });
    lines.number(number);
    lines.put(if minor == 0 || number < 12 {
        "\n"
    } else {
        " with preview features\n"
    });
}

fn read_versions(side: Side) -> &'static str {
    match side {
        Side::Input => {
            "  in IN those of Java 6 to 8 are read, of versions 50.0 to 52.0: javac --release 8 makes them\n"
        }
        Side::Library => {
            "  in LIB those up to Java 8 are read, of versions 45.0 to 52.0: scripts/library.sh LIB JAR.. takes the headers of later ones\n"
        }
    }
}

// What a file of this name is, where programs for Java 8 do not need it.
fn hint(name: &str) -> &'static str {
    if name.starts_with("META-INF/versions/") {
        "  META-INF/versions has classes for later versions of Java: leave it out, as scripts/jar.sh does\n"
    } else if name == "module-info.class" || name.ends_with("/module-info.class") {
        "  module-info.class describes a module, and is no class of a program: leave it out, as scripts/jar.sh does\n"
    } else {
        ""
    }
}
