//! Packages of classes (JVM Specification SE 8, 5.3).
ghost use Rattle.std.specs.Prelude.{◌≡◌, ◌↔◌, IsTrue};
ghost use Rattle.member_link.specs.Overriding.{package_of};

/// Whether two classes are of the same package (JVM Specification SE 8, 5.3): a package is its name alone.
pub fn is_same_package(one: &[u8], other: &[u8]) -> bool
    ensures { IsTrue result ↔ (package_of one.now ≡ package_of other.now) }
{
    package_of(one) == package_of(other)
}

/// The package of a class: its name up to the last slash, and with it.
pub(crate) fn package_of(name: &[u8]) -> &[u8]
    ensures { result.now ≡ package_of name.now }
{
    match name.iter().rposition(|byte| *byte == b'/') {
        Some(slash) => &name[..=slash],
        None => &[],
    }
}
