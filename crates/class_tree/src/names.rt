//! Names of classes that linking knows (JVM Specification SE 8, 4.10.1.2 and 6.5).
ghost use Rattle.std.specs.Prelude.{◌≡◌, map};
ghost use Rattle.class_tree.specs.Names as names;

use class_model::{ACC_INTERFACE, Header, has};

/// The class that each other class is below.
pub const OBJECT: &[u8] = b"java/lang/Object";

pub(crate) const CLONEABLE: &[u8] = b"java/lang/Cloneable";

pub(crate) const SERIALIZABLE: &[u8] = b"java/io/Serializable";

/// The class that all that is thrown is below.
pub const THROWABLE: &[u8] = b"java/lang/Throwable";

/// The class of method handles.
pub const METHOD_HANDLE: &[u8] = b"java/lang/invoke/MethodHandle";

/// The class of method types.
pub const METHOD_TYPE: &[u8] = b"java/lang/invoke/MethodType";

const BASE_NAMES: [&[u8]; 16] = [
    b"java/io/Serializable",
    b"java/lang/AbstractMethodError",
    b"java/lang/ArithmeticException",
    b"java/lang/ArrayIndexOutOfBoundsException",
    b"java/lang/ArrayStoreException",
    b"java/lang/Class",
    b"java/lang/ClassCastException",
    b"java/lang/Cloneable",
    b"java/lang/IllegalAccessError",
    b"java/lang/IllegalMonitorStateException",
    b"java/lang/IncompatibleClassChangeError",
    b"java/lang/NegativeArraySizeException",
    b"java/lang/NullPointerException",
    b"java/lang/Object",
    b"java/lang/String",
    b"java/lang/Throwable",
];

/// The classes that each library has, in byte order.
pub(crate) fn base_names() -> &'static [&'static [u8]]
    ensures { map (λ name. name.now) result.now ≡ names.base_names }
{
    &BASE_NAMES
}

const MACHINE_THROWABLES: [&[u8]; 10] = [
    b"java/lang/AbstractMethodError",
    b"java/lang/ArithmeticException",
    b"java/lang/ArrayIndexOutOfBoundsException",
    b"java/lang/ArrayStoreException",
    b"java/lang/ClassCastException",
    b"java/lang/IllegalAccessError",
    b"java/lang/IllegalMonitorStateException",
    b"java/lang/IncompatibleClassChangeError",
    b"java/lang/NegativeArraySizeException",
    b"java/lang/NullPointerException",
];

/// The throwables that instructions raise, in byte order.
pub fn machine_throwables() -> &'static [&'static [u8]]
    ensures { map (λ name. name.now) result.now ≡ names.machine_throwables }
{
    &MACHINE_THROWABLES
}

/// Whether a class is an interface.
pub(crate) fn is_interface(header: &Header) -> bool
    ensures { result ≡ names.is_interface header.now }
{
    has(header.flags, ACC_INTERFACE)
}
