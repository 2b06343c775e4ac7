//! Actions that the library may not take, and what would do.
use crate::answers::put_answers;
use crate::given::{put_unknown, put_wrong_values};
use crate::lines::Lines;
use crate::references::reference_at;
use crate::turns::Known;
use class_model::{
    ACC_ABSTRACT, ACC_INTERFACE, ACC_STATIC, ClassFile, Const, Header, INIT, Member, Pool, Text,
    has, parse_descriptor,
};
use class_tree::{Place, THROWABLE, Tree, is_subtype};
use machine_values::{Action, Event, EventKind, First, Given, GivenList};
use std::alloc::Global;
use type_rules::code_of;

/// Where an action is refused: the program, the references that the library knows, and the event that waits for it.
#[derive(Clone, Copy)]
pub(crate) struct Scene<'a, 'e> {
    pub tree: &'a Tree,
    pub known: &'a Known<'e>,
    pub waiting: Option<&'e Event>,
}

/// Writes the action, the condition of it that does not hold, and what would do.
pub(crate) fn put_fault(alloc: Global, lines: &mut Lines, scene: &Scene<'_, '_>, action: &Action) {
    match action {
        Action::Call {
            class,
            name,
            desc,
            values,
        } => {
            put_action(lines, "call", &[class.bytes(), name.bytes(), desc.bytes()]);
            put_call(alloc, lines, scene, class, name, desc, values.as_slice());
        }
        Action::Construct {
            class,
            desc,
            values,
        } => {
            put_action(lines, "construct", &[class.bytes(), desc.bytes()]);
            put_construct(alloc, lines, scene, class, desc, values);
        }
        Action::Return(value) => {
            put_action(lines, "return", &[]);
            put_return(lines, scene, value.is_some());
        }
        Action::Throw(number) => {
            put_action(lines, "throw", &[]);
            put_throw(lines, scene, *number);
        }
        Action::ArrayGet { at, .. } => {
            put_action(lines, "get", &[]);
            put_array(lines, scene, *at);
        }
        Action::ArraySet { at, .. } => {
            put_action(lines, "set", &[]);
            put_array(lines, scene, *at);
        }
        Action::ArrayLength(at) => {
            put_action(lines, "length", &[]);
            put_array(lines, scene, *at);
        }
        Action::NewArray { desc, .. } => {
            put_action(lines, "array", &[desc.bytes()]);
            lines.put("  it takes the descriptor of an array, such as [I or [Ljava/lang/Object;, ");
            lines.put("and a length of 0 to 1000000\n");
        }
        Action::NewExternal { class, .. } => {
            put_action(lines, "new", &[class.bytes()]);
            put_new(lines, scene.tree, class);
        }
        Action::Stop => put_action(lines, "stop", &[]),
    }
}

fn put_action(lines: &mut Lines, word: &str, names: &[&[u8]]) {
    lines.put(word);
    for name in names {
        lines.put(" ");
        lines.name(name);
    }
    lines.put("\n");
}

// ---- calls

fn put_call(
    alloc: Global,
    lines: &mut Lines,
    scene: &Scene<'_, '_>,
    class: &Text,
    name: &Text,
    desc: &Text,
    values: &[Given],
) {
    if name.bytes().starts_with(b"<") {
        lines.put(
            "  a constructor is called by construct, and a class initialiser by the machine\n",
        );
        return;
    }
    let Some((file, header)) = class_of_folder(lines, scene.tree, class) else {
        return;
    };
    match method_of(header, name.bytes(), desc.bytes()) {
        None => put_no_method(lines, header, name.bytes()),
        Some(method) if !has_code(file, header, method) => {
            lines.put("  it is abstract or native, and has no code to run\n");
        }
        Some(method) => {
            let receiver = if has(method.flags, ACC_STATIC) {
                None
            } else {
                Some(class)
            };
            put_values(alloc, lines, scene, receiver, desc, values);
        }
    }
}

// The class of the folder of a name, else that it is none.
fn class_of_folder<'a>(
    lines: &mut Lines,
    tree: &'a Tree,
    class: &Text,
) -> Option<(&'a ClassFile, &'a Header)> {
    let place = tree.place(class);
    if let Some(Place::Folder(number)) = place {
        let file = tree.folder().get(number)?;
        let header = tree.header(Place::Folder(number))?;
        return Some((file, header));
    }
    lines.put("  ");
    lines.name(class.bytes());
    lines.put(match place {
        Some(_) => " is a class of LIB; the library calls and constructs those of IN alone\n",
        None => " is no class of IN; a class is written with slashes, as p/Main\n",
    });
    None
}

fn method_of<'a>(header: &'a Header, name: &[u8], desc: &[u8]) -> Option<&'a Member> {
    header.methods.as_slice().iter().find(|method| method.name.bytes() == name
        && method.desc.bytes() == desc)
}

// Whether a class itself declares a method of a name.
fn declares(header: &Header, name: &[u8]) -> bool {
    header
        .methods
        .as_slice()
        .iter()
        .any(|method| method.name.bytes() == name)
}

// That a class does not declare a method, and those of the same name, else all that may be called.
fn put_no_method(lines: &mut Lines, header: &Header, name: &[u8]) {
    lines.put("  the class itself does not declare it; it declares:");
    let is_named = declares(header, name);
    for method in header.methods.as_slice() {
        if method.name.bytes() == name || (!is_named && !method.name.bytes().starts_with(b"<")) {
            lines.put(" ");
            lines.name(method.name.bytes());
            lines.name(method.desc.bytes());
        }
    }
    lines.put("\n");
}

fn has_code(file: &ClassFile, header: &Header, method: &Member) -> bool {
    for (of_file, of_header) in file
        .methods
        .as_slice()
        .iter()
        .zip(header.methods.as_slice())
    {
        if of_header.name.bytes() == method.name.bytes()
            && of_header.desc.bytes() == method.desc.bytes()
        {
            return code_of(of_file.attrs.as_slice()).is_some();
        }
    }
    false
}

// Which of the values that are given are not those of a method.
fn put_values(
    alloc: Global,
    lines: &mut Lines,
    scene: &Scene<'_, '_>,
    receiver: Option<&Text>,
    desc: &Text,
    values: &[Given],
) {
    if let Ok(descriptor) = parse_descriptor(alloc, desc) {
        put_wrong_values(lines, scene, receiver, descriptor.params.as_slice(), values);
    }
}

// ---- constructions

fn put_construct(
    alloc: Global,
    lines: &mut Lines,
    scene: &Scene<'_, '_>,
    class: &Text,
    desc: &Text,
    values: &GivenList,
) {
    let Some((_, header)) = class_of_folder(lines, scene.tree, class) else {
        return;
    };
    if !declares(header, INIT) {
        lines.put("  the class itself declares no constructor\n");
    } else if method_of(header, INIT, desc.bytes()).is_none() {
        put_no_method(lines, header, INIT);
    } else if has(header.flags, ACC_ABSTRACT) || has(header.flags, ACC_INTERFACE) {
        lines.put("  the class is abstract, and has no objects of its own\n");
    } else if !is_handled(scene.tree, class, desc) {
        lines.put("  the library gets at a constructor by a MethodHandle constant of kind 8 ");
        lines.put("(REF_newInvokeSpecial) of a class of IN,\n");
        lines.put(
            "  as javac makes it of Point::new; no class of IN has one of this constructor. ",
        );
        lines.put("Or call a static method that makes the object\n");
    } else {
        put_values(alloc, lines, scene, None, desc, values.as_slice());
    }
}

// Whether a class of the folder has a method handle of kind 8 of a constructor (JVM Specification SE 8, 4.4.8).
fn is_handled(tree: &Tree, class: &Text, desc: &Text) -> bool {
    tree.folder()
        .as_slice()
        .iter()
        .any(|file| handles(&file.pool, class, desc))
}

fn handles(pool: &Pool, class: &Text, desc: &Text) -> bool {
    (1..pool.count()).any(|index| match pool.get(index) {
        Some(Const::MethodHandle(8, reference)) => names(pool, *reference, class, desc),
        _ => false,
    })
}

fn names(pool: &Pool, reference: u16, class: &Text, desc: &Text) -> bool {
    match reference_at(pool, reference) {
        Some(found) => {
            found.class.bytes() == class.bytes()
                && found.name.bytes() == INIT
                && found.desc.bytes() == desc.bytes()
        }
        None => false,
    }
}

// ---- answers

fn put_return(lines: &mut Lines, scene: &Scene<'_, '_>, has_value: bool) {
    let Some(event) = scene.waiting else {
        lines.put("  no event waits for an answer\n");
        return;
    };
    lines.put(if has_value {
        "  the event that waits does not take this value\n"
    } else {
        "  the event that waits takes a value\n"
    });
    put_answers(lines, &event.kind);
}

fn put_throw(lines: &mut Lines, scene: &Scene<'_, '_>, number: u64) {
    match scene.waiting {
        None => lines.put("  no event waits for an answer\n"),
        Some(event) => match &event.kind {
            EventKind::Call { .. } | EventKind::Dynamic { .. } => {
                put_thrown(lines, scene, number);
            }
            _ => {
                lines.put("  the event that waits is no call, and takes no throwable\n");
                put_answers(lines, &event.kind);
            }
        },
    }
}

fn put_thrown(lines: &mut Lines, scene: &Scene<'_, '_>, number: u64) {
    match scene.known.class(number) {
        Some(class) if !is_subtype(scene.tree, class.bytes(), THROWABLE) => {
            put_class_of(lines, number, class);
            lines.put(", and is no throwable\n");
        }
        Some(_) => {}
        None => put_unknown(lines, scene.known, number),
    }
}

fn put_class_of(lines: &mut Lines, number: u64, class: &Text) {
    lines.put("  r:");
    lines.number(number);
    lines.put(" is of ");
    lines.name(class.bytes());
}

// ---- arrays and objects of the library

fn put_array(lines: &mut Lines, scene: &Scene<'_, '_>, number: u64) {
    match scene.known.get(number) {
        Some(First { class, .. }) => {
            put_class_of(lines, number, class);
            lines.put(if class.bytes().starts_with(b"[") {
                "; the index is not in the array, or the value is not of its elements' type\n"
            } else {
                ", and is no array\n"
            });
        }
        None => put_unknown(lines, scene.known, number),
    }
}

fn put_new(lines: &mut Lines, tree: &Tree, class: &Text) {
    lines.put(match tree.place(class) {
        Some(Place::Folder(_)) => {
            "  it is a class of IN; new makes objects of classes of LIB, and construct of those of IN\n"
        }
        None => "  there is no such class in LIB\n",
        Some(Place::Library(_)) => {
            "  the class must not be abstract, and each further name must be that of an interface\n"
        }
    });
}
