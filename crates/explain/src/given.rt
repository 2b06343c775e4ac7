//! Values that an action gives, against the types that a method takes.
use crate::answers::value_form;
use crate::faults::Scene;
use crate::lines::Lines;
use crate::turns::Known;
use class_model::{FieldType, Text};
use class_tree::{Tree, is_subtype};
use machine_values::{First, Given};

/// What a value must be: of a base type, by its letter, or of a class or an array type, by its name or descriptor.
#[derive(Clone, Copy)]
enum Wanted<'a> {
    Base(u8),
    Named(&'a [u8]),
}

/// Writes the first thing that is wrong with the values of a call: how many they are, or one of them.
pub(crate) fn put_wrong_values(
    lines: &mut Lines,
    scene: &Scene<'_, '_>,
    receiver: Option<&Text>,
    types: &[FieldType],
    values: &[Given],
) {
    let extra: usize = if receiver.is_some() { 1 } else { 0 };
    if values.len() != types.len().saturating_add(extra) {
        lines.put("  values that it takes: ");
        lines.number(types.len().saturating_add(extra) as u64);
        if let Some(class) = receiver {
            lines.put(", the first its receiver, of ");
            lines.name(class.bytes());
        }
        lines.put("; values that are given: ");
        lines.number(values.len() as u64);
        lines.put("\n");
        return;
    }
    if let (Some(class), Some(value)) = (receiver, values.first()) {
        if !put_wrong(lines, scene, 1, Wanted::Named(class.bytes()), *value) {
            put_wrong_of(lines, scene, extra, types, values);
        }
    } else {
        put_wrong_of(lines, scene, extra, types, values);
    }
}

// The first value behind the receiver that is wrong.
fn put_wrong_of(
    lines: &mut Lines,
    scene: &Scene<'_, '_>,
    extra: usize,
    types: &[FieldType],
    values: &[Given],
) {
    let rest = values.get(extra..).unwrap_or(&[]);
    let mut number = extra as u64;
    for (wanted, value) in types.iter().zip(rest) {
        number = number.saturating_add(1);
        if put_wrong(lines, scene, number, wanted_of(wanted), *value) {
            return;
        }
    }
}

// Whether a value is not of the type that is wanted, which is then said.
fn put_wrong(
    lines: &mut Lines,
    scene: &Scene<'_, '_>,
    number: u64,
    wanted: Wanted<'_>,
    value: Given,
) -> bool {
    if let Given::Known(known) = value {
        if scene.known.get(known).is_none() {
            put_unknown(lines, scene.known, known);
            return true;
        }
    }
    if is_of(scene, wanted, value) {
        return false;
    }
    lines.put("  value ");
    lines.number(number);
    lines.put(" must be of type ");
    match wanted {
        Wanted::Base(letter) => {
            lines.name(&[letter]);
            lines.put(", written ");
            lines.put(value_form(&[letter]));
        }
        Wanted::Named(name) => {
            lines.name(name);
            lines.put(", written null or r:K");
        }
    }
    lines.put("\n");
    true
}

/// Writes that no event showed a reference of this number.
pub(crate) fn put_unknown(lines: &mut Lines, known: &Known<'_>, number: u64) {
    lines.put("  no event showed r:");
    lines.number(number);
    lines.put("; references that the library knows: ");
    lines.number(known.count() as u64);
    lines.put(", from r:0 on\n");
}

fn is_of(scene: &Scene<'_, '_>, wanted: Wanted<'_>, value: Given) -> bool {
    match wanted {
        Wanted::Base(letter) => is_of_base(letter, value),
        Wanted::Named(name) => match value {
            Given::Null => true,
            Given::Known(number) => match scene.known.get(number) {
                Some(first) => shows_type(scene.tree, first, name),
                None => false,
            },
            Given::Int(_) | Given::Long(_) | Given::Float(_) | Given::Double(_) => false,
        },
    }
}

fn is_of_base(letter: u8, value: Given) -> bool {
    match value {
        Given::Int(_) => !matches!(letter, b'J' | b'F' | b'D'),
        Given::Long(_) => letter == b'J',
        Given::Float(_) => letter == b'F',
        Given::Double(_) => letter == b'D',
        Given::Null | Given::Known(_) => false,
    }
}

// Whether what a reference showed first is of a class or an array type.
fn shows_type(tree: &Tree, first: &First, wanted: &[u8]) -> bool {
    is_subtype(tree, first.class.bytes(), wanted)
        || first
            .also
            .as_slice()
            .iter()
            .any(|name| is_subtype(tree, name.bytes(), wanted))
}

fn wanted_of(wanted: &FieldType) -> Wanted<'_> {
    match wanted {
        FieldType::Byte => Wanted::Base(b'B'),
        FieldType::Char => Wanted::Base(b'C'),
        FieldType::Short => Wanted::Base(b'S'),
        FieldType::Bool => Wanted::Base(b'Z'),
        FieldType::Int => Wanted::Base(b'I'),
        FieldType::Long => Wanted::Base(b'J'),
        FieldType::Float => Wanted::Base(b'F'),
        FieldType::Double => Wanted::Base(b'D'),
        FieldType::Named(name) => Wanted::Named(name.bytes()),
    }
}
