//! Scripts, printed line by line.
ghost use Rattle.std.specs.Prelude.{◌≡◌, ◌∷◌, [], ◌++◌, map, FitsSigned, IfOk, OnOk};
ghost use Rattle.std.specs.Fmt.{signed_decimal};
ghost use Rattle.std.specs.Int.{w32};
ghost use Rattle.std.specs.List.{AllByRecursion};
ghost use Rattle.class_model.specs.ModifiedUtf8.{IsText};
ghost use Rattle.script_text.specs.Events.{spaced};
ghost use Rattle.script_text.specs.PrintedTexts.{printed_text};
ghost use Rattle.script_text.specs.PrintedScripts.{IsAction, IsGiven, IsKnown, action_words, printed_action, printed_given, printed_known, printed_script};
ghost use Rattle.script_text.specs.Scripts.{IsScript};
ghost use Rattle.script_text.specs.Inner.SpacedWords.{spaced_line};

use crate::kinds::{push_member, push_name};
use crate::printed::{push_integer, push_number};
use crate::seen::{push_bits, push_tagged};
use class_model::{ByteList, ListOf, NoMemory, Text};
use machine_values::{Action, ActionList, Given};
use std::alloc::Global;

/// The script of some actions: a line for each. `read_script` reads it back.
///
/// # Errors
///
/// `NoMemory` where memory runs out.
pub fn print_script(alloc: Global, actions: &ActionList) -> Result<ByteList, NoMemory>
    ensures printed { IfOk result (λ text. text ≡ printed_script actions.now) }
    ensures read_back { IfOk result (λ text. IsScript text actions.now) }
{
    let mut text = Vec::new(alloc);
    push_actions(alloc, &mut text, actions.as_slice())?;
    Ok(ListOf::from_vec(text))
}

/// Appends the lines of actions.
fn push_actions(alloc: Global, text: &mut Vec<u8>, actions: &[Action]) -> Result<(), NoMemory>
    ensures printed { OnOk result
        (text.new.items ≡ text.old.items ++ printed_script actions.now) }
    ensures known { OnOk result (AllByRecursion IsAction actions.now) }
{
    for action in actions {
        push_action(alloc, text, action)?;
    }
    Ok(())
}

/// Appends the line of an action.
fn push_action(alloc: Global, text: &mut Vec<u8>, action: &Action) -> Result<(), NoMemory>
    ensures printed { OnOk result (text.new.items ≡ text.old.items ++ printed_action action.now) }
    ensures known { OnOk result (IsAction action.now) }
{
    push_words(alloc, text, action)?;
    text.push(b'\n')?;
    Ok(())
}

/// Appends the words of an action, with a space between them.
fn push_words(alloc: Global, line: &mut Vec<u8>, action: &Action) -> Result<(), NoMemory>
    ensures printed { OnOk result
        (line.new.items ≡ line.old.items ++ spaced_line (action_words action.now)) }
    ensures known { OnOk result (IsAction action.now) }
{
    match action {
        Action::Call {
            class,
            name,
            desc,
            values,
        } => {
            push_member(line, b"call", class, name, desc)?;
            push_givens(alloc, line, values.as_slice())
        }
        Action::Construct {
            class,
            desc,
            values,
        } => {
            line.extend_from_slice(b"construct")?;
            push_name(line, class)?;
            push_name(line, desc)?;
            push_givens(alloc, line, values.as_slice())
        }
        Action::Return(None) => Ok(line.extend_from_slice(b"return")?),
        Action::Return(Some(value)) => {
            line.extend_from_slice(b"return")?;
            push_given(alloc, line, *value)
        }
        Action::Throw(number) => push_known(alloc, line, b"throw", *number),
        Action::ArrayGet { at, index } => push_element(alloc, line, b"get", *at, *index),
        Action::ArraySet { at, index, value } => {
            push_element(alloc, line, b"set", *at, *index)?;
            push_given(alloc, line, *value)
        }
        Action::ArrayLength(number) => push_known(alloc, line, b"length", *number),
        Action::NewArray { desc, length } => {
            line.extend_from_slice(b"array")?;
            push_name(line, desc)?;
            push_index(alloc, line, *length)
        }
        Action::NewExternal { class, also } => {
            line.extend_from_slice(b"new")?;
            push_name(line, class)?;
            push_names(line, also.as_slice())
        }
        Action::Stop => Ok(line.extend_from_slice(b"stop")?),
    }
}

/// Appends names, each behind a space.
fn push_names(line: &mut Vec<u8>, names: &[Text]) -> Result<(), NoMemory>
    ensures printed { OnOk result
        (line.new.items ≡ line.old.items ++ spaced (map printed_text names.now)) }
    ensures texts { OnOk result (AllByRecursion IsText names.now) }
{
    for name in names {
        push_name(line, name)?;
    }
    Ok(())
}

/// Appends values, each behind a space.
fn push_givens(alloc: Global, line: &mut Vec<u8>, values: &[Given]) -> Result<(), NoMemory>
    ensures printed { OnOk result
        (line.new.items ≡ line.old.items ++ spaced (map printed_given values.now)) }
    ensures known { OnOk result (AllByRecursion IsGiven values.now) }
{
    for value in values {
        push_given(alloc, line, *value)?;
    }
    Ok(())
}

/// Appends a space and a value.
fn push_given(alloc: Global, line: &mut Vec<u8>, value: Given) -> Result<(), NoMemory>
    ensures printed { OnOk result
        (line.new.items ≡ line.old.items ++ (32 ∷ printed_given value)) }
    ensures known { OnOk result (IsGiven value) }
{
    match value {
        Given::Int(number) => push_tagged(alloc, line, b" i:", i64::from(number)),
        Given::Long(number) => push_tagged(alloc, line, b" l:", number),
        Given::Float(bits) => push_bits(line, b" f:", 8, u64::from(bits)),
        Given::Double(bits) => push_bits(line, b" d:", 16, bits),
        Given::Null => Ok(line.extend_from_slice(b" null")?),
        Given::Known(number) => push_reference(alloc, line, number),
    }
}

/// Appends a space and a known reference.
fn push_reference(alloc: Global, line: &mut Vec<u8>, number: u64) -> Result<(), NoMemory>
    ensures { OnOk result (line.new.items ≡ line.old.items ++ (32 ∷ printed_known number)) }
{
    line.extend_from_slice(b" r:")?;
    push_number(alloc, line, number)
}

/// Appends the first word of an action, and a known reference.
fn push_known(alloc: Global, line: &mut Vec<u8>, head: &[u8], number: u64) -> Result<(), NoMemory>
    ensures printed { OnOk result
        (line.new.items ≡ line.old.items ++ (head.now ++ spaced (printed_known number ∷ []))) }
    ensures known { IsKnown number }
{
    line.extend_from_slice(head)?;
    push_reference(alloc, line, number)
}

/// Appends the first word of an action, a known reference and an index.
fn push_element(
    alloc: Global,
    line: &mut Vec<u8>,
    head: &[u8],
    at: u64,
    index: i32,
) -> Result<(), NoMemory>
    ensures printed { OnOk result (line.new.items
        ≡ line.old.items ++ (head.now ++ spaced (printed_known at ∷ signed_decimal index ∷ []))) }
    ensures known { IsKnown at × FitsSigned w32 index }
{
    push_known(alloc, line, head, at)?;
    push_index(alloc, line, index)
}

/// Appends a space and an index or a length.
fn push_index(alloc: Global, line: &mut Vec<u8>, index: i32) -> Result<(), NoMemory>
    ensures printed { OnOk result
        (line.new.items ≡ line.old.items ++ (32 ∷ signed_decimal index)) }
    ensures fits { FitsSigned w32 index }
{
    line.push(b' ')?;
    push_integer(alloc, line, i64::from(index))
}
