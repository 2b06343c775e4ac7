//! The type checker's rules (JVM Specification SE 8, 4.10.1): assignability of types and frames, and what each instruction
//! does to a frame.
#![tactic(auto)]

mod arguments;
mod arithmetic;
mod arrays;
mod assignability;
mod call_descriptors;
mod calls;
mod code;
mod constants;
mod descriptors;
mod fault;
mod fields;
mod initialisers;
mod jumps;
mod keeping;
mod laws;
mod locals;
mod method_rules;
mod need;
mod objects;
mod operands;
mod protected;
mod returns;
mod rule_text;
mod ruled;
mod shuffles;
mod step;
mod table;
mod typed;

pub use assignability::{are_changed_locals_assignable, assignable, frame_assignable};
pub use code::{code_of, has_code};
pub use fault::{RuleFault, TypeRule, VerifyFault};
pub use keeping::{LocalChanges, local_changes};
pub use laws::{
    a_failing_method_has_no_frames, a_grown_class_begins_alike, a_grown_class_has_a_grown_header,
    a_grown_class_keeps_its_code, a_grown_class_keeps_its_instructions, a_method_has_one_typing,
    a_method_stands_in_order, a_replaced_program_has_grown_classes,
    a_typed_body_goes_to_stated_frames, a_typed_folder_types_each_method,
    a_typed_method_types_each_instruction, frames_type_a_body_by_its_places,
    grown_classes_are_found_alike, grown_classes_bar_no_more_stores,
    grown_classes_declare_what_passes, grown_classes_have_the_same_links,
    grown_classes_keep_typings, rows_hold_among_grown_classes,
};
pub use method_rules::MethodRules;
pub use ruled::Ruled;
pub use table::rule;
pub use typed::{TypedClass, TypedFolder, TypedMethod};
