//! Linking (JVM Specification SE 8, 5.4): how fields and methods are looked up, which method a call runs, what is
//! accessible, and what it means that a folder is linked with its library.
#![tactic(auto)]

mod access;
mod alike;
mod ask;
mod body;
mod class_access;
mod code_uses;
mod constants;
mod declarations;
mod defaults;
mod descriptors;
mod fields;
mod final_methods;
mod flags;
mod forms;
mod found;
mod frames;
mod instructions;
mod laws;
mod laws_alike;
mod laws_chosen;
mod laws_linked;
mod laws_links;
mod links;
mod methods;
mod named_descriptors;
mod names;
mod overriding;
mod own;
mod packages;
mod questions;
mod reference;
mod references;
mod resolution;
mod resolver;
mod resolving;
mod run_op;
mod selection;
mod slots;
mod spans;
mod special;
mod stated;
mod upwards;
mod uses;

pub use access::accessible;
pub use body::MethodBody;
pub use class_access::class_accessible;
pub use descriptors::{
    after_first, after_type, begins_type, first_type, kind_at, named_type, parameter_count,
    parameter_kinds, result_text, without_last,
};
pub use fields::find_field;
pub use found::Found;
pub use laws::{
    a_look_up_finds_one_field, a_look_up_finds_one_method, a_selection_chooses_one,
    assignability_is_not_transitive,
};
pub use laws_alike::alike_classes_have_one_look_up;
pub use laws_chosen::{
    a_choice_can_be_run, a_found_field_is_above, a_found_method_is_above,
    a_special_call_starts_once,
};
pub use laws_linked::{
    a_field_reference_passes, a_linked_folder_passes_by_place, a_method_reference_passes,
    a_named_class_passes,
};
pub use laws_links::{a_hierarchy_has_links, a_tree_has_links};
pub use links::{check_declared_links, check_links, check_next_links};
pub use methods::find_method;
pub use overriding::overrides;
pub use own::own_method;
pub use packages::is_same_package;
pub use questions::callees::{callee_of, method_found, reference_to, run_call, run_selected};
pub use questions::classes::{
    class_name, folder_number, header_named, is_interface_named, is_type_below,
};
pub use questions::methods::{has_code, has_method_flag, place_of_method};
pub use reference::{MemberRef, Reference, descriptor_at, member_at, name_at, reference_of};
pub use run_op::{
    CallOp, CallTarget, Callee, CastOp, DynamicOp, FieldHome, FieldOp, FieldTarget, LookupOp,
    NewOp, RunOp, SeenAnswer, SeenCallee, SeenSlot, TableOp, Throwable,
};
pub use selection::{CallForm, Selected, select};
pub use slots::slot_number;
pub use special::special_start;
