//! The hierarchy of a folder of class files and its library (JVM Specification SE 8, 4.10, 5.3.5): which classes there
//! are, which is above which, and what each declares.
#![tactic(auto)]

mod arrange;
mod base;
mod build;
mod chains;
mod fault;
mod graph;
mod guesses;
mod headers;
mod hierarchy;
mod interfaces;
mod laws;
mod links;
mod list_hints;
mod lists;
mod members;
mod names;
mod order;
mod place;
mod question;
mod rule_text;
mod subtype;
mod super_places;
mod tree;

pub use build::build_tree;
pub use chains::chain;
pub use fault::{LinkFault, LinkRule};
pub use laws::{
    a_folder_is_told_once, a_hierarchy_decides_subtypes, a_tree_is_a_hierarchy,
    alike_classes_have_one_hierarchy, alike_classes_number_members_alike,
    classes_of_a_tree_are_a_hierarchy,
};
pub use members::{MemberKind, members_of};
pub use names::{METHOD_HANDLE, METHOD_TYPE, OBJECT, THROWABLE, machine_throwables};
pub use place::Place;
pub use question::ask;
pub use subtype::{component, innermost, is_above_arrays, is_array, is_below, is_sub, is_subtype};
pub use tree::{ClassFileList, HeaderList, Tree};
