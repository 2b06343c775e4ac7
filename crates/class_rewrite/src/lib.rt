//! The rewriting of a folder: what becomes of each method and why, and the folder that is written.
#![tactic(auto)]

mod access_laws;
mod decided;
mod drafts;
mod emitted_laws;
mod entered;
mod file_laws;
mod finished;
mod folder;
mod frame_facts;
mod grown_pool;
mod home;
mod laws;
mod linked_laws;
mod local_units;
mod made_sites;
mod marked_classes;
mod marked_fields;
mod marks;
mod method_laws;
mod outcome;
mod ready_laws;
mod report;
mod rewriter;
mod sound_laws;
mod used_fields;
mod verified_laws;
mod written_method;
mod written_part;

pub use access_laws::rewritten_items_may_use_what_they_name;
pub use emitted_laws::rewritten_items_are_emitted_code;
pub use file_laws::written_classes_are_class_files;
pub use folder::{Optimised, optimise_folder};
pub use frame_facts::{
    frames_of_rewritten_methods_are_linked, frames_of_written_code_have_spelled_names,
    frames_of_written_items_are_sound, rewritten_methods_have_sound_frames,
    rewritten_methods_state_their_frames,
};
pub use laws::{
    a_method_has_one_reason, a_written_folder_runs_as_its_folder, a_written_folder_verifies,
    an_expanded_flat_code_of_a_verified_folder_is_typed,
    expanded_flat_codes_of_a_verified_folder_run_equally,
};
pub use linked_laws::written_methods_are_linked;
pub use report::{Line, Report, is_rewritten, reason_name, rewritten};
pub use sound_laws::a_written_folder_is_sound;
pub use verified_laws::{
    a_sound_written_folder_keeps_its_meaning, a_sound_written_folder_verifies,
};
