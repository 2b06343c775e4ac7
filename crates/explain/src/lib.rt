//! What the user is shown of a refusal, in words: the rule that is broken, where, and what would mend it. The lines are texts in
//! UTF-8. Nothing is proved of what they say but that making them is safe and ends; cases compare them.
#![tactic(auto)]

mod access;
mod answers;
mod descriptors;
mod ends;
mod faults;
mod forms;
mod frames;
mod given;
mod hierarchy;
mod lines;
mod links;
mod malformed;
mod missing;
mod mnemonics;
mod notes;
mod outlines;
mod places;
mod pool_spot;
mod pool_texts;
mod reasons;
mod references;
mod scripts;
mod side;
mod spot;
mod spot_words;
mod taken;
mod turns;
mod usage;
mod verification;
mod version;
mod wanted;

pub use ends::explain_end;
pub use hierarchy::{Folders, explain_hierarchy};
pub use links::explain_links;
pub use malformed::explain_malformed;
pub use notes::class_counts;
pub use outlines::Outlines;
pub use scripts::{explain_absent, explain_line, explain_no_file};
pub use side::Side;
pub use usage::explain_usage;
pub use verification::explain_verification;
pub use version::explain_version;
