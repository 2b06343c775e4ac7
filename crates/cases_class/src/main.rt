//! Asks the cases of the files that the words name, and compares what is answered. It prints each case that is answered
//! otherwise, with its line, and the number of cases of each file.
//!
//! A line of a file that begins with `#` is a comment, and one that begins with two spaces goes on with the line before it.
//! Any other is a setting, which stands until it is set again, or a case: a question, ` => ` and the answer.
//!
//! Classes are in the notation of `cases_notation`, with ` | ` between them. The settings are `folder CLASSES`; `library
//! CLASSES`, which the library has beside the usual ones; `without NAMES`, which the usual library lacks, and `without *`
//! where there is no class of it; and `class NAME`, the class whose last method is asked. The questions are named as the
//! calls that they ask:
//! - `build_tree CLASSES`, `check_links CLASSES` and `verify_all CLASSES`, of a folder of these classes;
//! - `is_sub LOW HIGH`, `superclasses NAME`, `superinterfaces NAME`, `place NAME`, `field CLASS NAME DESC` and `method CLASS
//!   NAME DESC`, of the hierarchy;
//! - `find_field CLASS NAME DESC`, `find_method CLASS NAME DESC`, `select FORM RECEIVER CLASS NAME DESC` and `accessible FROM
//!   CLASS NAME DESC`;
//! - `assignable TYPES to TYPES`, of each to each, and `frame_assignable FRAME to FRAME`;
//! - `rule USES behind FRAMES`, with ` ; ` between frames that have one answer: what the method's code uses, of which the last
//!   is asked;
//! - `verify_method USES`, and `typed CLASS METHOD` by their numbers.
//!
//! An answer is `-` where there is nothing.
#![tactic(auto)]

mod answers;
mod hierarchies;
mod linking;
mod rules;
mod typed_folders;
mod typed_methods;

use answers::answer;
use cases_notation::compare_files;
use std::process::ExitCode;

fn main(rt: HostRuntime) -> ExitCode {
    compare_files(
        &rt,
        |alloc, setting, question| answer(alloc, setting, question),
    )
}
