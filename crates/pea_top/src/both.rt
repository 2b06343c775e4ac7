//! Running a folder and its written folder.
ghost use Rattle.std.specs.Prelude.{◌≡◌, ◌≢◌, ◌++◌, IfOk};
ghost use Rattle.class_rewrite.specs.Optimised.{with_folder};
ghost use Rattle.class_tree.specs.Trees.{IsTree};
ghost use Rattle.machine_values.specs.declared.event.End.TheVariants as ends;
ghost use Rattle.member_link.specs.Linked.{IsLinked};
ghost use Rattle.member_link.specs.Machine.Programs.{Program};
ghost use Rattle.member_link.specs.Machine.Runs.{shown_after};
ghost use Rattle.member_link.specs.TreePrograms.{IsProgram};
ghost use Rattle.pea_top.specs.Both.{both_text};
ghost use Rattle.pea_top.specs.Inner.Both.{AreBoth, AreRuns};
ghost use Rattle.type_rules.specs.Verified.{IsVerified, TypesFolder};

use crate::sharing::SharedTexts;
use class_model::{Header, NoMemory};
use class_rewrite::{Optimised, Report, optimise_folder};
use class_tree::{ClassFileList, HeaderList, LinkFault, Tree, a_folder_is_told_once, build_tree};
use explain::explain_end;
use machine_laws::{
    a_run_goes_on_where_it_stopped, a_run_that_is_over_stays, turns_keep_what_was_shown,
};
use machine_run::a_tree_has_a_program;
use machine_values::{ActionList, Shown};
use never_stuck::run_verified;
use script_text::print_events;
use std::alloc::Global;
use type_rules::{TypedFolder, VerifyFault};
use verify_folder::{a_folder_fails_once, verify_all};

/// What becomes of each method of a folder, and what the folder and its written folder show.
#[derive(Drop)]
pub(crate) struct Runs {
    pub report: Report,
    pub before: Shown,
    pub after: Shown,
}

/// What a folder and its written folder show of these actions, in at most so many steps each.
pub(crate) fn runs_of(
    alloc: Global,
    tree: &Tree,
    typed: &TypedFolder,
    actions: &ActionList,
    steps: u64,
) -> Result<Runs, NoMemory>
    requires linked { IsLinked tree.now }
    requires types { TypesFolder tree.now typed.now }
    ensures { IfOk result (AreRuns tree.now typed.now actions.now steps) }
{
    a_run_that_is_over_stays();
    a_run_goes_on_where_it_stopped();
    turns_keep_what_was_shown();
    let Optimised { classes, report } = optimise_folder(alloc, tree, typed)?;
    let before = run_verified(alloc, tree, typed, actions, steps)?;
    let after = run_written(alloc, tree, classes, actions, steps)?;
    Ok(Runs {
        report,
        before,
        after,
    })
}

// What a written folder shows, with the library of the folder that was read.
fn run_written(
    alloc: Global,
    tree: &Tree,
    classes: ClassFileList,
    actions: &ActionList,
    steps: u64,
) -> Result<Shown, NoMemory>
    requires { IsVerified (with_folder tree.now classes) }
    ensures run { IfOk result (λ shown. (P : Program) → IsProgram (with_folder tree.now classes) P
        → shown ≡ shown_after P actions.now steps) }
    ensures never_stuck { IfOk result
        (λ shown. (P : Program) → IsProgram (with_folder tree.now classes) P
        → shown.end ≢ ends.Stuck) }
{
    let written = written_tree(alloc, tree, classes)?;
    let typed = frames_of(alloc, &written)?;
    run_verified(alloc, &written, &typed, actions, steps)
}

// The hierarchy of a written folder, with the library of the folder that was read.
fn written_tree(alloc: Global, tree: &Tree, classes: ClassFileList) -> Result<Tree, NoMemory>
    requires { IsTree (with_folder tree.now classes) }
    ensures { IfOk result (λ written. written ≡ with_folder tree.now classes) }
{
    a_folder_is_told_once();
    let library = copied_headers(alloc, tree.library().as_slice())?;
    match build_tree(alloc, classes, library) {
        Ok(written) => Ok(written),
        Err(LinkFault::NoMemory) => Err(NoMemory),
        Err(LinkFault::Unlinked { .. }) => unreachable!(),
    }
}

// Equal headers.
fn copied_headers(alloc: Global, headers: &[Header]) -> Result<HeaderList, NoMemory>
    ensures { IfOk result (λ copied. copied ≡ headers.now) }
{
    let mut texts = SharedTexts::new(alloc)?;
    let mut copied = HeaderList::new(alloc);
    for header in headers {
        copied.push(texts.header(alloc, header)?)?;
    }
    Ok(copied)
}

/// The frames of a folder that verifies.
pub(crate) fn frames_of(alloc: Global, tree: &Tree) -> Result<TypedFolder, NoMemory>
    requires { IsVerified tree.now }
    ensures { IfOk result (λ typed. TypesFolder tree.now typed) }
{
    a_folder_fails_once();
    match verify_all(alloc, tree) {
        Ok(typed) => Ok(typed),
        Err(VerifyFault::NoMemory) => Err(NoMemory),
        Err(VerifyFault::Unverified { .. }) => unreachable!(),
    }
}

/// What the runs of a folder and of its written folder print, and what is to be noted of the end of the first.
pub(crate) fn both_text(
    alloc: Global,
    tree: &Tree,
    typed: &TypedFolder,
    actions: &ActionList,
    steps: u64,
) -> Result<(Vec<u8>, Result<String, NoMemory>), NoMemory>
    requires linked { IsLinked tree.now }
    requires types { TypesFolder tree.now typed.now }
    ensures { IfOk result (λ told. AreBoth tree.now typed.now actions.now steps told.0.items) }
{
    let Runs { before, after, .. } = runs_of(alloc, tree, typed, actions, steps)?;
    let text = text_of(alloc, &before, &after)?;
    Ok((text, explain_end(alloc, tree, actions.as_slice(), &before)))
}

// The texts of two runs.
fn text_of(alloc: Global, before: &Shown, after: &Shown) -> Result<Vec<u8>, NoMemory>
    ensures { IfOk result (λ text. text.items ≡ both_text before.now after.now) }
{
    let mut text = Vec::from_slice(alloc, b"before\n")?;
    text.extend_from_slice(print_events(alloc, before)?.as_slice())?;
    text.extend_from_slice(b"after\n")?;
    text.extend_from_slice(print_events(alloc, after)?.as_slice())?;
    Ok(text)
}
