//! Generated work: made, optimised, and run before and after that.
ghost use Rattle.std.specs.Prelude.{◌≡◌, ◌≤◌, List, codes, IfOk};
ghost use Rattle.std.specs.List.{AllByRecursion};
ghost use Rattle.class_tree.specs.Headers.{IsClassFile};
ghost use Rattle.machine_values.specs.declared.action.Action.{Action};
ghost use Rattle.pea_top.specs.Generating.{IsGeneratedText, counts_text, draws_text, generated_line, last_counts, methods_text, numbers_line};
ghost use Rattle.pea_top.specs.Inner.Generating.{AreCountedAlike, AreRunsTold, IsBaseTree, VerifyWithBase};
ghost use Rattle.script_text.specs.Scripts.{IsScript};
ghost use Rattle.type_rules.specs.Verified.{IsVerified};

use crate::both::{Runs, frames_of, runs_of};
use class_model::NoMemory;
use class_rewrite::rewritten;
use class_tree::{ClassFileList, LinkFault, Tree, build_tree};
use machine_values::{ActionList, EventList, Shown};
use script_text::{ScriptFault, a_script_has_no_line_outside, read_script};
use std::alloc::Global;
use verified_work::{a_generated_script_is_read, generated_work_verifies};
use work_gen::{Work, base_headers, base_headers_are_library_classes, generate};

/// The steps of each run.
const STEPS: u64 = 1_000_000;

/// The line of generated work of this number and size, which is optimised and run by its script before and after that.
pub(crate) fn generated_text(alloc: Global, number: u32, size: u32) -> Result<Vec<u8>, NoMemory>
    requires number { number ≤ 2147483647 }
    requires size { size ≤ 1000 }
    ensures { IfOk result (λ text. IsGeneratedText number size text.items) }
{
    generated_work_verifies();
    a_generated_script_is_read();
    let Work { folder, script } = generate(alloc, number, size)?;
    let actions = actions_of(alloc, script.as_slice())?;
    let tree = base_tree(alloc, folder)?;
    runs_text(alloc, number, size, &tree, &actions)
}

// The actions of a text that is a script.
fn actions_of(alloc: Global, script: &[u8]) -> Result<ActionList, NoMemory>
    requires { (actions : List Action) × IsScript script.now actions }
    ensures { IfOk result (IsScript script.now) }
{
    a_script_has_no_line_outside();
    match read_script(alloc, script) {
        Ok(actions) => Ok(actions),
        Err(ScriptFault::NoMemory) => Err(NoMemory),
        Err(ScriptFault::BadScript { .. }) => unreachable!(),
    }
}

// The hierarchy of class files that verify with the base library.
fn base_tree(alloc: Global, folder: ClassFileList) -> Result<Tree, NoMemory>
    requires files { AllByRecursion IsClassFile folder }
    requires verify { VerifyWithBase folder }
    ensures { IfOk result (IsBaseTree folder) }
{
    base_headers_are_library_classes();
    let library = base_headers(alloc)?;
    match build_tree(alloc, folder, library) {
        Ok(tree) => Ok(tree),
        Err(LinkFault::NoMemory) => Err(NoMemory),
        Err(LinkFault::Unlinked { .. }) => unreachable!(),
    }
}

// The line that says what a folder and its written folder show of these actions.
fn runs_text(
    alloc: Global,
    number: u32,
    size: u32,
    tree: &Tree,
    actions: &ActionList,
) -> Result<Vec<u8>, NoMemory>
    requires { IsVerified tree.now }
    ensures { IfOk result
        (λ text. AreRunsTold tree.now actions.now number size text.items) }
{
    let typed = frames_of(alloc, tree)?;
    let runs = runs_of(alloc, tree, &typed, actions, STEPS)?;
    let word = word_of(&runs.before, &runs.after);
    line_of(alloc, number, size, &runs, word)
}

// Whether two runs of which the one shows events of the other show the same.
fn word_of(before: &Shown, after: &Shown) -> &'static str
    ensures same { AreCountedAlike before.now after.now → result.now ≡ codes "same" }
    ensures differ { ¬ AreCountedAlike before.now after.now → result.now ≡ codes "differ" }
{
    if before.events.len() == after.events.len() && after.end == before.end {
        "same"
    } else {
        "differ"
    }
}

// The line of these runs with this last word.
fn line_of(
    alloc: Global,
    number: u32,
    size: u32,
    runs: &Runs,
    word: &str,
) -> Result<Vec<u8>, NoMemory>
    ensures { IfOk result (λ text.
        text.items
        ≡ generated_line number size runs.now.report runs.now.before runs.now.after word.now) }
{
    let changed = rewritten(&runs.report);
    let methods = (changed, runs.report.len() - changed);
    let events = runs.before.events.len();
    let before = last_counts(&runs.before.events);
    let after = last_counts(&runs.after.events);
    numbers_line(alloc, number, size, methods, events, before, after, word)
}

// The line of rewritten and kept methods, of so many events, of the counts of both runs, and of a last word.
fn numbers_line(
    alloc: Global,
    number: u32,
    size: u32,
    methods: (usize, usize),
    events: usize,
    before: (u128, u64),
    after: (u128, u64),
    word: &str,
) -> Result<Vec<u8>, NoMemory>
    ensures { IfOk result (λ text.
        text.items ≡ numbers_line number size methods events before after word.now) }
{
    let (changed, kept) = methods;
    let mut line = draws_text(alloc, number, size)?;
    line.extend_from_slice(methods_text(alloc, changed, kept, events)?.as_slice())?;
    line.extend_from_slice(b" before ")?;
    line.extend_from_slice(counts_text(alloc, before)?.as_slice())?;
    line.extend_from_slice(b" after ")?;
    line.extend_from_slice(counts_text(alloc, after)?.as_slice())?;
    line.extend_from_slice(b" ")?;
    line.extend_from_slice(word.as_bytes())?;
    line.extend_from_slice(b"\n")?;
    Ok(line)
}

// From which numbers the work was drawn.
fn draws_text(alloc: Global, number: u32, size: u32) -> Result<Vec<u8>, NoMemory>
    ensures { IfOk result (λ text. text.items ≡ draws_text number size) }
{
    let text = format!(in alloc; "gen number={number} size={size}")?;
    Ok(text.into_bytes())
}

// How many methods were rewritten and kept, and how many events a run shows.
fn methods_text(
    alloc: Global,
    changed: usize,
    kept: usize,
    events: usize,
) -> Result<Vec<u8>, NoMemory>
    ensures { IfOk result (λ text. text.items ≡ methods_text changed kept events) }
{
    let text = format!(in alloc; " rewritten={changed} kept={kept} events={events}")?;
    Ok(text.into_bytes())
}

// The counts of allocations and of monitors entered.
fn counts_text(alloc: Global, counts: (u128, u64)) -> Result<Vec<u8>, NoMemory>
    ensures { IfOk result (λ text. text.items ≡ counts_text counts) }
{
    let (made, entered) = counts;
    let text = format!(in alloc; "a={made} m={entered}")?;
    Ok(text.into_bytes())
}

// The counts of allocations and of monitors entered at the last event.
fn last_counts(events: &EventList) -> (u128, u64)
    ensures { result ≡ last_counts events.now }
{
    match events.get(events.len().saturating_sub(1)) {
        Some(event) => (event.allocations, event.entries),
        None => (0, 0),
    }
}
