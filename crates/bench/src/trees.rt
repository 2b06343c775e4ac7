//! Questions about the hierarchy of class files.
use cases_notation::Input;
use class_tree::{Place, Tree, is_sub};
use host_tree::{Host, RealHost};
use std::alloc::Global;

// How many interfaces are the last of the folder in byte order.
const INTERFACES: usize = 64;

/// Builds the hierarchy of the class files of the folders `in` and `lib` and asks so many questions about at most so many of the folder's
/// classes, and counts those that are answered by yes. None where a file is not read, there is no hierarchy, or memory runs out.
pub(crate) fn ask(rt: &HostRuntime, most: u32, questions: u32) -> Option<u64> {
    let tree = read_folders(rt)?.build(rt.alloc()).ok()?;
    let mut yes: u64 = 0;
    for question in 0..questions {
        yes = yes.wrapping_add(answer(&tree, question as usize, most as usize) as u64);
    }
    Some(yes)
}

fn read_folders(rt: &HostRuntime) -> Option<Input> {
    let mut host = RealHost::new(*rt, &rt.stderr());
    let mut input = Input::empty(rt.alloc());
    let is_read = read_folder(rt.alloc(), &mut host, "lib", &mut input).is_some()
        && read_folder(rt.alloc(), &mut host, "in", &mut input).is_some();
    if is_read { Some(input) } else { None }
}

// Adds the class files of one of the folders, which has no other files.
fn read_folder<H: Host>(alloc: Global, host: &mut H, root: &str, input: &mut Input) -> Option<()> {
    let names = host.list(alloc, root, u64::MAX).ok()?;
    for at in 0..names.len() {
        let name = names.get(at)?.as_str();
        let bytes = host.read(alloc, root, name, u64::MAX).ok()?;
        if root == "in" {
            input.add_file(alloc, bytes.as_slice()).ok()?;
        } else {
            input.add_library_file(alloc, bytes.as_slice()).ok()?;
        }
    }
    Some(())
}

// Whether a class of the folder, one of at most so many that are equally far apart, is below another, of three kinds in turn: that of a
// sixteenth of its number, any of these classes, and one of the interfaces.
fn answer(tree: &Tree, question: usize, most: usize) -> bool {
    let count = tree.folder().len();
    let among = count.min(most);
    if among == 0 {
        return false;
    }
    let apart = count / among;
    let low = (question.wrapping_mul(7919) % among).wrapping_mul(apart);
    let high = match question % 3 {
        0 => low / 16,
        1 => (question.wrapping_mul(31) % among).wrapping_mul(apart),
        _ => count.saturating_sub(1 + question % INTERFACES),
    };
    let (low, high) = (Place::Folder(low), Place::Folder(high));
    match (tree.header(low), tree.header(high)) {
        (Some(low), Some(high)) => is_sub(tree, &low.name, &high.name),
        _ => false,
    }
}
