//! Showing the user how far a command has come.
ghost use Rattle.std.specs.Prelude.{◌≡◌, IsTrue};
ghost use Rattle.host_tree.specs.declared.call.HostCall.{HostCall};
ghost use Rattle.host_tree.specs.Host.{SameFiles};

use crate::reading::Input;
use host_tree::{Host, Progress};

/// Of so many files that are read, and of so many classes that are linked or verified, one shows the progress.
const ITEMS_A_TURN: u64 = 64;

/// Shows how much is done of what is counted, at each turn.
pub(crate) fn show_done<H: Host>(host: &mut H, progress: Progress)
    ensures files { IsTrue H.tells → SameFiles (H.file host.old) (H.file host.new) }
    ensures printed { IsTrue H.tells → H.printed host.new ≡ H.printed host.old }
    ensures counts { (call : HostCall) → H.faults host.new call ≡ H.faults host.old call }
{
    let done = match progress {
        Progress::Input { read, .. } | Progress::Library { read, .. } => read,
        Progress::Linking { .. } => 0,
        Progress::Linked { linked, .. } => linked,
        Progress::Verified { verified, .. } => verified,
    };
    if done % ITEMS_A_TURN == 0 {
        host.show_progress(progress);
    }
}

/// Shows that what was read is about to be linked.
pub(crate) fn show_linking<H: Host>(host: &mut H, input: &Input)
    ensures files { IsTrue H.tells → SameFiles (H.file host.old) (H.file host.new) }
    ensures printed { IsTrue H.tells → H.printed host.new ≡ H.printed host.old }
    ensures counts { (call : HostCall) → H.faults host.new call ≡ H.faults host.old call }
{
    host.show_progress(Progress::Linking {
        classes: input.classes.len() as u64,
        library: input.headers.len() as u64,
    });
}

/// Shows how many classes of the input are linked, at each turn.
pub(crate) fn show_linked<H: Host>(host: &mut H, linked: usize, of: usize)
    ensures files { IsTrue H.tells → SameFiles (H.file host.old) (H.file host.new) }
    ensures printed { IsTrue H.tells → H.printed host.new ≡ H.printed host.old }
    ensures counts { (call : HostCall) → H.faults host.new call ≡ H.faults host.old call }
{
    let (linked, of) = (linked as u64, of as u64);
    show_done(host, Progress::Linked { linked, of });
}

/// Shows how many classes of the input are verified, at each turn.
pub(crate) fn show_verified<H: Host>(host: &mut H, verified: usize, of: usize)
    ensures files { IsTrue H.tells → SameFiles (H.file host.old) (H.file host.new) }
    ensures printed { IsTrue H.tells → H.printed host.new ≡ H.printed host.old }
    ensures counts { (call : HostCall) → H.faults host.new call ≡ H.faults host.old call }
{
    let (verified, of) = (verified as u64, of as u64);
    show_done(host, Progress::Verified { verified, of });
}
