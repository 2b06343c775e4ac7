//! The frames of a folder's methods, with what was found of them.
ghost use Rattle.std.specs.Prelude.{◌≡◌, ◌↔◌, IfOk, OnOk, IsTrue};
ghost use Rattle.std.specs.Option.{option_copied};
ghost use Rattle.flow_code.specs.TypedFrames.{typed_frames_at};
ghost use Rattle.inline_expand.specs.Inner.KnownFrames.{AreKnown, AreWithoutThis};

use crate::verdicts::Verdicts;
use crate::without_this::are_without_this;
use class_model::{Frame, MethodAt, NoMemory};
use class_tree::Tree;
use std::alloc::Global;
use std::marker::Model;
use type_rules::{TypedFolder, TypedMethod};

// Methods with more frames than this have more code than a callee.
const MOST_FRAMES: usize = 64;

/// The frames of the methods of a folder. Of methods that are as short as callees it is found once whether a frame has an
/// uninitialised this: hosts of many classes ask for it. Contracts see the frames.
#[derive(Drop)]
pub(crate) struct KnownFrames<'t> {
    typed: &'t TypedFolder,
    // Of some methods, whether their frames are without an uninitialised this.
    without_this: Verdicts,
}

impl<'t> Model for KnownFrames<'t> {
    ghost use Rattle.flow_code.specs.TypedFrames.{FolderFrames};
    ghost use Rattle.inline_expand.specs.Inner.KnownFrames.{AreKnown};

    ghost Value = { FolderFrames };

    ghost view = { λ known. known.typed.now };

    ghost invariant = { λ known. AreKnown known.typed.now known.without_this };
}

impl<'t> KnownFrames<'t> {
    /// Those of the methods of a tree's folder. It goes over the whole folder.
    ///
    /// # Errors
    /// `NoMemory`, where memory runs out.
    pub(crate) fn new(alloc: Global, tree: &Tree, typed: &'t TypedFolder) -> Result<Self, NoMemory>
        ensures { IfOk result (λ known. known ≡ typed.now) }
    {
        let mut without_this = Verdicts::new(alloc);
        judge_folder(tree, typed, &mut without_this)?;
        Ok(KnownFrames {
            typed,
            without_this,
        })
    }

    /// The frames of a method, if it has some.
    pub(crate) fn of(&self, at: MethodAt) -> Option<&'t TypedMethod>
        ensures { option_copied result ≡ typed_frames_at self.now at }
    {
        self.typed.of(at)
    }

    /// Whether the frames of a method, which are these, are without an uninitialised this.
    pub(crate) fn are_without_this(&self, at: MethodAt, frames: &[Frame]) -> bool
        requires { typed_frames_at self.now at ≡ Some frames.now }
        ensures { IsTrue result ↔ AreWithoutThis frames.now }
    {
        match self.without_this.of(at) {
            Some(found) => found,
            None => are_without_this(frames),
        }
    }
}

// Finds out of the methods of a folder whether their frames are without an uninitialised this.
fn judge_folder(tree: &Tree, typed: &TypedFolder, found: &mut Verdicts) -> Result<(), NoMemory>
    requires { AreKnown typed.now found.old }
    ensures { OnOk result (AreKnown typed.now found.new) }
{
    let folder = tree.folder().as_slice();
    for class in 0..folder.len() {
        judge_class(typed, class, folder[class].methods.len(), found)?;
    }
    Ok(())
}

// The same of so many methods of a class.
fn judge_class(
    typed: &TypedFolder,
    class: usize,
    count: usize,
    found: &mut Verdicts,
) -> Result<(), NoMemory>
    requires { AreKnown typed.now found.old }
    ensures { OnOk result (AreKnown typed.now found.new) }
{
    for method in 0..count {
        judge_method(typed, MethodAt { class, method }, found)?;
    }
    Ok(())
}

// The same of a method, if it has few frames.
fn judge_method(typed: &TypedFolder, at: MethodAt, found: &mut Verdicts) -> Result<(), NoMemory>
    requires { AreKnown typed.now found.old }
    ensures { OnOk result (AreKnown typed.now found.new) }
{
    let Some(frames) = typed.of(at) else {
        return Ok(());
    };
    if frames.len() > MOST_FRAMES {
        return Ok(());
    }
    found.judge(at, are_without_this(frames.as_slice()))?;
    Ok(())
}
