//! Methods with code and the frames that type them.
ghost use Rattle.std.specs.Prelude.{◌≡◌, IfOk, length};
ghost use Rattle.std.specs.Option.{option_copied, option_map};
ghost use Rattle.expanded_code.specs.Callees.{frame_before, frame_behind};
ghost use Rattle.inline_expand.specs.Inner.Coded.{IsCoded, IsShortCoded};
ghost use Rattle.member_link.specs.Scope.{scope_at};

use crate::host::Host;
use crate::known_frames::KnownFrames;
use class_model::{Frame, MethodAt, NoMemory};
use class_tree::Tree;
use std::alloc::Global;
use type_rules::code_of;

/// The most bytes of a callee's code.
pub(crate) const MOST_BYTES: usize = 64;

/// A method with code, and the frames that type it.
#[derive(Drop)]
pub(crate) struct CodedMethod<'a> {
    pub(crate) at: MethodAt,
    pub(crate) host: Host<'a>,
    pub(crate) frames: &'a [Frame],
}

impl<'a> CodedMethod<'a> {
    /// The method of these numbers; none where it is not there, or has no code or no frames.
    ///
    /// # Errors
    /// `NoMemory`, where memory runs out.
    pub(crate) fn at(
        alloc: Global,
        tree: &'a Tree,
        typed: &'a KnownFrames<'a>,
        at: MethodAt,
    ) -> Result<Option<CodedMethod<'a>>, NoMemory>
        ensures { IfOk result (IsCoded tree.now typed.now at) }
    {
        let Some(frames) = typed.of(at) else {
            return Ok(None);
        };
        let Some(host) = Host::at(alloc, tree, at)? else {
            return Ok(None);
        };
        Ok(Some(CodedMethod {
            at,
            host,
            frames: frames.as_slice(),
        }))
    }

    /// The same of a method whose code is as short as a callee's; none for any other.
    ///
    /// # Errors
    /// `NoMemory`, where memory runs out.
    pub(crate) fn short_at(
        alloc: Global,
        tree: &'a Tree,
        typed: &'a KnownFrames<'a>,
        at: MethodAt,
    ) -> Result<Option<CodedMethod<'a>>, NoMemory>
        ensures { IfOk result (IsShortCoded tree.now typed.now at) }
    {
        match code_len(tree, at) {
            Some(len) if len <= MOST_BYTES => CodedMethod::at(alloc, tree, typed, at),
            _ => Ok(None),
        }
    }

    /// The frame before the instruction at an offset.
    pub(crate) fn frame_before(&self, at: u32) -> Option<&'a Frame>
        ensures { option_copied result ≡ frame_before self.now.host self.now.frames.now at }
    {
        self.frames.get(self.host.number(at) as usize)
    }

    /// The frame before the instruction behind the one at an offset.
    pub(crate) fn frame_behind(&self, at: u32) -> Option<&'a Frame>
        ensures { option_copied result ≡ frame_behind self.now.host self.now.frames.now at }
    {
        self.frames.get(self.host.number(at) as usize + 1)
    }
}

// How many bytes the code of a method has, if it has one.
fn code_len(tree: &Tree, at: MethodAt) -> Option<usize>
    ensures { result ≡ option_map (λ s. length s.part.code) (scope_at tree.now at) }
{
    let class = tree.folder().get(at.class)?;
    let method = class.methods.get(at.method)?;
    let part = code_of(method.attrs.as_slice())?;
    Some(part.code.len())
}
