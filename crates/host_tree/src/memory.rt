//! A host in memory, for tests.
ghost use Rattle.std.specs.Prelude.{◌≡◌, ℕ, ◌+◌, ◌-◌, ◌^◌, ◌∷◌, ◌++◌, ◌⊎◌, List, [], true, false, None, Some, take, min, IsSome, IfOk, IsOk, OnOk, OnErr, IsErrOf};
ghost use Rattle.std.specs.Option.{option_copied};
ghost use Rattle.host_tree.specs.declared.call.HostCall.{HostCall};
ghost use Rattle.host_tree.specs.Host.{SameFiles, SameElsewhere, IsListing, IsReadOf, IsPrefixPrinted};
ghost use Rattle.host_tree.specs.Counts.{last_count, Rose, CountsOnly};
ghost use Rattle.host_tree.specs.Memory.{stored, printed_by, explained_by, shown_by, faults_of, is_refused, next_call_of, refused_calls, SameButFiles};

use crate::call::{HostCall, HostFail};
use crate::faults::Faults;
use crate::file_name::FileNameList;
use crate::host::Host;
use crate::progress::Progress;
use crate::tree::FileTree;
use class_model::{ByteList, ListOf, NoMemory};
use std::alloc::Global;

/// Numbers of calls, counted from 0.
pub type CallNumberList = ListOf<u64>;

/// A host in memory, which tells everything. Its calls are numbered from 0 by a number that stands
/// still at `u64::MAX`. A call whose number is among those to refuse is refused with `Failed`, and
/// changes nothing but the count of its kind; a read of a name that is not there is `Absent` always. Explanations and progress are
/// kept, and are no numbered calls.
#[derive(Drop)]
pub struct MemoryHost {
    tree: FileTree,
    printed: Vec<u8>,
    explained: Vec<u8>,
    shown: Vec<Progress>,
    fail: CallNumberList,
    next_call: u64,
    faults: Faults,
}

impl MemoryHost {
    /// A host with no files, of which nothing was printed, and the numbers of the calls to refuse.
    pub fn new(alloc: Global, fail: CallNumberList) -> Result<MemoryHost, NoMemory>
        ensures ok { IsOk result }
        ensures files { IfOk result (λ host. (root name : List ℕ) → stored host root name ≡ None) }
        ensures printed { IfOk result (λ host. printed_by host ≡ []) }
        ensures explained { IfOk result (λ host. explained_by host ≡ []) }
        ensures shown { IfOk result (λ host. shown_by host ≡ []) }
        ensures counts { IfOk result (λ host. (of : HostCall) → faults_of host of ≡ 0) }
        ensures calls { IfOk result
            (λ host. (next_call_of host ≡ 0) × (refused_calls host ≡ fail)) }
    {
        Ok(MemoryHost {
            tree: FileTree::new(alloc),
            printed: Vec::new(alloc),
            explained: Vec::new(alloc),
            shown: Vec::new(alloc),
            fail,
            next_call: 0,
            faults: Faults::none(),
        })
    }

    /// Puts a file under a name, in the place of one that is there. It is no numbered call.
    pub fn put(
        &mut self,
        alloc: Global,
        root: &str,
        name: &str,
        bytes: &[u8],
    ) -> Result<(), NoMemory>
        ensures ok { OnOk result (stored self.new root.now name.now ≡ Some bytes.now) }
        ensures elsewhere { SameElsewhere root.now name.now (stored self.old) (stored self.new) }
        ensures err { OnErr result (SameFiles (stored self.old) (stored self.new)) }
        ensures rest { SameButFiles self.old self.new }
    {
        self.tree.put(alloc, root, name, bytes)
    }

    /// The bytes of a file.
    pub fn file(&self, root: &str, name: &str) -> Option<&[u8]>
        ensures { option_copied result ≡ stored self.now root.now name.now }
    {
        self.tree.get(root, name)
    }

    /// The bytes printed so far.
    pub fn printed(&self) -> &[u8]
        ensures { result.now ≡ printed_by self.now }
    {
        self.printed.as_slice()
    }

    /// The explanations so far, one behind the other.
    pub fn explained(&self) -> &[u8]
        ensures { result.now ≡ explained_by self.now }
    {
        self.explained.as_slice()
    }

    /// The progress that was shown so far, in order.
    pub fn shown(&self) -> &[Progress]
        ensures { result.now ≡ shown_by self.now }
    {
        self.shown.as_slice()
    }

    /// How often calls of one kind have failed.
    pub fn faults(&self, of: HostCall) -> u64
        ensures { result ≡ faults_of self.now of }
    {
        self.faults.of(of)
    }

    /// Numbers a call, and says whether it is to be refused.
    fn number_call(&mut self) -> bool
        ensures refused { result ≡ is_refused self.old }
        ensures numbered { self.new
            ≡ record self.old { next_call = min (self.old.next_call + 1) last_count } }
    {
        let call = self.next_call;
        self.next_call = call.saturating_add(1);
        self.fail.as_slice().iter().any(|number| *number == call)
    }
}

/// The first `most` bytes, or all of them where they are fewer.
fn first_bytes(alloc: Global, bytes: &[u8], most: u64) -> Result<ByteList, NoMemory>
    ensures { IfOk result (λ first. first ≡ take most bytes.now) }
{
    let count = most.min(bytes.len() as u64) as usize;
    Ok(ByteList::from_vec(Vec::from_slice(alloc, &bytes[..count])?))
}

impl Host for MemoryHost {
    ghost tells = { true };

    ghost file = { stored };

    ghost printed = { printed_by };

    ghost faults = { faults_of };

    fn list(&mut self, alloc: Global, root: &str, most: u64) -> Result<FileNameList, HostFail>
        ensures names { IfOk result (IsListing (stored self.old root.now) most) }
        ensures files { SameFiles (stored self.old) (stored self.new) }
        ensures printed { printed_by self.new ≡ printed_by self.old }
        ensures counts { CountsOnly HostCall.List (faults_of self.old) (faults_of self.new) }
        ensures failed { IsErrOf result HostFail.Failed
            → Rose (faults_of self.old HostCall.List) (faults_of self.new HostCall.List) }
        ensures not_absent { ¬ IsErrOf result HostFail.Absent }
        ensures refused { is_refused self.old ≡ true → IsErrOf result HostFail.Failed }
        ensures others { is_refused self.old ≡ false → ¬ IsErrOf result HostFail.Failed }
        ensures numbered { next_call_of self.new ≡ min (next_call_of self.old + 1) last_count }
        ensures kept { refused_calls self.new ≡ refused_calls self.old }
        ensures counted { is_refused self.old ≡ false
            → (of : HostCall)
            → faults_of self.new of ≡ faults_of self.old of }
    {
        if self.number_call() {
            self.faults.raise(HostCall::List);
            return Err(HostFail::Failed);
        }
        Ok(self.tree.list(alloc, root, most)?)
    }

    fn read(
        &mut self,
        alloc: Global,
        root: &str,
        name: &str,
        most: u64,
    ) -> Result<ByteList, HostFail>
        ensures bytes { IfOk result (IsReadOf (stored self.old root.now name.now) most) }
        ensures files { SameFiles (stored self.old) (stored self.new) }
        ensures printed { printed_by self.new ≡ printed_by self.old }
        ensures counts { CountsOnly HostCall.Read (faults_of self.old) (faults_of self.new) }
        ensures failed { IsErrOf result HostFail.Failed
            → Rose (faults_of self.old HostCall.Read) (faults_of self.new HostCall.Read) }
        ensures none_there { stored self.old root.now name.now ≡ None
            → (faults_of self.new HostCall.Read ≡ faults_of self.old HostCall.Read)
            × (IsErrOf result HostFail.Absent ⊎ IsErrOf result HostFail.NoMemory) }
        ensures absent { IsErrOf result HostFail.Absent → stored self.old root.now name.now ≡ None }
        ensures missing { stored self.old root.now name.now ≡ None
            → IsErrOf result HostFail.Absent }
        ensures refused { IsSome (stored self.old root.now name.now)
            → is_refused self.old ≡ true
            → IsErrOf result HostFail.Failed }
        ensures others { is_refused self.old ≡ false → ¬ IsErrOf result HostFail.Failed }
        ensures numbered { next_call_of self.new ≡ min (next_call_of self.old + 1) last_count }
        ensures kept { refused_calls self.new ≡ refused_calls self.old }
        ensures counted { is_refused self.old ≡ false
            → (of : HostCall)
            → faults_of self.new of ≡ faults_of self.old of }
    {
        let refused = self.number_call();
        let Some(bytes) = self.tree.get(root, name) else {
            return Err(HostFail::Absent);
        };
        if refused {
            self.faults.raise(HostCall::Read);
            return Err(HostFail::Failed);
        }
        Ok(first_bytes(alloc, bytes, most)?)
    }

    fn write(&mut self, alloc: Global, root: &str, name: &str, bytes: &[u8]) -> Result<(), HostFail>
        ensures written { OnOk result (stored self.new root.now name.now ≡ Some bytes.now) }
        ensures elsewhere { SameElsewhere root.now name.now (stored self.old) (stored self.new) }
        ensures printed { printed_by self.new ≡ printed_by self.old }
        ensures counts { CountsOnly HostCall.Write (faults_of self.old) (faults_of self.new) }
        ensures failed { IsErrOf result HostFail.Failed
            → Rose (faults_of self.old HostCall.Write) (faults_of self.new HostCall.Write) }
        ensures not_absent { ¬ IsErrOf result HostFail.Absent }
        ensures refused { is_refused self.old ≡ true → IsErrOf result HostFail.Failed }
        ensures others { is_refused self.old ≡ false → ¬ IsErrOf result HostFail.Failed }
        ensures numbered { next_call_of self.new ≡ min (next_call_of self.old + 1) last_count }
        ensures kept { refused_calls self.new ≡ refused_calls self.old }
        ensures counted { is_refused self.old ≡ false
            → (of : HostCall)
            → faults_of self.new of ≡ faults_of self.old of }
        ensures untouched { is_refused self.old ≡ true
            → SameFiles (stored self.old) (stored self.new) }
    {
        if self.number_call() {
            self.faults.raise(HostCall::Write);
            return Err(HostFail::Failed);
        }
        self.tree.put(alloc, root, name, bytes)?;
        Ok(())
    }

    fn print(&mut self, _alloc: Global, bytes: &[u8]) -> Result<(), HostFail>
        ensures all { OnOk result (printed_by self.new ≡ printed_by self.old ++ bytes.now) }
        ensures prefix { IsPrefixPrinted bytes.now (printed_by self.old) (printed_by self.new) }
        ensures files { SameFiles (stored self.old) (stored self.new) }
        ensures counts { CountsOnly HostCall.Print (faults_of self.old) (faults_of self.new) }
        ensures failed { IsErrOf result HostFail.Failed
            → Rose (faults_of self.old HostCall.Print) (faults_of self.new HostCall.Print) }
        ensures not_absent { ¬ IsErrOf result HostFail.Absent }
        ensures refused { is_refused self.old ≡ true → IsErrOf result HostFail.Failed }
        ensures others { is_refused self.old ≡ false → ¬ IsErrOf result HostFail.Failed }
        ensures numbered { next_call_of self.new ≡ min (next_call_of self.old + 1) last_count }
        ensures kept { refused_calls self.new ≡ refused_calls self.old }
        ensures counted { is_refused self.old ≡ false
            → (of : HostCall)
            → faults_of self.new of ≡ faults_of self.old of }
        ensures unprinted { is_refused self.old ≡ true → printed_by self.new ≡ printed_by self.old }
    {
        if self.number_call() {
            self.faults.raise(HostCall::Print);
            return Err(HostFail::Failed);
        }
        self.printed.extend_from_slice(bytes)?;
        Ok(())
    }

    fn explain(&mut self, bytes: &[u8])
        ensures files { SameFiles (stored self.old) (stored self.new) }
        ensures printed { printed_by self.new ≡ printed_by self.old }
        ensures counts { (call : HostCall) → faults_of self.new call ≡ faults_of self.old call }
        ensures kept { (explained_by self.new ≡ explained_by self.old ++ bytes.now)
            ⊎ (explained_by self.new ≡ explained_by self.old) }
        ensures not_numbered { (next_call_of self.new ≡ next_call_of self.old)
            × (refused_calls self.new ≡ refused_calls self.old) }
    {
        // An explanation for which there is no memory is lost.
        let _ = self.explained.extend_from_slice(bytes);
    }

    fn show_progress(&mut self, progress: Progress)
        ensures files { SameFiles (stored self.old) (stored self.new) }
        ensures printed { printed_by self.new ≡ printed_by self.old }
        ensures counts { (call : HostCall) → faults_of self.new call ≡ faults_of self.old call }
        ensures kept { (shown_by self.new ≡ shown_by self.old ++ progress ∷ [])
            ⊎ (shown_by self.new ≡ shown_by self.old) }
        ensures not_numbered { (next_call_of self.new ≡ next_call_of self.old)
            × (refused_calls self.new ≡ refused_calls self.old) }
    {
        // Progress for which there is no memory is lost.
        let _ = self.shown.push(progress);
    }
}
