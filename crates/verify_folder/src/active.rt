//! The exception handlers in force along the code of a method (JVM Specification SE 8, 4.10.1.6).
ghost use Rattle.std.specs.Prelude.{◌≡◌, ◌⊎◌, ◌<◌, ◌≤◌, ◌++◌, ◌∷◌, [], length, slice_get, Option, Some, IfOk, IfSome, IfNone, OnOk, IsTrue, IsPermutation};
ghost use Rattle.std.specs.List.Sorted.{IsNonDecreasingBy};
ghost use Rattle.class_model.specs.declared.class_file.Handler.{Handler as entry};
ghost use Rattle.class_model.specs.declared.frame.Frame.{Frame};
ghost use Rattle.member_link.specs.Scope.{Scope};
ghost use Rattle.type_rules.specs.Changes.{AreSameBut};
ghost use Rattle.type_rules.specs.declared.keeping.LocalChanges.TheVariants.{Nowhere, Anywhere};
ghost use Rattle.verify_folder.specs.Inner.Active.{Activates, AreInForce, AreKnown, AreNew, AreReached, HasBegun, HasChanged, HasSkipped, IsCheckedAgain, IsLater, IsOfTarget, IsRestart, NoneBegins, both_changes};

use class_model::{Handler, LocalTypeList, NoMemory};
use std::alloc::Global;
use type_rules::{LocalChanges, MethodRules};

/// The exception handlers of a method that are in force at an instruction. It is fast where instructions come by offset.
#[derive(Drop)]
pub(crate) struct ActiveHandlers {
    // The exception table, ordered by the start of the ranges, and how many of these ranges have begun.
    table: Vec<Handler>,
    begun: usize,
    // The offset, in bytes, and the locals that the active handlers were last checked with.
    at: u32,
    locals: Option<LocalTypeList>,
    /// In which units the locals at hand may differ from these.
    pub(crate) changes: LocalChanges,
    /// Of the handlers whose range has begun, for each target the one whose range ends last. A range that has ended may be
    /// among them.
    pub(crate) active: Vec<Handler>,
    /// For each target, the number that its handler may have among the active ones.
    pub(crate) hints: Vec<usize>,
}

impl ActiveHandlers {
    /// The handlers of a method, before any instruction.
    pub(crate) fn new(alloc: Global, rules: &MethodRules<'_>) -> Result<Self, NoMemory>
        ensures { IfOk result (AreNew rules.now) }
    {
        let handlers = rules.part().handlers.as_slice();
        let table = by_start(alloc, handlers)?;
        let targets = if handlers.is_empty() {
            0
        } else {
            rules.part().code.len()
        };
        Ok(ActiveHandlers {
            table,
            begun: 0,
            at: 0,
            active: Vec::new(alloc),
            hints: vec![in alloc; 0; targets]?,
            locals: None,
            changes: LocalChanges::Anywhere,
        })
    }

    /// Comes to an offset, in bytes. Where that of the last check is behind it, all begins anew.
    pub(crate) fn come_to(&mut self, at: u32)
        ensures later { self.new.at ≤ at }
        ensures kept { (s : Scope) → AreInForce s self.old → AreInForce s self.new }
        ensures known { (flows : Option Frame) → AreKnown self.old flows → AreKnown self.new flows }
    {
        if at < self.at {
            self.restart();
        }
    }

    // Begins anew, before any instruction.
    fn restart(&mut self)
        ensures { IsRestart self.old self.new }
    {
        self.begun = 0;
        self.at = 0;
        self.active.clear();
        self.locals = None;
        self.changes = LocalChanges::Anywhere;
    }

    /// Whether nothing is to be checked at an offset: none begins there or before it, and none is active or the locals at
    /// hand are known to be those that the active ones were last checked with.
    pub(crate) fn is_idle(&self, at: u32) -> bool
        ensures checked { IsTrue result
            → (self.now.active.items ≡ []) ⊎ (self.now.changes ≡ Nowhere) }
        ensures none { IsTrue result → NoneBegins self.now at }
    {
        (self.is_unchanged() || self.active.is_empty()) && self.next(at).is_none()
    }

    // Whether the locals at hand are known to be those of the last check.
    fn is_unchanged(&self) -> bool
        ensures { IsTrue result → self.now.changes ≡ Nowhere }
    {
        matches!(self.changes, LocalChanges::Nowhere)
    }

    /// Other locals are at hand, of which nothing is known.
    pub(crate) fn forget(&mut self)
        ensures { HasChanged self.old Anywhere self.new }
    {
        self.changes = LocalChanges::Anywhere;
    }

    /// The locals at hand are those behind an instruction that changes these units.
    pub(crate) fn note(&mut self, changes: LocalChanges)
        ensures { HasChanged self.old (both_changes self.old.changes changes) self.new }
    {
        self.changes = both_changes(self.changes, changes);
    }

    /// The next handler whose range begins at an offset or before it.
    pub(crate) fn next(&self, at: u32) -> Option<Handler>
        ensures some { IfSome result (λ handler.
            slice_get self.now.table.items self.now.begun ≡ Some handler × handler.start ≤ at) }
        ensures none { IfNone result (NoneBegins self.now at) }
    {
        match self.table.get(self.begun) {
            Some(handler) if u32::from(handler.start) <= at => Some(*handler),
            _ => None,
        }
    }

    /// Whether these locals, those at hand, are the ones that the active handlers were last checked with.
    pub(crate) fn were_checked_with(&self, locals: &LocalTypeList) -> bool
        requires { AreReached self.now.changes self.now.locals locals.now }
        ensures { IsTrue result → self.now.locals ≡ Some locals.now }
    {
        match (self.changes, &self.locals) {
            (LocalChanges::Nowhere, _) => true,
            (LocalChanges::Within { from, end }, Some(last)) => is_same_within(
                last, locals, from, end,
            ),
            (LocalChanges::Anywhere, Some(last)) => is_same(last, locals),
            _ => false,
        }
    }

    /// The active handlers are these. They were checked at an offset with these locals.
    pub(crate) fn set_checked(&mut self, active: Vec<Handler>, locals: LocalTypeList, at: u32)
        ensures { IsCheckedAgain self.old active.items locals at self.new }
    {
        self.active = active;
        self.locals = Some(locals);
        self.at = at;
        self.changes = LocalChanges::Nowhere;
    }

    /// The active handlers were checked at an offset, with the same locals.
    pub(crate) fn set_at(&mut self, at: u32)
        ensures { IsLater self.old at self.new }
    {
        self.at = at;
        self.changes = LocalChanges::Nowhere;
    }

    /// The next handler, whose range has ended already, has begun.
    pub(crate) fn skip_next(&mut self)
        requires { self.old.begun < length self.old.table.items }
        ensures { HasSkipped self.old self.new }
    {
        self.begun += 1;
    }

    /// The next handler, which is this one, becomes active.
    pub(crate) fn begin_next(&mut self, handler: Handler) -> Result<(), NoMemory>
        requires { self.old.begun < length self.old.table.items }
        ensures { OnOk result (HasBegun self.old handler self.new) }
    {
        activate(&mut self.active, &mut self.hints, handler)?;
        self.begun += 1;
        Ok(())
    }
}

// The units that change where these change and then those.
fn both_changes(first: LocalChanges, then: LocalChanges) -> LocalChanges
    ensures { result ≡ both_changes first then }
{
    match (first, then) {
        (LocalChanges::Nowhere, _) => then,
        (_, LocalChanges::Nowhere) => first,
        _ => LocalChanges::Anywhere,
    }
}

// Whether locals that may differ from others only in the units from one number up to before another are the same.
fn is_same_within(last: &LocalTypeList, locals: &LocalTypeList, from: usize, end: usize) -> bool
    ensures { IsTrue result → AreSameBut from end last.now locals.now → last.now ≡ locals.now }
{
    for at in from..end {
        if last.get(at) != locals.get(at) {
            return false;
        }
    }
    true
}

// Whether locals have the same types.
fn is_same(locals: &LocalTypeList, other: &LocalTypeList) -> bool
    ensures { IsTrue result → locals.now ≡ other.now }
{
    locals == other
}

// An exception table, ordered by the start of the ranges.
fn by_start(alloc: Global, handlers: &[Handler]) -> Result<Vec<Handler>, NoMemory>
    ensures same { IfOk result (λ table. IsPermutation handlers.now table.items) }
    ensures sorted { IfOk result (λ table. IsNonDecreasingBy (λ (handler : entry). handler.start) table.items) }
{
    let mut table = Vec::with_capacity(alloc, handlers.len())?;
    table.extend_from_slice(handlers)?;
    table.sort_by_key(|handler| handler.start)?;
    Ok(table)
}

// Adds a handler to the active ones, unless one with its target ends no earlier. One with its target that ends earlier
// is replaced.
fn activate(
    active: &mut Vec<Handler>,
    hints: &mut Vec<usize>,
    handler: Handler,
) -> Result<(), NoMemory>
    ensures { OnOk result (Activates active.old.items handler active.new.items) }
{
    match number_of(active.as_slice(), hints.as_slice(), handler.at) {
        Some(number) => {
            if active[number].end < handler.end {
                active[number] = handler;
            }
            Ok(())
        }
        None => push_active(active, hints, handler),
    }
}

/// Appends a handler to the active ones.
pub(crate) fn push_active(
    active: &mut Vec<Handler>,
    hints: &mut Vec<usize>,
    handler: Handler,
) -> Result<(), NoMemory>
    ensures { OnOk result (active.new.items ≡ active.old.items ++ handler ∷ []) }
{
    if let Some(hint) = hints.get_mut(usize::from(handler.at)) {
        *hint = active.len();
    }
    active.push(handler)?;
    Ok(())
}

// The number of the active handler of a target, if the hints tell it.
fn number_of(active: &[Handler], hints: &[usize], target: u16) -> Option<usize>
    ensures { IfSome result (λ number. IsOfTarget (slice_get active.now number) target) }
{
    let number = *hints.get(usize::from(target))?;
    let handler = active.get(number)?;
    if handler.at == target {
        Some(number)
    } else {
        None
    }
}
