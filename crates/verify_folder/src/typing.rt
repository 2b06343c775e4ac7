//! The frames of a method's instructions, found in one pass by offset (JVM Specification SE 8, 4.10.1.6).
ghost use Rattle.std.specs.Prelude.{◌≡◌, ◌↔◌, ◌≤◌, ◌+◌, [], ◌∷◌, map, slice_get, None, Some, Option, IfOk, IfSome, IfNone, OnOk, IsTrue, IsFalse, if◌then◌else◌};
ghost use Rattle.std.specs.Option.{option_copied};
ghost use Rattle.class_model.specs.Instructions.{targets};
ghost use Rattle.class_model.specs.declared.frame.Frame.{Frame as frame};
ghost use Rattle.class_tree.specs.Names.{throwable};
ghost use Rattle.member_link.specs.Bodies.{falls_through};
ghost use Rattle.member_link.specs.BodyTyping.{MayGoTo};
ghost use Rattle.type_rules.specs.Checks.{handler_checks, target_checks};
ghost use Rattle.type_rules.specs.Handlers.{catches_at};
ghost use Rattle.type_rules.specs.Inner.Handlers.{caught_frame};
ghost use Rattle.type_rules.specs.MethodBodies.{body_of};
ghost use Rattle.type_rules.specs.Rule.{FitsPool};
ghost use Rattle.member_link.specs.Scope.{row_scope};
ghost use Rattle.type_rules.specs.Stated.{stated_at};
ghost use Rattle.verify_folder.specs.Inner.Active.{AreCheckedAt, AreInForce, AreNew, AllMightCatch, AreStill, AreKnown, AreKnownAt, MayCatch, MightCatch, NoneBegins, OneFails, OneStops};
ghost use Rattle.verify_folder.specs.Inner.Passing.{ArePassed, IsPassed, IsTypable};
ghost use Rattle.verify_folder.specs.Inner.Steps.{BeforeAnswers, ChecksAnswer, RowAnswers, StepAnswers, TypingAnswers, WalkAnswers};

use crate::active::{ActiveHandlers, push_active};
use crate::flow::falls_through;
use crate::handlers::{caught_frame, check_catch_types, covers};
use crate::stop::Stop;
use class_model::{Frame, Handler, Instr, NoMemory, Pair, Placed, Text};
use class_tree::THROWABLE;
use std::alloc::Global;
use std::marker::Model;
use type_rules::{
    LocalChanges, MethodRules, RuleFault, Ruled, TypeRule, TypedMethod,
    are_changed_locals_assignable, frame_assignable, local_changes,
};

/// Finds the frames that type a method.
pub(crate) fn type_method(alloc: Global, rules: &MethodRules<'_>) -> Result<TypedMethod, Stop>
    ensures { TypingAnswers rules.now result }
{
    check_catch_types(rules)?;
    let all = throwable_name(alloc)?;
    let typing = Typing {
        alloc,
        rules,
        all: &all,
    };
    let mut active = ActiveHandlers::new(alloc, rules)?;
    typing.walk(&mut active)
}

/// Finds frames that type a method, and keeps none of them.
///
/// # Errors
/// Where none type it, or memory runs out. `type_method` tells the first failure.
pub(crate) fn pass_method(alloc: Global, method: &MethodRules<'_>) -> Result<(), Stop>
    ensures { OnOk result (IsTypable method.now) }
{
    check_catch_types(method)?;
    let all = throwable_name(alloc)?;
    let typing = Typing {
        alloc,
        rules: method,
        all: &all,
    };
    let mut active = ActiveHandlers::new(alloc, method)?;
    typing.pass_all(&mut active)?;
    Ok(())
}

/// What flows into the instruction of a method at an offset, in bytes, where each before it is typed.
pub(crate) fn flows_before(
    alloc: Global,
    rules: &MethodRules<'_>,
    offset: u32,
) -> Result<Option<Frame>, Stop> {
    let all = throwable_name(alloc)?;
    let typing = Typing {
        alloc,
        rules,
        all: &all,
    };
    let mut active = ActiveHandlers::new(alloc, rules)?;
    typing.flows_before(&mut active, offset)
}

// The name of all throwables.
fn throwable_name(alloc: Global) -> Result<Text, NoMemory>
    ensures { IfOk result (λ name. name ≡ throwable) }
{
    Text::of_plain(alloc, THROWABLE)
}

/// A method that is typed, and the name of all throwables. Contracts see the method.
#[derive(Drop)]
struct Typing<'a> {
    alloc: Global,
    rules: &'a MethodRules<'a>,
    all: &'a Text,
}

impl<'a> Model for Typing<'a> {
    ghost use Rattle.std.specs.Prelude.{◌≡◌};
    ghost use Rattle.class_tree.specs.Names.{throwable};
    ghost use Rattle.member_link.specs.Scope.{Scope};

    ghost Value = { Scope };

    ghost view = { λ typing. typing.rules.now };

    ghost invariant = { λ typing. typing.all.now ≡ throwable };
}

impl Typing<'_> {
    // The frames of all instructions.
    fn walk(&self, active: &mut ActiveHandlers) -> Result<TypedMethod, Stop>
        requires { AreNew self.now active.old }
        ensures { WalkAnswers self.now result }
    {
        let rules = self.rules;
        let mut frames = TypedMethod::new(self.alloc);
        let mut flows = Some(rules.entry().copy(self.alloc)?);
        for placed in rules.instructions().as_slice() {
            let (before, next) = self.step(active, flows, placed)?;
            frames.push(before)?;
            flows = next;
        }
        match flows {
            Some(_) => Err(fails(rules.code_len(), TypeRule::FallsOff)),
            None => Ok(frames),
        }
    }

    // Finds frames of all instructions, and keeps none of them.
    fn pass_all(&self, active: &mut ActiveHandlers) -> Result<(), Stop>
        requires { AreNew self.now active.old }
        ensures { OnOk result (ArePassed self.now) }
    {
        let rules = self.rules;
        let mut flows = Some(rules.entry().copy(self.alloc)?);
        for placed in rules.instructions().as_slice() {
            flows = self.pass(active, flows, placed)?;
        }
        let None = flows else {
            return Err(fails(rules.code_len(), TypeRule::FallsOff));
        };
        Ok(())
    }

    // What flows into the instruction at an offset.
    fn flows_before(&self, active: &mut ActiveHandlers, offset: u32) -> Result<Option<Frame>, Stop>
        requires { AreNew self.now active.old }
    {
        let rules = self.rules;
        let mut flows = Some(rules.entry().copy(self.alloc)?);
        for placed in rules.instructions().as_slice() {
            if placed.at >= offset {
                break;
            }
            let (_, next) = self.step(active, flows, placed)?;
            flows = next;
        }
        Ok(flows)
    }

    // The frame of an instruction behind what flows into it, and what flows into the next.
    fn step(
        &self,
        active: &mut ActiveHandlers,
        flows: Option<Frame>,
        placed: &Placed,
    ) -> Result<(Frame, Option<Frame>), Stop>
        requires fits { FitsPool self.now placed.now.instr }
        requires in_force { AreInForce self.now active.old }
        requires known { AreKnown active.old flows }
        ensures told { StepAnswers self.now flows placed.now result }
        ensures in_force { OnOk result (AreInForce self.now active.new) }
        ensures known { IfOk result (λ typed. AreKnown active.new typed.1) }
    {
        self.meet(active, placed.at);
        let before = self.before(flows, placed.at)?;
        self.check_handlers(active, placed.at, &before)?;
        let ruled = self.rule(placed, &before)?;
        self.check_targets(placed, ruled.next.as_ref())?;
        active.note(local_changes(&placed.instr));
        Ok((before, flows_on(placed, ruled.next)))
    }

    // Comes to an offset. Where a frame is stated there, nothing is known of its locals.
    fn meet(&self, active: &mut ActiveHandlers, at: u32)
        ensures kept { AreInForce self.now active.old → AreInForce self.now active.new }
        ensures known { (flows : Option frame)
            → AreKnown active.old flows → AreKnownAt self.now active.new flows at }
    {
        if self.rules.stated_at(at).is_some() {
            active.forget();
        }
    }

    // What flows into the next instruction behind what flows into this one, whose frame is not kept.
    fn pass(
        &self,
        active: &mut ActiveHandlers,
        flows: Option<Frame>,
        placed: &Placed,
    ) -> Result<Option<Frame>, Stop>
        requires fits { FitsPool self.now placed.now.instr }
        requires in_force { AreInForce self.now active.old }
        requires known { AreKnown active.old flows }
        ensures told { IfOk result (IsPassed self.now flows placed.now) }
        ensures in_force { OnOk result (AreInForce self.now active.new) }
        ensures known { IfOk result (AreKnown active.new) }
    {
        active.come_to(placed.at);
        if self.hands_on(active, flows.as_ref(), placed) {
            return Ok(flows);
        }
        let (_, next) = self.step(active, flows, placed)?;
        Ok(next)
    }

    // Whether an instruction is known to be typed by what flows into it, and to hand it on: a `nop` where no handler is to be
    // checked and no frame is stated.
    fn hands_on(&self, active: &ActiveHandlers, flows: Option<&Frame>, placed: &Placed) -> bool
        requires in_force { AreInForce self.now active.now }
        requires later { active.now.at ≤ placed.now.at }
        requires known { AreKnown active.now (option_copied flows) }
        ensures { IsTrue result → IsPassed self.now
            (option_copied flows.entry) placed.now (option_copied flows.entry) }
    {
        match (&placed.instr, flows) {
            (Instr::Nop, Some(frame)) => {
                if !active.is_idle(placed.at) {
                    return false;
                }
                match self.rules.stated_at(placed.at) {
                    Some(_) => false,
                    None => self.rules.keeps(placed, frame),
                }
            }
            _ => false,
        }
    }

    // The frame before an instruction at an offset.
    fn before(&self, flows: Option<Frame>, at: u32) -> Result<Frame, Stop>
        ensures { BeforeAnswers self.now flows at result }
    {
        match (self.rules.stated_at(at), flows) {
            (Some(stated), Some(flows)) if !frame_assignable(self.rules.tree(), &flows, stated) =>
                Err(fails(at, TypeRule::Mismatch)),
            (Some(stated), _) => Ok(stated.copy(self.alloc)?),
            (None, Some(flows)) => Ok(flows),
            (None, None) => Err(fails(at, TypeRule::NoFrame)),
        }
    }

    // Asks that the handlers whose range has an offset may begin with these locals.
    fn check_handlers(
        &self,
        active: &mut ActiveHandlers,
        at: u32,
        before: &Frame,
    ) -> Result<(), Stop>
        requires in_force { AreInForce self.now active.old }
        requires known { AreKnown active.old (Some before.now) }
        ensures told { ChecksAnswer at
            (handler_checks (body_of self.now) before.now
            (catches_at self.now at self.now.part.handlers)) result }
        ensures in_force { OnOk result (AreInForce self.now active.new) }
        ensures known { OnOk result (AreKnown active.new (Some before.now)) }
    {
        active.come_to(at);
        if active.is_idle(at) {
            return Ok(());
        }
        if self.recheck(active, at, before)? && self.begin(active, at, before)? {
            return Ok(());
        }
        match self.check_table(at, before) {
            Err(stop) => Err(stop),
            Ok(()) => unreachable!(),
        }
    }

    // Whether the active handlers may begin with these locals. Those whose range has ended at the offset are dropped. The
    // others are asked again only where the locals are not those that they were asked about last.
    fn recheck(
        &self,
        active: &mut ActiveHandlers,
        at: u32,
        before: &Frame,
    ) -> Result<bool, NoMemory>
        requires in_force { AreInForce self.now active.old }
        requires later { active.old.at ≤ at }
        requires known { AreKnown active.old (Some before.now) }
        ensures all { IfOk result (λ may.
            IsTrue may → AreCheckedAt self.now before.now.locals at active.new) }
        ensures one { IfOk result (λ may. IsFalse may → OneFails self.now before.now.locals at) }
    {
        if active.were_checked_with(&before.locals) {
            active.set_at(at);
            return Ok(true);
        }
        let changes = active.changes;
        let still = self.still_active(
            active.active.as_slice(),
            &mut active.hints,
            at,
            before,
            changes,
        )?;
        let Some(still) = still else {
            return Ok(false);
        };
        active.set_checked(still, before.locals.copy(self.alloc)?, at);
        Ok(true)
    }

    // The active handlers whose range goes on at an offset, if all of them may begin with these locals. They might before
    // the locals changed in some units.
    fn still_active(
        &self,
        active: &[Handler],
        hints: &mut Vec<usize>,
        at: u32,
        before: &Frame,
        changes: LocalChanges,
    ) -> Result<Option<Vec<Handler>>, NoMemory>
        requires { AllMightCatch self.now changes before.now.locals at active.now }
        ensures all { IfOk result (λ found. IfSome found (λ still.
            AreStill self.now before.now.locals at active.now still.items)) }
        ensures one { IfOk result (λ found. IfNone found
            (OneStops self.now before.now.locals at active.now)) }
    {
        let mut still = Vec::new(self.alloc);
        for handler in active {
            if at < u32::from(handler.end) {
                if !self.may_still_catch(before, handler, changes)? {
                    return Ok(None);
                }
                push_active(&mut still, hints, *handler)?;
            }
        }
        Ok(Some(still))
    }

    // Whether a handler may begin with these locals, if it might before they changed in some units.
    fn may_still_catch(
        &self,
        before: &Frame,
        handler: &Handler,
        changes: LocalChanges,
    ) -> Result<bool, NoMemory>
        requires { MightCatch self.now changes before.now.locals handler.now }
        ensures { IfOk result (λ may.
            IsTrue may ↔ MayCatch self.now before.now.locals handler.now) }
    {
        if self.accepts_changes(before, handler, changes) {
            return Ok(true);
        }
        self.may_catch(before, handler)
    }

    // Whether a handler is known to begin with these locals, by the units alone that changed.
    fn accepts_changes(&self, before: &Frame, handler: &Handler, changes: LocalChanges) -> bool
        ensures { IsTrue result
            → MightCatch self.now changes before.now.locals handler.now
            → MayCatch self.now before.now.locals handler.now }
    {
        let stated = self.rules.stated_at(u32::from(handler.at));
        match (changes, stated) {
            (LocalChanges::Within { from, end }, Some(stated)) => are_changed_locals_assignable(
                self.rules.tree(),
                &before.locals,
                stated,
                from,
                end,
            ),
            _ => false,
        }
    }

    // Whether the handlers whose range begins up to an offset may begin with these locals. They become active.
    fn begin(&self, active: &mut ActiveHandlers, at: u32, before: &Frame) -> Result<bool, NoMemory>
        requires { AreCheckedAt self.now before.now.locals at active.old }
        ensures all { IfOk result (λ may.
            IsTrue may → AreCheckedAt self.now before.now.locals at active.new) }
        ensures none { IfOk result (λ may. IsTrue may → NoneBegins active.new at) }
        ensures one { IfOk result (λ may. IsFalse may → OneFails self.now before.now.locals at) }
    {
        while let Some(handler) = active.next(at) {
            if !self.begin_next(active, at, before, handler)? {
                return Ok(false);
            }
        }
        Ok(true)
    }

    // Whether the next handler, which is this one, may begin with these locals. It becomes active, unless its range has ended.
    fn begin_next(
        &self,
        active: &mut ActiveHandlers,
        at: u32,
        before: &Frame,
        handler: Handler,
    ) -> Result<bool, NoMemory>
        requires checked { AreCheckedAt self.now before.now.locals at active.old }
        requires next { slice_get active.old.table.items active.old.begun ≡ Some handler }
        requires from { handler.start ≤ at }
        ensures all { IfOk result (λ may.
            IsTrue may → AreCheckedAt self.now before.now.locals at active.new) }
        ensures table { IfOk result (λ may.
            IsTrue may → active.new.table.items ≡ active.old.table.items) }
        ensures begun { IfOk result (λ may. IsTrue may → active.new.begun ≡ active.old.begun + 1) }
        ensures one { IfOk result (λ may. IsFalse may → OneFails self.now before.now.locals at) }
    {
        if at >= u32::from(handler.end) {
            active.skip_next();
            return Ok(true);
        }
        if !self.may_catch(before, &handler)? {
            return Ok(false);
        }
        active.begin_next(handler)?;
        Ok(true)
    }

    // Asks, in table order, that the handlers whose range has an offset may begin with these locals.
    fn check_table(&self, at: u32, before: &Frame) -> Result<(), Stop>
        ensures { ChecksAnswer at
            (handler_checks (body_of self.now) before.now
            (catches_at self.now at self.now.part.handlers)) result }
    {
        for handler in self.rules.part().handlers.as_slice() {
            self.check_handler(at, before, handler)?;
        }
        Ok(())
    }

    // Asks the same of a handler.
    fn check_handler(&self, at: u32, before: &Frame, handler: &Handler) -> Result<(), Stop>
        ensures { ChecksAnswer at
            (handler_checks (body_of self.now) before.now
            (catches_at self.now at (handler.now ∷ []))) result }
    {
        if !covers(handler, at) {
            return Ok(());
        }
        if self.may_catch(before, handler)? {
            Ok(())
        } else {
            Err(fails(at, TypeRule::Handler))
        }
    }

    // Whether a handler may begin with these locals.
    fn may_catch(&self, before: &Frame, handler: &Handler) -> Result<bool, NoMemory>
        ensures { IfOk result (λ may.
            IsTrue may
            ↔ MayGoTo (row_scope self.now) (Some (caught_frame self.now before.now handler.now))
            (stated_at self.now handler.now.at)) }
    {
        let caught = caught_frame(self.alloc, self.rules, self.all, before, handler)?;
        Ok(self.may_go_to(Some(&caught), u32::from(handler.at)))
    }

    // Whether control may go to an offset with a frame.
    fn may_go_to(&self, frame: Option<&Frame>, to: u32) -> bool
        ensures { IsTrue result
            ↔ MayGoTo (row_scope self.now) (option_copied frame.entry) (stated_at self.now to) }
    {
        match (frame, self.rules.stated_at(to)) {
            (Some(frame), Some(stated)) => frame_assignable(self.rules.tree(), frame, stated),
            _ => false,
        }
    }

    // The rule of an instruction.
    fn rule(&self, placed: &Placed, before: &Frame) -> Result<Ruled, Stop>
        requires { FitsPool self.now placed.now.instr }
        ensures { RowAnswers self.now placed.now before.now result }
    {
        match self.rules.rule(self.alloc, placed, before) {
            Ok(ruled) => Ok(ruled),
            Err(RuleFault::Fails(rule)) => Err(fails(placed.at, rule)),
            Err(RuleFault::NoMemory) => Err(Stop::NoMemory),
        }
    }

    // Asks that control may go to each target of an instruction with the frame behind it.
    fn check_targets(&self, placed: &Placed, behind: Option<&Frame>) -> Result<(), Stop>
        ensures { ChecksAnswer placed.now.at
            (target_checks (body_of self.now) (option_copied behind.entry)
            (targets placed.now.instr)) result }
    {
        let at = placed.at;
        match &placed.instr {
            Instr::If(_, to)
            | Instr::If2(_, to)
            | Instr::IfSame(_, to)
            | Instr::IfNull(_, to)
            | Instr::Goto(to) => self.check_target(at, behind, *to),
            Instr::Table { other, targets, .. } => {
                self.check_target(at, behind, *other)?;
                self.check_each(at, behind, targets.as_slice())
            }
            Instr::Lookup { other, pairs } => {
                self.check_target(at, behind, *other)?;
                self.check_pairs(at, behind, pairs.as_slice())
            }
            _ => Ok(()),
        }
    }

    // Asks that control may go to an offset.
    fn check_target(&self, at: u32, behind: Option<&Frame>, to: u32) -> Result<(), Stop>
        ensures { ChecksAnswer at
            (target_checks (body_of self.now) (option_copied behind.entry) (to ∷ [])) result }
    {
        if self.may_go_to(behind, to) {
            Ok(())
        } else {
            Err(fails(at, TypeRule::Target))
        }
    }

    // Asks the same of each of these offsets.
    fn check_each(&self, at: u32, behind: Option<&Frame>, targets: &[u32]) -> Result<(), Stop>
        ensures { ChecksAnswer at
            (target_checks (body_of self.now) (option_copied behind.entry) targets.now) result }
    {
        for to in targets {
            self.check_target(at, behind, *to)?;
        }
        Ok(())
    }

    // Asks the same of the targets of these pairs.
    fn check_pairs(&self, at: u32, behind: Option<&Frame>, pairs: &[Pair]) -> Result<(), Stop>
        ensures { ChecksAnswer at
            (target_checks (body_of self.now) (option_copied behind.entry)
            (map (λ pair. pair.to) pairs.now)) result }
    {
        for pair in pairs {
            self.check_target(at, behind, pair.to)?;
        }
        Ok(())
    }
}

// What flows into the next instruction of the frame behind one.
fn flows_on(placed: &Placed, behind: Option<Frame>) -> Option<Frame>
    ensures { result ≡ (if falls_through placed.now.instr then behind else None) }
{
    if falls_through(&placed.instr) {
        behind
    } else {
        None
    }
}

// A rule that fails at an offset.
fn fails(offset: u32, rule: TypeRule) -> Stop
    ensures { result ≡ Stop.Fails offset rule }
{
    Stop::Fails { offset, rule }
}
