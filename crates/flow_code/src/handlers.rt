//! The handlers of a point.
ghost use Rattle.std.specs.Prelude.{◌≡◌, ◌==◌, [], ◌∷◌, ◌++◌, length, slice_get, OnOk, OnErr, IfOk};
ghost use Rattle.std.specs.Option.{option_copied};

use class_model::{NoMemory, Text};
use std::alloc::Global;
use std::marker::Model;
use std::rc::Rc;

/// A handler of a point: the point that control goes to, and the class that it catches, by its name. One without a class
/// catches everything.
#[derive(Debug)]
pub struct FlatHandler {
    pub to: usize,
    pub catch_class: Option<Text>,
}

// Written out: a derived drop would be spelled out, field by field, in each function that drops one, and be proved there.
impl Drop for FlatHandler {
    fn drop(self) {
        let FlatHandler {
            to: _,
            catch_class: _,
        } = self;
    }
}

impl FlatHandler {
    /// An equal handler, which shares the bytes of the class's name.
    pub fn copy(&self) -> Result<FlatHandler, NoMemory>
        ensures { IfOk result (λ copy. copy ≡ self.now) }
    {
        let catch_class = match &self.catch_class {
            Some(class) => Some(class.copy()?),
            None => None,
        };
        Ok(FlatHandler {
            to: self.to,
            catch_class,
        })
    }
}

/// The handlers of what a point throws, in their order. Contracts see the list. A copy shares the handlers, since all points
/// of a range have the same.
pub struct FlatHandlerList {
    alloc: Global,
    handlers: Option<Rc<Vec<FlatHandler>>>,
}

// Written out: a derived drop would be spelled out, field by field, in each function that drops one, and be proved there.
impl Drop for FlatHandlerList {
    fn drop(self) {
        let FlatHandlerList {
            alloc: _,
            handlers: _,
        } = self;
    }
}

impl Model for FlatHandlerList {
    ghost use Rattle.std.specs.Prelude.{List};
    ghost use Rattle.flow_code.specs.declared.handlers.FlatHandler.{FlatHandler};
    ghost use Rattle.std.specs.Prelude.{[]};
    ghost use Rattle.std.specs.Option.{option_map_or};

    ghost Value = { List FlatHandler };

    ghost view = { λ list. option_map_or (λ shared. shared.value.items) list.handlers [] };
}

impl FlatHandlerList {
    /// No handler.
    pub fn new(alloc: Global) -> Self
        ensures { result ≡ [] }
    {
        FlatHandlerList {
            alloc,
            handlers: None,
        }
    }

    /// Appends a handler. Where the handlers are shared, they are copied first. Where memory runs out, the list stays as it
    /// was.
    pub fn push(&mut self, handler: FlatHandler) -> Result<(), NoMemory>
        ensures ok { OnOk result (self.new ≡ self.old ++ handler ∷ []) }
        ensures err { OnErr result (self.new ≡ self.old) }
    {
        if let Some(handlers) = &mut self.handlers {
            return push_shared(handlers, self.alloc, handler);
        }
        let mut handlers = Vec::new(self.alloc);
        handlers.push(handler)?;
        self.handlers = Some(Rc::new(self.alloc, handlers)?);
        Ok(())
    }

    /// How many handlers there are.
    pub fn len(&self) -> usize
        ensures { result ≡ length self.now }
    {
        self.as_slice().len()
    }

    /// Whether there is no handler.
    pub fn is_empty(&self) -> bool
        ensures { result ≡ (length self.now == 0) }
    {
        self.as_slice().is_empty()
    }

    /// The handler at an index, counted from 0.
    pub fn get(&self, at: usize) -> Option<&FlatHandler>
        ensures { option_copied result ≡ slice_get self.now at }
    {
        self.as_slice().get(at)
    }

    /// The handlers, in order.
    pub fn as_slice(&self) -> &[FlatHandler]
        ensures { result.now ≡ self.now }
    {
        match &self.handlers {
            Some(handlers) => handlers.as_slice(),
            None => &[],
        }
    }

    /// An equal list, which shares the handlers.
    pub fn copy(&self) -> Result<Self, NoMemory>
        ensures { IfOk result (λ copy. copy ≡ self.now) }
    {
        let handlers = match &self.handlers {
            Some(handlers) => Some(handlers.clone()?),
            None => None,
        };
        Ok(FlatHandlerList {
            alloc: self.alloc,
            handlers,
        })
    }
}

// Appends to handlers, which are copied first where they are shared.
fn push_shared(
    handlers: &mut Rc<Vec<FlatHandler>>,
    alloc: Global,
    handler: FlatHandler,
) -> Result<(), NoMemory>
    ensures ok { OnOk result (handlers.new.value.items ≡ handlers.old.value.items ++ handler ∷ []) }
    ensures err { OnErr result (handlers.new.value.items ≡ handlers.old.value.items) }
{
    if let Some(own) = Rc::get_mut(handlers) {
        own.push(handler)?;
        return Ok(());
    }
    let mut copy = copy_handlers(alloc, handlers.as_slice())?;
    copy.push(handler)?;
    *handlers = Rc::new(alloc, copy)?;
    Ok(())
}

// Equal handlers.
fn copy_handlers(alloc: Global, handlers: &[FlatHandler]) -> Result<Vec<FlatHandler>, NoMemory>
    ensures { IfOk result (λ copy. copy.items ≡ handlers.now) }
{
    let mut copy = Vec::new(alloc);
    for handler in handlers {
        copy.push(handler.copy()?)?;
    }
    Ok(copy)
}
