//! The world of a run.
ghost use Rattle.std.specs.Prelude.{◌≡◌, IfOk};
ghost use Rattle.member_link.specs.Machine.Worlds.{start};
ghost use Rattle.machine_step.specs.SpentWorlds.{unspent};

use crate::known::KnownRefs;
use crate::memory::Memory;
use class_model::NoMemory;
use class_tree::Tree;
use machine_values::{EventList, RunFrame, RunFrameList};
use std::alloc::Global;
use std::marker::Model;

/// The frames, the memory, the references that the library knows, the events, and how many steps were taken. Contracts see the
/// world of the definitions, which goes on.
#[derive(Drop)]
pub struct WorldState {
    pub frames: RunFrameList,
    pub memory: Memory,
    pub known: KnownRefs,
    pub events: EventList,
    pub steps: u64,
}

impl Model for WorldState {
    ghost use Rattle.member_link.specs.Machine.Worlds.{World, going};

    ghost Value = { World };

    ghost view = { λ state. record {
      frames = state.frames;
      memory = state.memory;
      known = state.known;
      events = state.events;
      steps = state.steps;
      halt = going;
    } };
}

/// The world of a run, and whether memory ran out in one of its steps: then it is spent, and nothing else is said of it. A world
/// that is spent has an empty memory (`Memory::clear`). The type keeps that the monitor counts and the count of entered monitors
/// are at most the number of steps, the count of allocations at most 2^28 times that number, and that there is a place behind
/// the one of each frame below the top one.
#[derive(Drop)]
pub struct World {
    pub state: WorldState,
    pub spent: bool,
}

impl Model for World {
    ghost use Rattle.machine_step.specs.Bounded.{IsBoundedWorld};
    ghost use Rattle.machine_step.specs.SpentWorlds.{SpentWorld};

    ghost Value = { SpentWorld };

    ghost view = { λ world. record { world = world.state; spent = world.spent } };

    ghost invariant = { λ world. IsBoundedWorld world.state };
}

/// What a step comes to.
#[derive(Clone, Copy, PartialEq, Eq, Debug)]
pub enum Outcome {
    /// The run goes on.
    Running,
    /// The library's frame is on top; nothing was done.
    LibraryTurn,
    /// An array has a greater length than this project's profile allows.
    ArrayTooLong,
    /// An exception left a class initialiser.
    InitThrew,
    /// An operand, a local or a receiver is not as the instruction needs it.
    Stuck,
}

/// What an action of the library comes to.
#[derive(Clone, Copy, PartialEq, Eq, Debug)]
pub enum Acted {
    Done,
    /// The run ends by it.
    Stopped,
    /// The exception that it throws leaves a class initialiser.
    InitThrew,
    /// The library may not take it; nothing was done.
    Fault,
    /// The exception that it throws finds neither a handler nor the library: the frames are those of no run.
    Stuck,
}

impl World {
    /// The world in which a run of a tree begins: the library's frame alone.
    ///
    /// # Errors
    ///
    /// `NoMemory` where memory runs out.
    pub fn start(alloc: Global, _tree: &Tree) -> Result<World, NoMemory>
        ensures { IfOk result (λ world. world ≡ unspent start) }
    {
        let mut frames = Vec::new(alloc);
        frames.push(RunFrame::Library { made: None })?;
        let state = WorldState {
            frames: RunFrameList { frames },
            memory: Memory::new(alloc),
            known: KnownRefs::new(alloc),
            events: EventList::new(alloc),
            steps: 0,
        };
        Ok(World {
            state,
            spent: false,
        })
    }
}
