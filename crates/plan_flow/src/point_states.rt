//! The states of the points that are reached, as far as they are known.
ghost use Rattle.std.specs.Prelude.{◌≡◌, ◌<◌, Some, length};
ghost use Rattle.std.specs.Option.{option_copied};
ghost use Rattle.plan_flow.specs.Inner.Blocks.{put_state};
ghost use Rattle.plan_flow.specs.Inner.Reaching.{reached_in};
ghost use Rattle.virtual_state.specs.States.{State};

use std::marker::Model;
use virtual_state::VState;

/// The state before each point that is reached, as far as it is known.
#[derive(Drop)]
pub(crate) struct PointStates {
    states: Vec<Option<VState>>,
}

impl Model for PointStates {
    ghost use Rattle.std.specs.Prelude.{List, Option};
    ghost use Rattle.virtual_state.specs.States.{State};

    ghost Value = { List (Option State) };

    ghost view = { λ reached. reached.states.items };
}

impl PointStates {
    /// These states.
    pub(crate) fn of(states: Vec<Option<VState>>) -> Self
        ensures { result ≡ states.items }
    {
        PointStates { states }
    }

    /// The state of a point, if it is reached.
    pub(crate) fn get(&self, at: usize) -> Option<&VState>
        ensures { option_copied result ≡ reached_in self.now at }
    {
        self.states.get(at)?.as_ref()
    }

    /// Reaches a point with a state, if there is one.
    pub(crate) fn put(&mut self, at: usize, state: Option<VState>)
        requires { (one : State) → state ≡ Some one → at < length self.old }
        ensures { self.new ≡ put_state self.old at state }
    {
        match state {
            Some(state) => {
                self.states[at] = Some(state);
            }
            None => {}
        }
    }
}
