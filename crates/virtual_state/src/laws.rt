//! Laws: functions that do nothing, whose contracts say what always holds.
ghost use Rattle.std.specs.Prelude.{◌≡◌, ◌||◌, ◌≤◌, ℕ, Bool, List, length};
ghost use Rattle.virtual_state.specs.Orders.{IsBelow, IsChain, IsJoin};
ghost use Rattle.virtual_state.specs.Sites.{differing, has};
ghost use Rattle.virtual_state.specs.States.{IsState, State};
ghost use Rattle.virtual_state.specs.Without.{IsClosed, without};

/// Being below is a partial order.
pub fn below_is_a_partial_order()
    ensures itself { (state : State) → IsBelow state state }
    ensures both_ways { (one other : State) → IsBelow one other → IsBelow other one → one ≡ other }
    ensures onwards { (one two three : State)
        → IsBelow one two
        → IsBelow two three
        → IsBelow one three }
{}

/// The set of sites by which a state differs from one above it is closed, and taking it away gives the one above, which
/// keeps what states keep.
pub fn differing_sites_are_taken_away()
    ensures closed { (state other : State)
        → IsState state
        → IsBelow state other
        → IsClosed (has (differing state other)) state.objects }
    ensures taken { (state other : State)
        → IsState state
        → IsBelow state other
        → other ≡ without state (has (differing state other)) }
    ensures state { (state other : State) → IsState state → IsBelow state other → IsState other }
    ensures below { (state : State) (away : ℕ → Bool)
        → IsState state
        → IsClosed away state.objects
        → IsBelow state (without state away) }
{}

/// Taking away the sites of two sets is taking away those of one after those of the other.
pub fn sets_are_taken_one_by_one()
    ensures { (state : State) (one other : ℕ → Bool)
        → without (without state one) other ≡ without state (λ site. one site || other site) }
{}

/// A chain of states, each strictly below the next one, is no longer than the first has objects.
pub fn chains_end()
    ensures { (state : State) (states : List State)
        → IsChain state states
        → length states ≤ length state.objects }
{}

/// Two states have at most one join. It commutes, associates, and is monotone, and the join of a state with one above it is
/// that one.
pub fn joins_are_least()
    ensures one { (state other joined also : State)
        → IsJoin state other joined
        → IsJoin state other also
        → joined ≡ also }
    ensures commutes { (state other joined : State)
        → IsJoin state other joined
        → IsJoin other state joined }
    ensures associates { (one two three front back joined : State)
        → IsJoin one two front
        → IsJoin front three joined
        → IsJoin two three back
        → IsJoin one back joined }
    ensures grows { (state other up also joined above : State)
        → IsBelow state up
        → IsBelow other also
        → IsJoin state other joined
        → IsJoin up also above
        → IsBelow joined above }
    ensures below { (state other : State) → IsBelow state other → IsJoin state other other }
{}
