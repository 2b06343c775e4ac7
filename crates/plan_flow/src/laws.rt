//! Laws of plans: functions that do nothing, whose contracts say what always holds.
ghost use Rattle.std.specs.Prelude.{◌≡◌, ℕ, List, [], IsTrue, Some};
ghost use Rattle.flow_code.specs.FlatCode.{IsFlat};
ghost use Rattle.plan_flow.specs.Effect.{IsEffect};
ghost use Rattle.plan_flow.specs.Must.{IsMust};
ghost use Rattle.plan_flow.specs.Orders.{AreCovered};
ghost use Rattle.plan_flow.specs.PlanScope.{PlanScope};
ghost use Rattle.plan_flow.specs.Plans.{FlowsInside, IsLeast, IsValid, Plan, PlannedPoint, planned, state_left};
ghost use Rattle.plan_flow.specs.declared.edge.Edge.{Edge};
ghost use Rattle.virtual_state.specs.Orders.{IsBelow};
ghost use Rattle.virtual_state.specs.Sites.{has};
ghost use Rattle.virtual_state.specs.States.{IsState, State, is_present};

/// An instruction asks no more in a lower state: what it asks to be made there is made in the higher state, or is asked there
/// too. Each state has one answer.
pub fn must_grows()
    ensures grows { (s : PlanScope) (at : ℕ) (low high : State) (sites also : List ℕ)
        → IsState low
        → IsBelow low high
        → IsMust s at low sites
        → IsMust s at high also
        → (site : ℕ)
        → IsTrue (has sites site)
        → IsTrue (is_present high.objects site)
        → IsTrue (has also site) }
    ensures one { (s : PlanScope) (at : ℕ) (state : State) (sites also : List ℕ)
        → IsMust s at state sites
        → IsMust s at state also
        → sites ≡ also }
{}

/// What an instruction leaves in a lower state is lower: each edge is one of the higher state too, with a state that is above.
/// Each state has one list of edges.
pub fn effect_grows()
    ensures grows { (s : PlanScope) (at : ℕ) (low high : State) (edges also : List Edge)
        → IsBelow low high
        → IsMust s at low []
        → IsMust s at high []
        → IsEffect s at low edges
        → IsEffect s at high also
        → AreCovered edges also }
    ensures one { (s : PlanScope) (at : ℕ) (state : State) (edges also : List Edge)
        → IsEffect s at state edges
        → IsEffect s at state also
        → edges ≡ also }
{}

/// Each flat code that control does not leave has a least plan, and no flat code has two.
pub fn flat_code_has_one_least_plan()
    ensures some { (s : PlanScope)
        → IsFlat s.flat
        → FlowsInside s.flat
        → (plan : Plan) × IsLeast s plan }
    ensures one { (s : PlanScope) (plan also : Plan)
        → IsLeast s plan
        → IsLeast s also
        → plan ≡ also }
{}

/// At a point that the least plan reaches, no valid plan keeps an object virtual that it does not: neither before objects are made
/// there, nor after.
pub fn no_valid_plan_keeps_more()
    ensures before { (s : PlanScope) (least plan : Plan) (at site : ℕ) (point also : PlannedPoint)
        → IsLeast s least
        → IsValid s plan
        → planned least at ≡ Some point
        → planned plan at ≡ Some also
        → IsTrue (is_present also.state.objects site)
        → IsTrue (is_present point.state.objects site) }
    ensures after { (s : PlanScope) (least plan : Plan) (at site : ℕ) (point also : PlannedPoint)
        → IsLeast s least
        → IsValid s plan
        → planned least at ≡ Some point
        → planned plan at ≡ Some also
        → IsTrue (is_present (state_left also).objects site)
        → IsTrue (is_present (state_left point).objects site) }
{}
