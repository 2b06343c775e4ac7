//! Actions of the library in a typed world.
ghost use Rattle.std.specs.Prelude.{◌≡◌, true};
ghost use Rattle.machine_values.specs.declared.action.Action.{Action};
ghost use Rattle.member_link.specs.Machine.Acting.{act};
ghost use Rattle.member_link.specs.Machine.Programs.{Program};
ghost use Rattle.member_link.specs.Machine.Stepping.{is_library_turn};
ghost use Rattle.member_link.specs.Machine.Worlds.{World};
ghost use Rattle.typed_runs.specs.TypedPrograms.{Typings};
ghost use Rattle.typed_runs.specs.TypedWorlds.{TypedWorld, StaysTyped};

/// An action of the library leaves a typed world that is not stuck, also one that is a fault.
pub fn an_action_stays_typed()
    ensures { (P : Program) (T : Typings) (w : World) (action : Action)
        → TypedWorld P T w
        → is_library_turn w.frames ≡ true
        → StaysTyped P T w (act P action w) }
{}
