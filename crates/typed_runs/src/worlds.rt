//! Worlds whose values have the types that verification gave.
ghost use Rattle.std.specs.Prelude.{◌≡◌, ◌∷◌, List, slice_get, Option, Some};
ghost use Rattle.class_model.specs.declared.class_file.MethodAt.{MethodAt};
ghost use Rattle.flow_code.specs.FlatCode.{FlatCode};
ghost use Rattle.flow_code.specs.ReadTypes.{read_frame};
ghost use Rattle.flow_code.specs.declared.point.Point.{Point};
ghost use Rattle.machine_values.specs.Frames.{MethodState};
ghost use Rattle.machine_values.specs.declared.frame.RunFrame.{RunFrame};
ghost use Rattle.machine_values.specs.declared.frame.RunFrame.TheVariants.{Method};
ghost use Rattle.member_link.specs.Machine.Programs.{Program};
ghost use Rattle.member_link.specs.Machine.Worlds.{World, start};
ghost use Rattle.typed_runs.specs.FolderTypings.{HasFlatTypings};
ghost use Rattle.typed_runs.specs.TypedFrames.{ConformsTo};
ghost use Rattle.typed_runs.specs.TypedPrograms.{Typings, IsTypedProgram};
ghost use Rattle.typed_runs.specs.TypedWorlds.{TypedWorld};

/// A run of a typed program starts with a typed world.
pub fn a_run_starts_typed()
    ensures { (P : Program) (T : Typings) → IsTypedProgram P T → TypedWorld P T start }
{}

/// Where methods run flat code, the values of a frame that does an instruction of one conform to the types of its typed point, as they are read.
pub fn frames_of_flat_code_conform()
    ensures { (P : Program) (T : Typings) (flats : MethodAt → Option FlatCode) (w : World)
        (f : MethodState) (rest : List RunFrame) (flat : FlatCode) (point : Point)
        → TypedWorld P T w
        → HasFlatTypings flats T
        → w.frames ≡ Method f ∷ rest
        → flats f.at ≡ Some flat
        → slice_get flat.points f.place ≡ Some point
        → ConformsTo P T w.memory.heap (read_frame flat point.typed) f }
{}
