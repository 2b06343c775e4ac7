//! Runs of a folder without classes, whose library need not have what the machine makes.
ghost use Rattle.std.specs.Prelude.{◌≡◌, []};
ghost use Rattle.machine_values.specs.declared.action.Action.{Action};
ghost use Rattle.member_link.specs.Machine.Acting.{act};
ghost use Rattle.member_link.specs.Machine.Programs.{Program};
ghost use Rattle.member_link.specs.Machine.Stepping.{step};
ghost use Rattle.member_link.specs.Machine.Worlds.{World};
ghost use Rattle.never_stuck.specs.PlainFolders.{LibraryAlone};

/// In a program without classes only the library's frame stands, and no run is stuck: a step changes nothing, and an action of the library
/// leaves it so.
pub fn without_classes_the_library_stays_alone()
    ensures steps { (P : Program) (w : World)
        → P.classes ≡ []
        → LibraryAlone w
        → step P w ≡ w }
    ensures actions { (P : Program) (w : World) (action : Action)
        → P.classes ≡ []
        → LibraryAlone w
        → LibraryAlone (act P action w) }
{}
