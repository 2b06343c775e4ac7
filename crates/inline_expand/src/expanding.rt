//! The flat code of a method with its callees in place of their calls.
ghost use Rattle.std.specs.Prelude.{◌≡◌, ◌↔◌, ◌⊎◌, IfOk, IsTrue};
ghost use Rattle.std.specs.List.{list_any};
ghost use Rattle.expanded_code.specs.ExpandAnswers.{AnswersExpanded};
ghost use Rattle.inline_expand.specs.Inner.Walks.{AreRight};
ghost use Rattle.inline_expand.specs.Inner.WholeCodes.{IsHostFound, asks_float};
ghost use Rattle.member_link.specs.Scope.{is_clinit, is_init};
ghost use Rattle.type_rules.specs.Verified.{TypesFolder};

use crate::candidates::Candidates;
use crate::coded::CodedMethod;
use crate::expanded::flats::{MOST_POINTS, flat_of};
use crate::expansions::expansion_of;
use crate::folder_methods::FolderMethods;
use crate::host::Host;
use crate::known_frames::KnownFrames;
use crate::laws::a_host_has_an_expanded_flat_code;
use crate::typed_methods::each_method_is_typed;
use crate::verdicts::Verdicts;
use class_model::{CLINIT, INIT, Instr, MethodAt, NoMemory, Placed};
use class_tree::{Tree, a_tree_is_a_hierarchy};
use code_bytes::is_text;
use flow_code::{Flat, KeptFault, Reason};
use std::alloc::Global;
use std::marker::Model;
use type_rules::{TypedFolder, a_typed_folder_types_each_method};

/// The flat code of a method, the host: its instructions with those of its callees in place of their calls, and its candidate sites, whose
/// objects may be kept in local variables. The frames type the folder. It is this project's profile.
///
/// It goes over the whole folder: for several methods make an `Expander` once.
///
/// # Errors
/// `Kept`, with the first of these reasons that holds:
/// - `Host`: the method has no code, or is an instance or class initialiser;
/// - `Float`: its own code has arithmetic of float or double;
/// - `Expanded`: its flat code with its callees in place of their calls has more than 8,000 points; it is not made;
/// - `NoSite`: it has no candidate site;
/// - `Wide`: it has more than 256 sites, or 4,096 local units of the sites' fields; or the written code would have more than 65,535
///   local units; or the greatest depth of its typed stacks, in units, plus 70 passes 65,535.
///
/// `NoMemory`, where memory runs out.
pub fn expand(
    alloc: Global,
    tree: &Tree,
    typed: &TypedFolder,
    at: MethodAt,
) -> Result<Flat, KeptFault>
    requires { TypesFolder tree.now typed.now }
    ensures { AnswersExpanded tree.now typed.now at result }
{
    let mut expander = Expander::new(alloc, tree, typed)?;
    expander.expand(alloc, at)
}

/// Makes the flat codes of the methods of a folder. What is found of its classes is kept, and which methods may be callees as long as
/// hosts of one class are asked for. Contracts see the folder and its frames.
pub struct Expander<'t> {
    tree: &'t Tree,
    typed: KnownFrames<'t>,
    candidates: Candidates<'t>,
    methods: FolderMethods<'t>,
    // The number of the class of hosts that the verdicts are of.
    host: usize,
    verdicts: Verdicts,
}

// Written out: a derived drop would be spelled out, field by field, in each function that drops one, and be proved there.
impl Drop for Expander<'_> {
    fn drop(self) {
        let Expander {
            tree: _,
            typed: _,
            candidates: _,
            methods: _,
            host: _,
            verdicts: _,
        } = self;
    }
}

impl<'t> Model for Expander<'t> {
    ghost use Rattle.std.specs.Prelude.{◌≡◌};
    ghost use Rattle.inline_expand.specs.Inner.Walks.{AreRight};
    ghost use Rattle.inline_expand.specs.TypedClasses.{TypedClasses};
    ghost use Rattle.type_rules.specs.Verified.{TypesFolder};

    ghost Value = { TypedClasses };

    ghost view = { λ e. record { classes = e.tree.now; typed = e.typed } };

    ghost invariant = { λ e.
        TypesFolder e.tree.now e.typed
        × (e.candidates ≡ e.tree.now)
        × (e.methods ≡ e.tree.now)
        × AreRight e.tree.now e.typed e.host e.verdicts };
}

impl<'t> Expander<'t> {
    /// That of a folder with the frames that type it.
    ///
    /// # Errors
    /// `NoMemory`, where memory runs out.
    pub fn new(alloc: Global, tree: &'t Tree, typed: &'t TypedFolder) -> Result<Self, NoMemory>
        requires { TypesFolder tree.now typed.now }
        ensures { IfOk result
            (λ expander. expander ≡ record { classes = tree.now; typed = typed.now }) }
    {
        let typed = KnownFrames::new(alloc, tree, typed)?;
        Ok(Expander {
            tree,
            typed,
            candidates: Candidates::new(alloc, tree)?,
            methods: FolderMethods::of(alloc, tree)?,
            host: 0,
            verdicts: Verdicts::new(alloc),
        })
    }

    /// The flat code of a method, as `expand` answers it.
    ///
    /// # Errors
    /// Those of `expand`.
    pub fn expand(&mut self, alloc: Global, at: MethodAt) -> Result<Flat, KeptFault>
        ensures answers { AnswersExpanded self.old.classes self.old.typed at result }
        ensures same { self.new ≡ self.old }
    {
        if self.host != at.class {
            self.verdicts = Verdicts::new(alloc);
            self.host = at.class;
        }
        expand_with(
            alloc,
            &mut self.candidates,
            &mut self.verdicts,
            &self.methods,
            self.tree,
            &self.typed,
            at,
        )
    }
}

// The flat code of a method, by what is found of classes and methods of the folder.
fn expand_with<'t>(
    alloc: Global,
    candidates: &mut Candidates<'_>,
    verdicts: &mut Verdicts,
    methods: &'t FolderMethods<'t>,
    tree: &'t Tree,
    typed: &'t KnownFrames<'t>,
    at: MethodAt,
) -> Result<Flat, KeptFault>
    requires typed { TypesFolder tree.now typed.now }
    requires classes { candidates.old ≡ tree.now }
    requires methods { methods.now ≡ tree.now }
    requires right { AreRight tree.now typed.now at.class verdicts.old }
    ensures answers { AnswersExpanded tree.now typed.now at result }
    ensures classes { candidates.new ≡ candidates.old }
    ensures right { AreRight tree.now typed.now at.class verdicts.new }
{
    a_tree_is_a_hierarchy(tree);
    a_host_has_an_expanded_flat_code();
    each_method_is_typed(tree, typed);
    let host = open_host(alloc, tree, typed, at)?;
    let most = usize::from(MOST_POINTS);
    let found = expansion_of(
        alloc, candidates, verdicts, methods, tree, typed, host, most,
    )?;
    let Some(bodies) = found else {
        return Err(KeptFault::Kept(Reason::Expanded));
    };
    let flat = flat_of(alloc, candidates, tree, &bodies);
    // let go by a call, so that its drop is proved once
    drop(bodies);
    flat
}

// The method of these numbers, if it is a host without arithmetic of float or double in its own code.
fn open_host<'t>(
    alloc: Global,
    tree: &'t Tree,
    typed: &'t KnownFrames<'t>,
    at: MethodAt,
) -> Result<CodedMethod<'t>, KeptFault>
    requires { TypesFolder tree.now typed.now }
    ensures { IsHostFound tree.now typed.now at result }
{
    a_typed_folder_types_each_method();
    let Some(method) = CodedMethod::at(alloc, tree, typed, at)? else {
        return Err(KeptFault::Kept(Reason::Host));
    };
    if is_initialiser(&method.host) {
        return Err(KeptFault::Kept(Reason::Host));
    }
    if has_float(method.host.instrs()) {
        return Err(KeptFault::Kept(Reason::Float));
    }
    Ok(method)
}

// Whether a method is an instance or class initialiser.
fn is_initialiser(method: &Host<'_>) -> bool
    ensures { IsTrue result ↔ (IsTrue (is_init method.now) ⊎ IsTrue (is_clinit method.now)) }
{
    let name = method.method().name;
    is_text(method.pool(), INIT, name) || is_text(method.pool(), CLINIT, name)
}

// Whether one of some instructions is arithmetic of float or double.
fn has_float(instrs: &[Placed]) -> bool
    ensures { result ≡ list_any (λ placed. asks_float placed.instr) instrs.now }
{
    instrs.iter().any(|placed| asks_float(&placed.instr))
}

// Whether an instruction is arithmetic of float or double.
fn asks_float(instr: &Instr) -> bool
    ensures { result ≡ asks_float instr.now }
{
    matches!(instr, Instr::FloatAsk(_))
}
