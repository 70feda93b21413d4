ghost use Rattle.std.specs.Prelude.{◌≡◌, ◌++◌, ◌∷◌, [], codes, IfOk, OnOk};
ghost use Rattle.cic_env.specs.Declarations.{declaration};
ghost use Rattle.cic_env.specs.Items.{item};
ghost use Rattle.cic_env.specs.NewIds.{AreNew};
ghost use Rattle.cic_rules.specs.Environment.{environment_ids, declared_ids};
ghost use Rattle.cic_env.specs.Environments.{items};
ghost use Rattle.cic_terms.specs.Denotes.{tree};
ghost use Rattle.gal_parser.specs.Grammar.{axiom_sentence};
ghost use Rattle.gal_parser.specs.Views.{raw_term, sentence_of, sentences_of};
ghost use Rattle.cic_top.specs.CommandLine.{IsName, source_name};
ghost use Rattle.cic_top.specs.Refusals.{duplicate, not_yet};
ghost use Rattle.gal_elab.specs.Scoping.{Declares, id_of};
ghost use Rattle.cic_top.specs.Views.{refusal_of};
ghost use Rattle.cic_top.specs.calls.Compiling.{StopsFor, TypeOrUnknown, PassesOrRefuses, DeclaresOrRefuses, AddsOrRefuses, RunsOrRefuses, CompilesTo};

use crate::answer::Refusal;
use cic_env::{Decl, Env, PushFault, Verdict};
use cic_io::{FileName, FileNameFault};
use cic_kernel::check_decl;
use cic_names::{GlobalId, Name};
use cic_terms::Term;
use gal_elab::{ElabFault, elab_type, id_of};
use gal_parser::{Command, ParseFault, Raw, parse};
use memory::{NoMemory, OutOfMemory};
use std::alloc::Global;

/// The steps that the check of a declaration may take.
pub(crate) const DEFAULT_BUDGET: u32 = 1_000_000;

/// Why a source gave no environment.
#[derive(Drop)]
pub(crate) enum Stop {
    Refused(Refusal),
    NoMemory,
}

impl<E: OutOfMemory> From<E> for Stop {
    ghost use Rattle.cic_top.specs.declared.compiling.Stop.TheVariants as S;
    ghost use Rattle.std.specs.Prelude.{◌≡◌};

    ghost from_gives = { λ _ stop. stop ≡ S.NoMemory };

    fn from(_fault: E) -> Stop {
        Stop::NoMemory
    }
}

/// The term for which a written type stands, or the refusal of its first unknown name.
fn type_of(alloc: Global, library: &Name, env: &Env, raw: &Raw) -> Result<Term, Stop>
    ensures { TypeOrUnknown library.now (items env.now) (raw_term raw.now) result }
{
    match elab_type(alloc, library, env, raw) {
        Ok(ty) => Ok(ty),
        Err(ElabFault::Unknown { name }) => Err(Stop::Refused(Refusal::Unknown { name })),
        Err(ElabFault::NoMemory) => Err(Stop::NoMemory),
    }
}

/// The same id, which shares its names.
fn shared_id(id: &GlobalId) -> Result<GlobalId, NoMemory>
    ensures { IfOk result (λ r. r ≡ id.now) }
{
    Ok(id.clone()?)
}

/// The refusal of a name that is declared already.
fn duplicate(name: &Name) -> Stop
    ensures { StopsFor result (duplicate name.now) }
{
    match name.clone() {
        Ok(name) => Stop::Refused(Refusal::Duplicate { name }),
        Err(_) => Stop::NoMemory,
    }
}

/// Checks a declaration of the id, within the budget.
fn judge(alloc: Global, env: &mut Env, decl: &Decl, id: GlobalId) -> Result<(), Stop>
    requires { AreNew (environment_ids (items env.old)) (declared_ids (declaration decl.now)) }
    ensures verdict { PassesOrRefuses (items env.old) id (declaration decl.now) result }
    ensures same { items env.new ≡ items env.old }
{
    match check_decl(alloc, env, decl, DEFAULT_BUDGET) {
        Verdict::Done(_found) => Ok(()),
        Verdict::Refused(cause) => Err(Stop::Refused(Refusal::Ill { id, cause })),
        Verdict::Spent => Err(Stop::Refused(Refusal::Spent {
            id,
            budget: DEFAULT_BUDGET,
        })),
        Verdict::Deep => Err(Stop::Refused(Refusal::Deep { id })),
        Verdict::NoMemory => Err(Stop::NoMemory),
    }
}

/// Adds a declaration whose ids are new.
fn add(env: &mut Env, decl: Decl) -> Result<(), NoMemory>
    requires { AreNew (environment_ids (items env.old)) (declared_ids (declaration decl)) }
    ensures { OnOk result (items env.new ≡ items env.old ++ item decl ∷ []) }
{
    match env.push(decl) {
        Ok(()) => Ok(()),
        Err(PushFault::Duplicate(_)) => unreachable!(),
        Err(PushFault::NoMemory(_)) => Err(NoMemory),
    }
}

/// Checks and adds an axiom whose id is new.
fn declare(alloc: Global, env: &mut Env, id: GlobalId, ty: Term) -> Result<(), Stop>
    requires { ¬ Declares (items env.old) id }
    ensures { DeclaresOrRefuses (items env.old) id (tree ty) result (items env.new) }
{
    let decl = Decl::Axiom {
        id: shared_id(&id)?,
        ty,
    };
    judge(alloc, env, &decl, id)?;
    Ok(add(env, decl)?)
}

/// The name and the type of an axiom, which is the one sentence of this language.
fn axiom_parts(command: &Command) -> (&Name, &Raw)
    ensures { sentence_of command.now ≡ axiom_sentence result.0.now (raw_term result.1.now) }
{
    let Command::Axiom { name, ty } = command;
    (name, ty)
}

/// Runs one sentence of the library.
fn run_sentence(alloc: Global, library: &Name, env: &mut Env, command: &Command) -> Result<(), Stop>
    ensures { AddsOrRefuses library.now (items env.old) (sentence_of command.now) result (items env.new) }
{
    let (name, ty) = axiom_parts(command);
    let id = id_of(library, name)?;
    if env.declares(&id) {
        return Err(duplicate(name));
    }
    let ty = type_of(alloc, library, env, ty)?;
    declare(alloc, env, id, ty)
}

/// The name of the source of a library.
pub(crate) fn source_file(alloc: Global, library: &Name) -> Result<FileName, NoMemory>
    ensures { IfOk result (λ name. name ≡ source_name library.now) }
{
    let text = format!(in alloc; "{}.v", library.text())?;
    match FileName::new(alloc, text.as_bytes()) {
        Ok(name) => Ok(name),
        Err(FileNameFault::BadName) => unreachable!(),
        Err(FileNameFault::NoMemory) => Err(NoMemory),
    }
}

/// The refusal of a source that is not understood from a place on.
fn not_yet(alloc: Global, library: &Name, place: u32) -> Result<Refusal, NoMemory>
    ensures { IfOk result (λ refusal. refusal_of refusal ≡ not_yet (source_name library.now) place) }
{
    let name = source_file(alloc, library)?;
    Ok(Refusal::NotYet { name, place })
}

/// Runs the sentences in order.
fn run_sentences(
    alloc: Global,
    library: &Name,
    env: &mut Env,
    commands: &[Command],
) -> Result<(), Stop>
    ensures { RunsOrRefuses library.now (items env.old) (sentences_of commands.now) result (items env.new) }
{
    for command in commands {
        run_sentence(alloc, library, env, command)?;
    }
    Ok(())
}

/// Compiles the source of a library.
pub(crate) fn compile(alloc: Global, library: &Name, source: &[u8]) -> Result<Env, Stop>
    ensures { CompilesTo library.now source.now result }
{
    match parse(alloc, source) {
        Ok(commands) => {
            let mut env = Env::new(alloc);
            run_sentences(alloc, library, &mut env, commands.as_slice())?;
            Ok(env)
        }
        Err(ParseFault::NotYet { place }) => Err(Stop::Refused(not_yet(alloc, library, place)?)),
        Err(ParseFault::NoMemory) => Err(Stop::NoMemory),
    }
}
