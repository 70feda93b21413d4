ghost use Rattle.std.specs.Prelude.{◌≡◌, ◌⊎◌, ℕ, Some, IfOk, string_bytes, Option, List};
ghost use Rattle.cic_io.specs.Files.{Files, Rose, file_at};
ghost use Rattle.cic_io.specs.Faults.{FailedRose, OthersQuiet};
ghost use Rattle.cic_env.specs.Environments.{items};
ghost use Rattle.cic_rules.specs.Environment.{Environment};
ghost use Rattle.cic_top.specs.CommandLine.{source_name, FirstNotUnderstood};
ghost use Rattle.cic_top.specs.Refusals.{Refusal as Reason, passed, not_understood, refused, read_fault, sink_fault, no_memory};
ghost use Rattle.cic_top.specs.Texts.{IsAxiomList, IsRefusalLine};
ghost use Rattle.cic_top.specs.calls.Lines.{HasLine, HasAxiomLines};
ghost use Rattle.cic_top.specs.calls.Sources.{DescribesContent};
ghost use Rattle.cic_top.specs.Command.{Refuses, Accepts, IsAccepted};
ghost use Rattle.cic_top.specs.calls.Replying.{RepliesTo, RepliesRefusal, RepliesList, RepliesWord};
ghost use Rattle.cic_top.specs.Runs.{Says, UnlessFault, IsOrFault, SaysAndSends, SaysAndSendsPart, AnswersAsStatedUnlessFaults};
ghost use Rattle.cic_top.specs.Formed.{AcceptsFormed};
ghost use Rattle.cic_top.specs.Views.{answer_of, refusal_of};

use crate::answer::{Answer, Refusal};
use crate::command_line::{Misread, Words, command};
use crate::compiling::{Stop, compile, source_file};
use crate::printing::{axiom_list, refusal_line, word_line};
use crate::source::{LONGEST_SOURCE, Source, source_in};
use cic_env::Env;
use cic_io::{FileName, Folder, FolderFault, Sink, SinkFault};
use cic_names::Name;
use memory::NoMemory;
use std::alloc::Global;

/// What a command says: its answer, and what it prints.
#[derive(Drop)]
struct Reply {
    answer: Answer,
    output: String,
}

/// The reply that refuses.
fn refusing(alloc: Global, refusal: Refusal) -> Result<Reply, NoMemory>
    requires { HasLine (refusal_of refusal) }
    ensures { IfOk result (RepliesRefusal (refusal_of refusal)) }
{
    let output = refusal_line(alloc, &refusal)?;
    Ok(Reply {
        answer: Answer::Refused(refusal),
        output,
    })
}

/// The reply that accepts an environment.
fn accepting(alloc: Global, env: &Env) -> Result<Reply, NoMemory>
    requires { HasAxiomLines (items env.now) }
    ensures { IfOk result (RepliesList (items env.now)) }
{
    let output = axiom_list(alloc, env)?;
    Ok(Reply {
        answer: Answer::Passed,
        output,
    })
}

/// The reply to words that are no command line.
fn misreading(alloc: Global, k: u32) -> Result<Reply, NoMemory>
    ensures { IfOk result (RepliesWord k) }
{
    let output = word_line(alloc, k)?;
    Ok(Reply {
        answer: Answer::Words(k),
        output,
    })
}

/// The reply on a library, by the text of its source.
fn over_text(alloc: Global, library: &Name, text: &[u8]) -> Result<Reply, NoMemory>
    ensures { IfOk result (λ reply.
        RepliesTo library.now (Some text.now) (answer_of reply.answer) (string_bytes reply.output)) }
{
    match compile(alloc, library, text) {
        Ok(env) => accepting(alloc, &env),
        Err(Stop::Refused(refusal)) => refusing(alloc, refusal),
        Err(Stop::NoMemory) => Err(NoMemory),
    }
}

/// The reply on a library, by what was found as its source.
fn over_source(
    alloc: Global,
    library: &Name,
    name: FileName,
    source: Source,
) -> Result<Reply, NoMemory>
    requires { name ≡ source_name library.now }
    ensures { IfOk result (λ reply. (bytes : Option (List ℕ)) → DescribesContent source bytes →
        RepliesTo library.now bytes (answer_of reply.answer) (string_bytes reply.output)) }
{
    match source {
        Source::Absent => refusing(alloc, Refusal::NoFile { name }),
        Source::Long(_) => refusing(
            alloc,
            Refusal::NotYet {
                name,
                place: LONGEST_SOURCE,
            },
        ),
        Source::Text(text) => over_text(alloc, library, text.as_slice()),
    }
}

/// The reply to a command line, over a folder.
fn reply_over<F: Folder>(alloc: Global, words: &Words, folder: &mut F) -> Result<Reply, FolderFault>
    ensures says { IfOk result (λ reply.
        Says words.now (F.files folder.old) (answer_of reply.answer) (string_bytes reply.output)) }
    ensures failed { FailedRose result (F.read_faults folder.old) (F.read_faults folder.new) }
    ensures quiet { OthersQuiet result (F.read_faults folder.old) (F.read_faults folder.new) }
    ensures files { F.files folder.new ≡ F.files folder.old }
{
    let library = match command(alloc, words) {
        Ok(library) => library,
        Err(Misread::Word(k)) => return Ok(misreading(alloc, k)?),
        Err(Misread::NoMemory) => return Err(FolderFault::NoMemory),
    };
    let name = source_file(alloc, &library)?;
    let source = source_in(alloc, folder, name.text())?;
    Ok(over_source(alloc, &library, name, source)?)
}

/// Runs a command line over a folder, and prints to a sink.
///
/// The one command is `coqc A.v`: it reads the source of the library A, checks what it declares, and prints the
/// axioms. It writes no file. What it prints, it prints at the end: the list of axioms, the line of a refusal, or
/// the line of a word that is not understood.
#[tactic(none)]
pub fn run<F: Folder, O: Sink>(alloc: Global, words: &Words, folder: &mut F, out: &mut O) -> Answer
    // Over a told folder and sink, where no count of faults rose, the answer and the output are the command's.
    ensures stated { AnswersAsStatedUnlessFaults words.now (F.files folder.old) (answer_of result) (O.sent out.old) (O.sent out.new)
        (Rose (F.read_faults folder.old) (F.read_faults folder.new) ⊎ Rose (O.faults out.old) (O.faults out.new)) }
    // Over any folder, an answer that is no fault is one that the command has, and its output was sent.
    ensures says { UnlessFault (answer_of result)
        (SaysAndSends words.now (F.files folder.old) (answer_of result) (O.sent out.old) (O.sent out.new)) }
    ensures words_only { (k : ℕ) → answer_of result ≡ not_understood k → FirstNotUnderstood words.now k }
    ensures words_where { (k : ℕ) → FirstNotUnderstood words.now k → IsOrFault (answer_of result) (not_understood k) }
    ensures refused_only { (fs : Files) (r : Reason) → F.files folder.old ≡ Some fs → answer_of result ≡ refused r →
        Refuses words.now (file_at fs) r }
    ensures refused_where { (fs : Files) (r : Reason) → F.files folder.old ≡ Some fs → Refuses words.now (file_at fs) r →
        IsOrFault (answer_of result) (refused r) }
    ensures passed_only { (fs : Files) → F.files folder.old ≡ Some fs → answer_of result ≡ passed →
        IsAccepted words.now (file_at fs) }
    ensures passed_where { (fs : Files) (E : Environment) → F.files folder.old ≡ Some fs → Accepts words.now (file_at fs) E →
        IsOrFault (answer_of result) passed }
    // Where it passes, over any folder, the environment is formed at every numbering, and its axioms were printed.
    ensures formed { answer_of result ≡ passed → AcceptsFormed words.now (F.files folder.old) (O.sent out.old) (O.sent out.new) }
    ensures read_fault { answer_of result ≡ read_fault → Rose (F.read_faults folder.old) (F.read_faults folder.new) }
    ensures sink_fault { answer_of result ≡ sink_fault → Rose (O.faults out.old) (O.faults out.new) }
    ensures read_quiet { (answer_of result ≡ read_fault → ⊥) → F.read_faults folder.new ≡ F.read_faults folder.old }
    ensures sink_quiet { (answer_of result ≡ sink_fault → ⊥) → O.faults out.new ≡ O.faults out.old }
    ensures files { F.files folder.new ≡ F.files folder.old }
    ensures unsent { (answer_of result ≡ read_fault) ⊎ (answer_of result ≡ no_memory) → O.sent out.new ≡ O.sent out.old }
    ensures part { answer_of result ≡ sink_fault → SaysAndSendsPart words.now (F.files folder.old) (O.sent out.old) (O.sent out.new) }
{
    match reply_over(alloc, words, folder) {
        Ok(reply) => match out.write(reply.output.as_bytes()) {
            Ok(()) => reply.answer,
            Err(SinkFault::Failed) => Answer::SinkFault,
        },
        Err(FolderFault::Failed) => Answer::ReadFault,
        Err(FolderFault::NoMemory) => Answer::NoMemory,
    }
}
