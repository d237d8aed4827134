//! The top call and its laws.

ghost use Rattle.std.specs.Prelude.{◌≡◌, ◌⊎◌, ℕ, ◌^◌, ◌≤◌, List, [], length, ⊤, Some, IfOk, IfErr, IsErrOf, OnOk, OnErr};
ghost use Rattle.std.specs.Io.KnownBytes.{IsAtEnd, Keeps};
ghost use Rattle.edge_kit.specs.Edges.{Rose};
ghost use Rattle.plain_tree.specs.Ops.{plain_module};
ghost use Rattle.tool_cli.specs.Told.{Reply};
ghost use Rattle.tool_cli.specs.Replies.{Out};
ghost use Rattle.tree_reading.specs.Reading.{Reads};
ghost use Rattle.tool_cli.specs.Asking.{AsksFor, IsAsked};
ghost use Rattle.tool_cli.specs.Verdicts.{KeepsRules};
ghost use Rattle.tool_cli.specs.Runs.{IsReply, RepliesTo, TakesAll, StopsEarly, RoseAlone, Spares, OneReply};

use crate::behind::{printed, run_twice};
use crate::edges::{read_input, write_all};
use crate::prepared::{Prepared, refuse, refuse_line};
use crate::refusals::{broken, refused};
use crate::status::Status;
use edge_kit::{Sink, SinkFault, Source, SureSink, SureSource, Words};
use ir_verifier::verify;
use std::alloc::{AllocError, Global};
use tool_words::{Request, WordsRead, read_words};
use tree_model::ModuleTree;
use tree_reader::{ReadRefusal, read_tree};

/// Why there is no reply.
pub enum Stop {
    ReadFault,
    NoMemory,
}

impl From<AllocError> for Stop {
    ghost use Rattle.std.specs.Prelude.{◌≡◌};
    ghost use Rattle.tool_cli.specs.declared.run.Stop.TheVariants.{NoMemory};

    ghost from_gives = { λ _ e. e ≡ NoMemory };

    fn from(_error: AllocError) -> Stop {
        Stop::NoMemory
    }
}

/// Reads a module from `input`, runs the pipeline of the words over it, and prints what it makes of the module on `out`, or the lines on
/// a run of both where the words ask for it; what refuses the words or the module, and what failed in the pipeline, goes to `diag`.
pub fn run_single<S: Source, K: Sink, E: Sink>(
    alloc: Global,
    words: &Words,
    input: &mut S,
    out: &mut K,
    diag: &mut E,
) -> Status
    ensures replied { IsReply result → (reply : Reply) × RepliesTo words.now (S.left input.old) reply × (result ≡ reply.status)
        × TakesAll (K.held out.old) (K.held out.new) (E.held diag.old) (E.held diag.new) reply }
    ensures ended { (result ≡ Status.Ok) ⊎ (result ≡ Status.Refused) ⊎ (result ≡ Status.PassFailed) → IsAtEnd (S.left input.new) }
    ensures unread { (result ≡ Status.Usage) ⊎ (IsAsked words.now → ⊥) → input.new ≡ input.old }
    ensures read_fault { result ≡ Status.ReadFault → IsAsked words.now × Rose (S.faults input.old) (S.faults input.new)
        × Spares out.old out.new diag.old diag.new }
    ensures write_fault { result ≡ Status.WriteFault → (reply : Reply) × RepliesTo words.now (S.left input.old) reply
        × StopsEarly (RoseAlone (K.faults out.old) (K.faults out.new) (E.faults diag.old) (E.faults diag.new))
        (RoseAlone (E.faults diag.old) (E.faults diag.new) (K.faults out.old) (K.faults out.new))
        (K.held out.old) (K.held out.new) (E.held diag.old) (E.held diag.new) reply }
    ensures quiet_input { (result ≡ Status.ReadFault → ⊥) → S.faults input.new ≡ S.faults input.old }
    ensures quiet_outputs { (result ≡ Status.WriteFault → ⊥)
        → (K.faults out.new ≡ K.faults out.old) × (E.faults diag.new ≡ E.faults diag.old) }
    ensures no_memory { result ≡ Status.NoMemory → Spares out.old out.new diag.old diag.new
        ⊎ ((reply : Reply) × RepliesTo words.now (S.left input.old) reply
        × StopsEarly ⊤ ⊤ (K.held out.old) (K.held out.new) (E.held diag.old) (E.held diag.new) reply) }
{
    let reply = match reply_to(alloc, words, input) {
        Ok(reply) => reply,
        Err(Stop::ReadFault) => return Status::ReadFault,
        Err(Stop::NoMemory) => return Status::NoMemory,
    };
    match deliver(out, diag, &reply) {
        Ok(()) => reply.status,
        Err(SinkFault::Failed) => Status::WriteFault,
        Err(SinkFault::NoMemory) => Status::NoMemory,
    }
}

/// [`run_single`] over edges without faults, which answers no fault.
pub fn run_sure(
    alloc: Global,
    words: &Words,
    input: &mut SureSource,
    out: &mut SureSink,
    diag: &mut SureSink,
) -> Status
    ensures reads { result ≡ Status.ReadFault → ⊥ }
    ensures writes { result ≡ Status.WriteFault → ⊥ }
    ensures replied { IsReply result → (reply : Reply) × RepliesTo words.now (Some input.old) reply × (result ≡ reply.status)
        × TakesAll (Some out.old) (Some out.new) (Some diag.old) (Some diag.new) reply }
    ensures ended { (result ≡ Status.Ok) ⊎ (result ≡ Status.Refused) ⊎ (result ≡ Status.PassFailed) → input.new ≡ [] }
    ensures unread { (result ≡ Status.Usage) ⊎ (IsAsked words.now → ⊥) → input.new ≡ input.old }
    ensures no_memory { result ≡ Status.NoMemory → Spares out.old out.new diag.old diag.new
        ⊎ ((reply : Reply) × RepliesTo words.now (Some input.old) reply
        × StopsEarly ⊤ ⊤ (Some out.old) (Some out.new) (Some diag.old) (Some diag.new) reply) }
{
    run_single(alloc, words, input, out, diag)
}

/// At most one reply fits given words and a given input, so the status and both texts are theirs.
pub fn law_one_reply()
    ensures { OneReply }
{}

// The reply to the words and to what the source has left.
fn reply_to<S: Source>(alloc: Global, words: &Words, input: &mut S) -> Result<Prepared, Stop>
    ensures reply { IfOk result (λ p. RepliesTo words.now (S.left input.old) p) }
    ensures ended { IfOk result (λ p. (p.status ≡ Status.Ok) ⊎ (p.status ≡ Status.Refused) ⊎ (p.status ≡ Status.PassFailed) → IsAtEnd (S.left input.new)) }
    ensures cause { IsErrOf result Stop.ReadFault → Rose (S.faults input.old) (S.faults input.new) }
    ensures asked { IsErrOf result Stop.ReadFault → IsAsked words.now }
    ensures unread { (IsAsked words.now → ⊥) → input.new ≡ input.old }
    ensures quiet { OnOk result (S.faults input.new ≡ S.faults input.old) }
    ensures wanting { IsErrOf result Stop.NoMemory → S.faults input.new ≡ S.faults input.old }
{
    let request = match asked_of(alloc, words)? {
        Ok(request) => request,
        Err(reply) => return Ok(reply),
    };
    match read_input(alloc, input)? {
        None => Ok(refuse(alloc, Status::Limit, "limit: input 16777216")?),
        Some(text) => Ok(reply_to_text(alloc, &request, text.as_slice())?),
    }
}

// What the words ask for, or the reply to words that ask for nothing.
fn asked_of(alloc: Global, words: &Words) -> Result<Result<Request, Prepared>, AllocError>
    ensures asked { IfOk result (λ r. IfOk r (λ request. AsksFor words.now request)) }
    ensures refused { IfOk result (λ r. IfErr r (λ p. (bytes : List ℕ) → Out words.now bytes p)) }
    ensures nothing { IfOk result (λ r. IfErr r (λ p. IsAsked words.now → ⊥)) }
    ensures usage { IfOk result (λ r. IfErr r (λ p. p.status ≡ Status.Usage)) }
{
    match read_words(alloc, words)? {
        WordsRead::Asked(request) => Ok(Ok(request)),
        WordsRead::Refused(text) => Ok(Err(refuse_line(alloc, Status::Usage, text)?)),
    }
}

// The reply to a request and a whole text.
fn reply_to_text(alloc: Global, request: &Request, text: &[u8]) -> Result<Prepared, AllocError>
    requires { length text.now ≤ 2 ^ 24 }
    ensures { (words : List (List ℕ)) → AsksFor words request.now → IfOk result (λ p. Out words text.now p) }
{
    match read_tree(alloc, text, request.allowed) {
        Ok(source) => reply_to_module(alloc, request, text, source),
        Err(ReadRefusal::At { place, kind }) => refused(alloc, place, kind),
        Err(ReadRefusal::NoMemory) => Err(AllocError),
    }
}

// The reply to a request and the module of a text.
fn reply_to_module(
    alloc: Global,
    request: &Request,
    text: &[u8],
    source: ModuleTree,
) -> Result<Prepared, AllocError>
    requires short { length text.now ≤ 2 ^ 24 }
    requires read { Reads text.now request.now.allowed source }
    ensures { (words : List (List ℕ)) → AsksFor words request.now → IfOk result (λ p. Out words text.now p) }
{
    match verify(alloc, &source)? {
        Some(rule) => broken(alloc, &source, rule),
        None => reply_to_verified(alloc, request, text, source),
    }
}

// The reply to a request and the module of a text that breaks no rule.
fn reply_to_verified(
    alloc: Global,
    request: &Request,
    text: &[u8],
    source: ModuleTree,
) -> Result<Prepared, AllocError>
    requires short { length text.now ≤ 2 ^ 24 }
    requires read { Reads text.now request.now.allowed source }
    requires keeps { KeepsRules (plain_module source) }
    ensures { (words : List (List ℕ)) → AsksFor words request.now → IfOk result (λ p. Out words text.now p) }
{
    match &request.run {
        None => printed(alloc, request, source),
        Some(run) => run_twice(alloc, request, run, source),
    }
}

// Writes the text for `out`, and then the text for `diag`.
fn deliver<K: Sink, E: Sink>(out: &mut K, diag: &mut E, reply: &Prepared) -> Result<(), SinkFault>
    ensures ok { OnOk result (TakesAll (K.held out.old) (K.held out.new) (E.held diag.old) (E.held diag.new) reply.now) }
    ensures failed { IsErrOf result SinkFault.Failed
        → StopsEarly (RoseAlone (K.faults out.old) (K.faults out.new) (E.faults diag.old) (E.faults diag.new))
        (RoseAlone (E.faults diag.old) (E.faults diag.new) (K.faults out.old) (K.faults out.new))
        (K.held out.old) (K.held out.new) (E.held diag.old) (E.held diag.new) reply.now }
    ensures quiet { OnOk result ((K.faults out.new ≡ K.faults out.old) × (E.faults diag.new ≡ E.faults diag.old)) }
    ensures wanting { IsErrOf result SinkFault.NoMemory
        → (K.faults out.new ≡ K.faults out.old) × (E.faults diag.new ≡ E.faults diag.old) }
    ensures stopped { OnErr result (StopsEarly ⊤ ⊤ (K.held out.old) (K.held out.new) (E.held diag.old) (E.held diag.new) reply.now) }
{
    write_all(out, reply.out.as_slice())?;
    write_all(diag, reply.diag.as_slice())
}
