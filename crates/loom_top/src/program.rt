//! The one call that is all the program does.
ghost use Rattle.std.specs.Prelude.{◌≡◌, ◌≢◌, ◌≤◌, ℕ, List, [], map, string_bytes, true, false, Some, IfOk, IfSome};
ghost use Rattle.std.specs.List.{All};
ghost use Rattle.std.specs.Io.KnownBytes.{Appends, IsAtEnd};
ghost use Rattle.clap.specs.Words.{takes};
ghost use Rattle.loom_base.specs.Causes.{Rose};
ghost use Rattle.loom_base.specs.Streams.{AppendsPart, TakesAtMost};
ghost use Rattle.loom_words.specs.Command.{loom_app};
ghost use Rattle.loom_words.specs.Jobs.{IsNamed};
ghost use Rattle.loom_words.specs.declared.job.Job.TheVariants as jobs;
ghost use Rattle.loom_top.specs.Replies.{Accepts, HasOwnPlan, IsReply};
ghost use Rattle.loom_top.specs.Run.{status_of, Ask, AskFor, AskForDocument, WritesBy, WritesAsAsked, IsSilent, IsDoneOrNoMemory};
ghost use Rattle.loom_top.specs.Trials.{HasSummary, IsTrialReply};

use crate::Status;
use crate::document_reply::{reply_to, too_long};
use crate::job::DocumentJob;
use crate::reply::{Reply, ReplyKind};
use crate::trial_reply::trial_reply;
use loom_accord::passing_is_yes;
use loom_base::{MAX_INPUT_BYTES, NoMemory, ReadStop, Sink, Source, read_all, write_all};
use loom_plan::stop_laws::plan_excludes_stops;
use loom_rules::DesignRule;
use loom_words::{Job, WordsStop, read_words, words_that_are_taken};
use std::alloc::Global;

/// The reply to all that is left in a source.
fn replied<S: Source>(
    alloc: Global,
    job: DocumentJob,
    source: &mut S,
    rules: &mut Vec<Box<dyn DesignRule>>,
) -> Result<Reply, ReadStop>
    requires unseen { All (λ rule. seen_by rule ≡ []) rules.old.items }
    ensures reply { IfOk result (λ reply. IfSome (S.left source.old) (λ input. IsReply
        (map (λ rule. record { kind = kind_of rule; limit = limit_of rule }) rules.old.items)
        job input reply.kind reply.line)) }
    ensures at_end { IfOk result (λ reply.
        reply.kind ≢ ReplyKind.Refused → IsAtEnd (S.left source.new)) }
    ensures fault { result ≡ Err ReadStop.Fault → Rose (S.faults source.old) (S.faults source.new) }
    ensures short { result ≢ Err ReadStop.TooLong }
    ensures at_most { TakesAtMost (S.left source.old) (S.left source.new) 67108865 }
    ensures later { S.faults source.old ≤ S.faults source.new }
{
    match read_all(alloc, source, MAX_INPUT_BYTES) {
        Ok(input) => Ok(reply_to(alloc, job, input.as_slice(), rules)?),
        Err(ReadStop::TooLong) => Ok(too_long(alloc)?),
        Err(stop) => Err(stop),
    }
}

/// Writes the line of a reply.
fn written<K: Sink>(sink: &mut K, reply: &Reply) -> Status
    ensures whole { result ≢ Status.WriteFault → (result ≡ status_of reply.now.kind)
        × Appends (K.held sink.old) (K.held sink.new) reply.now.line }
    ensures part { result ≡ Status.WriteFault → Rose (K.faults sink.old) (K.faults sink.new)
        × AppendsPart (K.held sink.old) (K.held sink.new) reply.now.line }
    ensures later { K.faults sink.old ≤ K.faults sink.new }
{
    match write_all(sink, reply.line.as_slice()) {
        Ok(()) => Status::of(reply.kind),
        Err(_) => Status::WriteFault,
    }
}

/// Does a job with the document that is left in a source.
fn with_document<S: Source, K: Sink>(
    alloc: Global,
    job: DocumentJob,
    source: &mut S,
    sink: &mut K,
    rules: &mut Vec<Box<dyn DesignRule>>,
) -> Status
    requires unseen { All (λ rule. seen_by rule ≡ []) rules.old.items }
    ensures writes { IfSome (S.left source.old) (λ input. WritesBy (IsReply
        (map (λ rule. record { kind = kind_of rule; limit = limit_of rule }) rules.old.items)
        job input) (K.held sink.old) (K.held sink.new) result) }
    ensures understood { result ≢ Status.Usage }
    ensures at_end { result ≡ Status.Done → IsAtEnd (S.left source.new) }
    ensures no_at_end { result ≡ Status.CheckedNo → IsAtEnd (S.left source.new) }
    ensures read_fault { result ≡ Status.ReadFault
        → Rose (S.faults source.old) (S.faults source.new) }
    ensures write_fault { result ≡ Status.WriteFault
        → Rose (K.faults sink.old) (K.faults sink.new) }
    ensures at_most { TakesAtMost (S.left source.old) (S.left source.new) 67108865 }
    ensures unwritten { IsSilent result → sink.new ≡ sink.old }
    ensures source_later { S.faults source.old ≤ S.faults source.new }
    ensures sink_later { K.faults sink.old ≤ K.faults sink.new }
    ensures complete { (input : List ℕ) → S.left source.old ≡ Some input → Accepts job input
        → ¬ Rose (S.faults source.old) (S.faults source.new)
        → ¬ Rose (K.faults sink.old) (K.faults sink.new) → IsDoneOrNoMemory result }
    ensures own { (input : List ℕ) → job ≡ DocumentJob.Check → S.left source.old ≡ Some input
        → HasOwnPlan input → ¬ Rose (S.faults source.old) (S.faults source.new)
        → ¬ Rose (K.faults sink.old) (K.faults sink.new) → IsDoneOrNoMemory result }
{
    plan_excludes_stops();
    passing_is_yes();
    match replied(alloc, job, source, rules) {
        Ok(reply) => written(sink, &reply),
        Err(ReadStop::NoMemory) => Status::NoMemory,
        Err(_) => Status::ReadFault,
    }
}

/// Plans a trial and sums its plan up.
fn with_trial<K: Sink>(alloc: Global, trial: u32, sink: &mut K) -> Status
    requires { (1 ≤ trial) × (trial ≤ 200) }
    ensures writes { WritesBy (IsTrialReply trial) (K.held sink.old) (K.held sink.new) result }
    ensures understood { result ≢ Status.Usage }
    ensures no_read { result ≢ Status.ReadFault }
    ensures write_fault { result ≡ Status.WriteFault
        → Rose (K.faults sink.old) (K.faults sink.new) }
    ensures unwritten { IsSilent result → sink.new ≡ sink.old }
    ensures sink_later { K.faults sink.old ≤ K.faults sink.new }
    ensures complete { HasSummary trial → ¬ Rose (K.faults sink.old) (K.faults sink.new)
        → IsDoneOrNoMemory result }
{
    plan_excludes_stops();
    match trial_reply(alloc, trial) {
        Ok(reply) => written(sink, &reply),
        Err(NoMemory) => Status::NoMemory,
    }
}

/// Does the job that the words ask for, and writes one line to the sink: what `WritesAsAsked` says
/// under each command. The words are read with clap, by its definition of the program's command.
///
/// `plan`, `extract` and `check` read a document from the source, and apply its edits in their order. Under
/// `plan` the line has what became of each, a plan of the project after them and the reports of the
/// design rules over its wires; the i-th rule gets the document's i-th limit, and a rule past the
/// last limit keeps its own. Under `extract` it has the wires of the document's plan that its
/// choice makes live; what became of the edits isn't printed, and no price is worked out. Under
/// `check` it says whether the document's plan passes all nine rules for its project after the
/// edits, and is right then, or which rule fails first, and where; what planning that project
/// answers always passes. `trial` reads nothing: its line sums up the plan of the trial project of
/// its number. Or the line says why there is no such line. The rules are dropped at the end.
///
/// The line is made whole before the first write. `Usage` comes only where clap's definition
/// doesn't take the words, and never for the words that documents name (`IsNamed`). `ReadFault` and
/// `WriteFault` come only where the count of faults of the source or the sink rose. What a job
/// accepts is `Done` where no count rose, unless memory ran out. At most 67,108,865 bytes are
/// taken.
pub fn run<S: Source, K: Sink>(
    alloc: Global,
    words: &[String],
    source: &mut S,
    sink: &mut K,
    mut rules: Vec<Box<dyn DesignRule>>,
) -> Status
    requires unseen { All (λ rule. seen_by rule ≡ []) rules.items }
    ensures writes { WritesAsAsked
        (map (λ rule. record { kind = kind_of rule; limit = limit_of rule }) rules.items)
        (map string_bytes words.now) (S.left source.old) (K.held sink.old) (K.held sink.new)
        result }
    ensures usage { result ≡ Status.Usage
        → takes loom_app (map string_bytes words.now) ≡ false }
    ensures taken { (job : _) → IsNamed (map string_bytes words.now) job
        → result ≢ Status.Usage }
    ensures asked { result ≢ Status.Usage → result ≢ Status.NoMemory
        → Ask (map string_bytes words.now) }
    ensures at_end { (job : _) → AskForDocument job (map string_bytes words.now)
        → result ≡ Status.Done → IsAtEnd (S.left source.new) }
    ensures no_at_end { (job : _) → AskForDocument job (map string_bytes words.now)
        → result ≡ Status.CheckedNo → IsAtEnd (S.left source.new) }
    ensures read_fault { result ≡ Status.ReadFault
        → Rose (S.faults source.old) (S.faults source.new) }
    ensures write_fault { result ≡ Status.WriteFault
        → Rose (K.faults sink.old) (K.faults sink.new) }
    ensures unread { result ≡ Status.Usage → source.new ≡ source.old }
    ensures trial_unread { (trial : ℕ) → AskFor (jobs.Trial trial) (map string_bytes words.now)
        → source.new ≡ source.old }
    ensures at_most { (job : _) → AskForDocument job (map string_bytes words.now)
        → TakesAtMost (S.left source.old) (S.left source.new) 67108865 }
    ensures unwritten { IsSilent result → sink.new ≡ sink.old }
    ensures source_later { S.faults source.old ≤ S.faults source.new }
    ensures sink_later { K.faults sink.old ≤ K.faults sink.new }
    ensures complete { (job : _) (input : List ℕ)
        → AskForDocument job (map string_bytes words.now)
        → S.left source.old ≡ Some input → Accepts job input
        → ¬ Rose (S.faults source.old) (S.faults source.new)
        → ¬ Rose (K.faults sink.old) (K.faults sink.new) → IsDoneOrNoMemory result }
    ensures own { (input : List ℕ) → AskFor jobs.Check (map string_bytes words.now)
        → S.left source.old ≡ Some input → HasOwnPlan input
        → ¬ Rose (S.faults source.old) (S.faults source.new)
        → ¬ Rose (K.faults sink.old) (K.faults sink.new) → IsDoneOrNoMemory result }
    ensures trial_complete { (trial : ℕ)
        → AskFor (jobs.Trial trial) (map string_bytes words.now) → HasSummary trial
        → ¬ Rose (K.faults sink.old) (K.faults sink.new) → IsDoneOrNoMemory result }
{
    words_that_are_taken();
    match read_words(alloc, words) {
        Ok(Job::Plan) => with_document(alloc, DocumentJob::Plan, source, sink, &mut rules),
        Ok(Job::Extract) => with_document(alloc, DocumentJob::Extract, source, sink, &mut rules),
        Ok(Job::Trial(trial)) => with_trial(alloc, trial, sink),
        Ok(Job::Check) => with_document(alloc, DocumentJob::Check, source, sink, &mut rules),
        Err(WordsStop::Usage) => Status::Usage,
        Err(WordsStop::NoMemory) => Status::NoMemory,
    }
}
