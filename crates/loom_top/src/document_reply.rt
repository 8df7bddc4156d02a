//! The line that replies to an input.
ghost use Rattle.std.specs.Prelude.{◌≡◌, ◌≢◌, ◌≤◌, [], map, is_some, IfOk, IsTrue, length};
ghost use Rattle.std.specs.List.{All};
ghost use Rattle.loom_json.specs.Text.{line_of};
ghost use Rattle.loom_top.specs.Refusals.{refusal_shown};
ghost use Rattle.loom_top.specs.Replies.{IsReply};
ghost use Rattle.loom_top.specs.RepliesInside.{IsReplyTo};

use crate::job::DocumentJob;
use crate::plan_reply::plan_reply;
use crate::refusal::Refusal;
use crate::reply::{Reply, ReplyKind};
use crate::variant_reply::variant_reply;
use crate::verdict_reply::verdict_reply;
use loom_base::NoMemory;
use loom_reader::{Document, ReadFault, read};
use loom_rules::DesignRule;
use std::alloc::Global;

/// The reply to a document that was read for a job. Under `Extract` and `Check` it has a plan.
fn answered(
    alloc: Global,
    job: DocumentJob,
    document: Document,
    rules: &mut Vec<Box<dyn DesignRule>>,
) -> Result<Reply, NoMemory>
    requires plan { job ≢ DocumentJob.Plan → IsTrue (is_some document.plan) }
    requires unseen { All (λ rule. seen_by rule ≡ []) rules.old.items }
    ensures { IfOk result (IsReplyTo
        (map (λ rule. record { kind = kind_of rule; limit = limit_of rule }) rules.old.items)
        job document) }
{
    match job {
        DocumentJob::Plan => plan_reply(alloc, document, rules),
        DocumentJob::Extract => variant_reply(alloc, document),
        DocumentJob::Check => verdict_reply(alloc, document),
    }
}

/// The reply to an input of at most 67,108,864 bytes. Under `Plan` the rules are shown the wires of
/// its plan.
pub fn reply_to(
    alloc: Global,
    job: DocumentJob,
    input: &[u8],
    rules: &mut Vec<Box<dyn DesignRule>>,
) -> Result<Reply, NoMemory>
    requires short { length input.now ≤ 67108864 }
    requires unseen { All (λ rule. seen_by rule ≡ []) rules.old.items }
    ensures { IfOk result (λ reply. IsReply
        (map (λ rule. record { kind = kind_of rule; limit = limit_of rule }) rules.old.items)
        job input.now reply.kind reply.line) }
{
    match read(alloc, input, job.want()) {
        Ok(document) => answered(alloc, job, document, rules),
        Err(ReadFault::NotJson) => Reply::refused(alloc, &Refusal::NotJson),
        Err(ReadFault::WrongShape { path }) => {
            Reply::refused(alloc, &Refusal::WrongShape { path })
        }
        Err(ReadFault::Project(fault)) => Reply::refused(alloc, &Refusal::Project(fault)),
        Err(ReadFault::Limit { which, count }) => {
            Reply::refused(alloc, &Refusal::Limit { which, count })
        }
        Err(ReadFault::NoMemory) => Err(NoMemory),
    }
}

/// The reply to an input that is too long.
pub fn too_long(alloc: Global) -> Result<Reply, NoMemory>
    ensures kind { IfOk result (λ reply. reply.kind ≡ ReplyKind.Refused) }
    ensures line { IfOk result (λ reply. reply.line ≡ line_of (refusal_shown Refusal.TooLong)) }
{
    Reply::refused(alloc, &Refusal::TooLong)
}
