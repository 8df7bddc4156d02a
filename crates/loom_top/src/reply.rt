ghost use Rattle.std.specs.Prelude.{◌≡◌, IfOk};
ghost use Rattle.loom_json.specs.Text.{line_of};
ghost use Rattle.loom_top.specs.Refusals.{IsCause, refusal_shown};

use crate::refusal::Refusal;
use loom_base::{List, NoMemory};
use loom_json::line;
use std::alloc::Global;

/// What a line tells.
#[derive(Clone, Copy, Debug, PartialEq, Eq)]
pub enum ReplyKind {
    /// What was asked for.
    Done,
    /// That a plan isn't right.
    CheckedNo,
    /// Why what was asked for can't be had.
    Refused,
}

/// What is written: the line, and what it tells.
#[derive(Drop)]
pub struct Reply {
    pub kind: ReplyKind,
    pub line: List<u8>,
}

impl Reply {
    /// The reply that refuses an input.
    pub fn refused(alloc: Global, refusal: &Refusal) -> Result<Reply, NoMemory>
        requires { IsCause refusal.now }
        ensures kind { IfOk result (λ reply. reply.kind ≡ ReplyKind.Refused) }
        ensures line { IfOk result (λ reply. reply.line ≡ line_of (refusal_shown refusal.now)) }
    {
        Ok(Reply {
            kind: ReplyKind::Refused,
            line: line(alloc, &refusal.shown(alloc)?)?,
        })
    }
}
