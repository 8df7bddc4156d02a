ghost use Rattle.std.specs.Prelude.{◌≡◌, ◌≢◌, Err, IfOk, IsTrue, is_some};
ghost use Rattle.loom_project.specs.Sound.{draft_check};
ghost use Rattle.loom_project.specs.declared.fault.ProjectFault.TheVariants as failures;
ghost use Rattle.loom_reader.specs.Document.{checked, document_of, GivesDocument};

use crate::outline::Outline;
use crate::{Entry, ReadFault, Want};
use loom_base::{List, MAX_EDITS, Name, Which};
use loom_json::read_value;
use loom_project::Project;
use loom_types::Plan;
use std::alloc::Global;

/// A document. What isn't read is empty.
#[derive(Drop)]
pub struct Document {
    /// 1 or 2. The second version also writes down the classes of nets, and what segments bar and
    /// reserve.
    pub version: u8,
    /// The project, as it is before the edits. In the first version each net has the class `std`,
    /// and no segment bars a class or reserves a pin.
    pub project: Project,
    /// The entries of the edits, in order; empty where the document has none.
    pub entries: List<Entry>,
    /// The limits of the design rules; empty where the document has none. Read for planning alone.
    pub limits: List<u64>,
    /// The names of the true options, which nobody has looked up yet. Read where wires are
    /// extracted or explained.
    pub choice: List<Name>,
    /// The plan that is worked with. Read where none is made.
    pub plan: Option<Plan>,
    /// The names of the two cavities that are explained, which nobody has looked up yet.
    pub between: List<Name>,
}

/// The document of an outline whose project is sound, and which hasn't too many entries.
fn checked_document(alloc: Global, outline: Outline) -> Result<Document, ReadFault>
    ensures gives { GivesDocument result (checked outline (draft_check outline.draft)) }
    ensures memory { result ≢ Err (ReadFault.Project failures.NoMemory) }
    ensures plan { IfOk result (λ document. document.plan ≡ outline.wanted.plan) }
{
    let Outline {
        version,
        draft,
        entries,
        wanted,
    } = outline;
    let project = Project::check(alloc, draft)?;
    if entries.len() as u64 > MAX_EDITS {
        return Err(ReadFault::Limit {
            which: Which::Edits,
            count: MAX_EDITS + 1,
        });
    }
    Ok(Document {
        version,
        project,
        entries,
        limits: wanted.limits,
        choice: wanted.choice,
        plan: wanted.plan,
        between: wanted.between,
    })
}

/// Reads what is needed of a document's bytes (`document_of`). Faults are tried in the order of
/// `ReadFault`, and each comes exactly where it is the first in reading order; only `NoMemory` is
/// free to come. A document has a plan where it is read for anything but planning.
#[tactic(auto, unfolding(crate::specs::Document::document_of))]
pub fn read(alloc: Global, bytes: &[u8], want: Want) -> Result<Document, ReadFault>
    ensures gives { GivesDocument result (document_of want bytes.now) }
    ensures memory { result ≢ Err (ReadFault.Project failures.NoMemory) }
    ensures plan { IfOk result (λ document. want ≢ Want.Plan → IsTrue (is_some document.plan)) }
{
    let value = read_value(alloc, bytes)?;
    let outline = Outline::read(alloc, &value, want)?;
    checked_document(alloc, outline)
}
