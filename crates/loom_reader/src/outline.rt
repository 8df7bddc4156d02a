ghost use Rattle.std.specs.Prelude.{◌≡◌, ◌≢◌, ◌⊎◌, [], None, map, codes, is_some, IfOk, IsTrue};
ghost use Rattle.serde_json.specs.View.{view};
ghost use Rattle.loom_json.specs.Forms.{Gives, at_key, list, name_form};
ghost use Rattle.loom_reader.specs.Parts.{read_where, whole_form};
ghost use Rattle.loom_reader.specs.Project.{project_form};
ghost use Rattle.loom_reader.specs.Entries.{entry_form};
ghost use Rattle.loom_reader.specs.Document.{version_form, reads_limits, needs_choice, needs_plan, needs_between, list_or_empty, some_plan, two_names, pair_in, between_form, wanted_form, outline_form};

use crate::Want;
use crate::entry::{Entry, EntryForm};
use crate::numbers::{VersionForm, WholeForm};
use crate::project::ProjectForm;
use loom_answer::PlanForm;
use loom_base::{List, Name};
use loom_json::forms::{self, Form, ListForm, NameForm};
use loom_json::{ShapeStop, elements, name};
use loom_project::Draft;
use loom_types::Plan;
use serde_json::Value;
use std::alloc::Global;

/// A document whose project isn't checked yet.
#[derive(Drop)]
pub struct Outline {
    pub version: u8,
    pub draft: Draft,
    pub entries: List<Entry>,
    pub wanted: Wanted,
}

/// The parts of a document that are read for some purposes alone. What isn't read is empty.
#[derive(Drop)]
pub struct Wanted {
    pub limits: List<u64>,
    pub choice: List<Name>,
    pub plan: Option<Plan>,
    pub between: List<Name>,
}

/// The version of the document.
fn version(alloc: Global, value: &Value) -> Result<u8, ShapeStop>
    ensures gives { Gives result (at_key version_form (codes "version") (view value.now)) }
    ensures known { IfOk result (λ version. (version ≡ 1) ⊎ (version ≡ 2)) }
{
    forms::at_key::<VersionForm>(alloc, value, "version")
}

/// The project, in the forms of the version.
fn project(alloc: Global, value: &Value, version: u8) -> Result<Draft, ShapeStop>
    requires { (version ≡ 1) ⊎ (version ≡ 2) }
    ensures { Gives result (at_key (project_form version) (codes "project") (view value.now)) }
{
    if version == 2 {
        forms::at_key::<ProjectForm<2>>(alloc, value, "project")
    } else {
        forms::at_key::<ProjectForm<1>>(alloc, value, "project")
    }
}

/// The array at a key, each element read by `F`; a missing one is empty.
fn list_or_empty<F: Form>(
    alloc: Global,
    value: &Value,
    key: &str,
) -> Result<List<F::Out>, ShapeStop>
    ensures { Gives result (list_or_empty F.reads key.now (view value.now)) }
{
    let found = forms::at_optional::<ListForm<F>>(alloc, value, key)?;
    Ok(found.unwrap_or(List::new(alloc)))
}

/// The entries of the edits, in the forms of the version.
fn entries(alloc: Global, value: &Value, version: u8) -> Result<List<Entry>, ShapeStop>
    requires { (version ≡ 1) ⊎ (version ≡ 2) }
    ensures { Gives result
        (list_or_empty (entry_form version) (codes "edits") (view value.now)) }
{
    if version == 2 {
        list_or_empty::<EntryForm<2>>(alloc, value, "edits")
    } else {
        list_or_empty::<EntryForm<1>>(alloc, value, "edits")
    }
}

/// The limits of the design rules.
fn limits(alloc: Global, value: &Value, want: Want) -> Result<List<u64>, ShapeStop>
    ensures { Gives result (read_where (reads_limits want)
        (list_or_empty whole_form (codes "limits") (view value.now)) []) }
{
    if want.reads_limits() {
        list_or_empty::<WholeForm>(alloc, value, "limits")
    } else {
        Ok(List::new(alloc))
    }
}

/// The names of the true options.
fn choice(alloc: Global, value: &Value, want: Want) -> Result<List<Name>, ShapeStop>
    ensures { Gives result (read_where (needs_choice want)
        (at_key (list name_form) (codes "choice") (view value.now)) []) }
{
    if want.needs_choice() {
        forms::at_key::<ListForm<NameForm>>(alloc, value, "choice")
    } else {
        Ok(List::new(alloc))
    }
}

/// The plan that the document has.
fn plan(alloc: Global, value: &Value, want: Want) -> Result<Option<Plan>, ShapeStop>
    ensures gives { Gives result
        (read_where (needs_plan want) (some_plan (view value.now)) None) }
    ensures needed { IfOk result (λ plan. want ≢ Want.Plan → IsTrue (is_some plan)) }
{
    if want.needs_plan() {
        Ok(Some(forms::at_key::<PlanForm>(alloc, value, "plan")?))
    } else {
        Ok(None)
    }
}

/// The names that two values are; None where one is none.
fn two_names(first: &Value, second: &Value) -> Option<[Name; 2]>
    ensures { result ≡ two_names (view first.now) (view second.now) }
{
    Some([name(first)?, name(second)?])
}

/// The names that two elements are; None where there are fewer or more, or one is none.
fn pair(elements: &[Value]) -> Option<[Name; 2]>
    ensures { result ≡ pair_in (map view elements.now) }
{
    if elements.len() == 2 {
        two_names(&elements[0], &elements[1])
    } else {
        None
    }
}

/// An array of two names.
pub struct BetweenForm;

impl Form for BetweenForm {
    type Out = List<Name>;

    ghost reads = { between_form };

    fn read(alloc: Global, value: &Value) -> Result<List<Name>, ShapeStop> {
        let names = forms::required(alloc, elements(value).and_then(pair))?;
        Ok(List::from_vec(Vec::from_array(alloc, names)?))
    }
}

/// The names of the two cavities.
fn between(alloc: Global, value: &Value, want: Want) -> Result<List<Name>, ShapeStop>
    ensures { Gives result (read_where (needs_between want)
        (at_key between_form (codes "between") (view value.now)) []) }
{
    if want.needs_between() {
        forms::at_key::<BetweenForm>(alloc, value, "between")
    } else {
        Ok(List::new(alloc))
    }
}

impl Wanted {
    /// Reads the parts that are wanted (`wanted_form`).
    #[tactic(auto, unfolding(crate::specs::Document::wanted_form))]
    fn read(alloc: Global, value: &Value, want: Want) -> Result<Wanted, ShapeStop>
        ensures gives { Gives result (wanted_form want (view value.now)) }
        ensures plan { IfOk result (λ wanted. want ≢ Want.Plan → IsTrue (is_some wanted.plan)) }
    {
        let limits = limits(alloc, value, want)?;
        let choice = choice(alloc, value, want)?;
        let plan = plan(alloc, value, want)?;
        let between = between(alloc, value, want)?;
        Ok(Wanted {
            limits,
            choice,
            plan,
            between,
        })
    }
}

impl Outline {
    /// Reads what is needed of a document (`outline_form`).
    #[tactic(auto, unfolding(crate::specs::Document::outline_form))]
    pub fn read(alloc: Global, value: &Value, want: Want) -> Result<Outline, ShapeStop>
        ensures gives { Gives result (outline_form want (view value.now)) }
        ensures plan { IfOk result (λ outline. want ≢ Want.Plan
            → IsTrue (is_some outline.wanted.plan)) }
    {
        forms::keyed(
            alloc,
            value,
            &[
                "version", "project", "edits", "limits", "choice", "plan", "outcomes", "reports",
                "between",
            ],
        )?;
        let version = version(alloc, value)?;
        let draft = project(alloc, value, version)?;
        let entries = entries(alloc, value, version)?;
        let wanted = Wanted::read(alloc, value, want)?;
        Ok(Outline {
            version,
            draft,
            entries,
            wanted,
        })
    }
}
