//! How the reports of design rules are printed.
ghost use Rattle.loom_answer.specs.Reports.{finding_shown, report_shown};

use crate::values::{numbers, whole};
use loom_base::NoMemory;
use loom_json::shown::{Shown, array, with};
use loom_rules::{Finding, Report};
use serde_json::{Map, Value};
use std::alloc::Global;

/// Shows a finding: its three numbers.
struct FindingShown;

impl Shown for FindingShown {
    type Of = Finding;

    ghost shows = { finding_shown };

    fn value(alloc: Global, found: &Finding) -> Result<Value, NoMemory> {
        numbers(
            alloc,
            &[
                u64::from(found.first),
                u64::from(found.second),
                u64::from(found.third),
            ],
        )
    }
}

/// Shows a report.
pub(crate) struct ReportShown;

impl Shown for ReportShown {
    type Of = Report;

    ghost shows = { report_shown };

    fn value(alloc: Global, report: &Report) -> Result<Value, NoMemory> {
        let findings = array::<FindingShown>(alloc, report.findings.as_slice())?;
        let members = with(alloc, Map::new(alloc), "findings", findings)?;
        let members = with(alloc, members, "kind", whole(u64::from(report.kind)))?;
        let members = with(alloc, members, "limit", whole(report.limit))?;
        Ok(Value::Object(members))
    }
}
