use crate::Findings;

/// What a design rule of a kind found under a limit.
#[derive(Debug, Drop)]
pub struct Report {
    pub kind: u8,
    pub limit: u64,
    pub findings: Findings,
}
