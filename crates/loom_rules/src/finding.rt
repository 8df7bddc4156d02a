use loom_base::List;

/// One finding of a design rule. What its numbers name depends on the rule's kind: a long wire is
/// (its position, 0, 0), a crowded segment (segment, number of wires, 0), and a busy splice (net,
/// node, ordinal). Findings are ordered by their numbers.
#[derive(Clone, Copy, Debug, PartialEq, Eq, PartialOrd, Ord)]
pub struct Finding {
    pub first: u32,
    pub second: u32,
    pub third: u32,
}

/// The findings of a rule, rising.
pub type Findings = List<Finding>;
