ghost use Rattle.std.specs.Prelude.{ℕ, List as Items, [], ◌∷◌, ◌++◌, ◌≡◌, ◌<◌, ◌≤◌, length, IfOk, OnOk, OnErr};
ghost use Rattle.loom_types.specs.declared.wire.Wire.{Wire as SeenWire};
ghost use Rattle.loom_rules.specs.Findings.{AreFindings};

use crate::Findings;
use loom_base::NoMemory;
use loom_types::Wire;

/// A design rule over the wires of a harness, of all variants at once.
///
/// Kind 1 finds the wires that are longer than the limit, in millimetres. Kind 2 finds the segments
/// that stand in the routes of more wires than the limit. Kind 3 finds the splices at which more
/// wires end than the limit.
pub trait DesignRule: Drop {
    /// The rule's kind.
    ghost kind_of: { Self → ℕ };

    /// The rule's limit.
    ghost limit_of: { Self → ℕ };

    /// The wires that the rule has seen, in order.
    ghost seen_by: { Self → Items SeenWire };

    /// The rule's kind: 1, 2 or 3.
    fn kind(&self) -> u8
        ensures value { result ≡ kind_of self.now }
        ensures range { (1 ≤ result) × (result ≤ 3) };

    /// The rule's limit.
    fn limit(&self) -> u64
        ensures { result ≡ limit_of self.now };

    /// How many wires the rule has seen.
    fn seen(&self) -> u32
        ensures { result ≡ length (seen_by self.now) };

    /// Sets the limit and nothing else.
    fn set_limit(&mut self, limit: u64)
        ensures limit { limit_of self.new ≡ limit }
        ensures kind { kind_of self.new ≡ kind_of self.old }
        ensures seen { seen_by self.new ≡ seen_by self.old };

    /// Shows the rule one more wire, of which it keeps a copy. After want of memory the rule is
    /// unchanged.
    fn see(&mut self, wire: &Wire) -> Result<(), NoMemory>
        requires { length (seen_by self.old) < 65536 }
        ensures ok { OnOk result (seen_by self.new ≡ seen_by self.old ++ wire.now ∷ []) }
        ensures err { OnErr result (seen_by self.new ≡ seen_by self.old) }
        ensures kind { kind_of self.new ≡ kind_of self.old }
        ensures limit { limit_of self.new ≡ limit_of self.old };

    /// What the rule finds over the wires that it has seen. It changes nothing.
    fn finish(&mut self) -> Result<Findings, NoMemory>
        ensures findings { IfOk result (λ found.
            AreFindings (kind_of self.old) (limit_of self.old) (seen_by self.old) found) }
        ensures kind { kind_of self.new ≡ kind_of self.old }
        ensures limit { limit_of self.new ≡ limit_of self.old }
        ensures seen { seen_by self.new ≡ seen_by self.old };
}
