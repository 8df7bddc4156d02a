use loom_base::{Branch, List, Name, Pins, Price};
use loom_formula::Formula;
use loom_project::TerminalDraft;

/// A change of one thing of a project. Things are addressed by their names, rules by their
/// positions. What is added comes behind the last of its list, and a removal closes up the list.
#[derive(Drop)]
pub enum Edit {
    AddOption {
        name: Name,
    },
    /// Refused where a formula names the option.
    RemoveOption {
        name: Name,
    },
    AddRule {
        when: Formula,
    },
    /// Removes the rule at this position.
    RemoveRule {
        number: u64,
    },
    AddNode {
        name: Name,
        harness: Name,
        branch: Branch,
    },
    /// Refused where a segment or a cavity names the node.
    RemoveNode {
        name: Name,
    },
    AddRun {
        name: Name,
        from: Name,
        to: Name,
        length: Price,
        bars: List<Name>,
    },
    AddCoupler {
        name: Name,
        from: Name,
        to: Name,
        price: Price,
        pins: Pins,
        bars: List<Name>,
        reserved: List<u16>,
    },
    /// Removes a run or a coupler.
    RemoveSegment {
        name: Name,
    },
    AddCavity {
        name: Name,
        device: Name,
        node: Name,
    },
    /// Refused where a net names the cavity.
    RemoveCavity {
        name: Name,
    },
    AddNet {
        name: Name,
        class: Name,
        terminals: List<TerminalDraft>,
    },
    RemoveNet {
        name: Name,
    },
    /// Adds a terminal behind the net's last one.
    AddTerminal {
        net: Name,
        cavity: Name,
        when: Formula,
    },
    RemoveTerminal {
        net: Name,
        cavity: Name,
    },
    /// Gives a run another length.
    SetLength {
        name: Name,
        length: Price,
    },
    /// Gives a coupler another price.
    SetPrice {
        name: Name,
        price: Price,
    },
    /// Gives a coupler another number of pins.
    SetPins {
        name: Name,
        pins: Pins,
    },
    /// Gives a node another branch cost.
    SetBranch {
        name: Name,
        branch: Branch,
    },
    /// Gives a terminal of the net another formula.
    SetWhen {
        net: Name,
        cavity: Name,
        when: Formula,
    },
    /// Gives a net another class.
    SetClass {
        name: Name,
        class: Name,
    },
    /// Gives a run or a coupler other bars.
    SetBars {
        name: Name,
        bars: List<Name>,
    },
    /// Gives a coupler other reserved pins.
    SetReserved {
        name: Name,
        reserved: List<u16>,
    },
}
