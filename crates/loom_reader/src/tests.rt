use crate::{Document, Entry, ReadFault, Want, read};
use loom_edits::Edit;
use std::alloc::Global;
use std::test::Fail;

/// Two nodes, a run between them, a cavity at each, and a net of both cavities.
const SMALL: &str = "{\"version\":1,\"project\":{\"options\":[],\"rules\":[],\
     \"nodes\":[{\"name\":\"N1\",\"harness\":\"H\",\"branch\":0},\
     {\"name\":\"N2\",\"harness\":\"H\",\"branch\":0}],\
     \"segments\":[{\"name\":\"S1\",\"from\":\"N1\",\"to\":\"N2\",\"length\":700}],\
     \"cavities\":[{\"name\":\"C1\",\"device\":\"D\",\"node\":\"N1\"},\
     {\"name\":\"C2\",\"device\":\"D\",\"node\":\"N2\"}],\
     \"nets\":[{\"name\":\"W1\",\"terminals\":[\
     {\"cavity\":\"C1\",\"when\":true},{\"cavity\":\"C2\",\"when\":true}]}]}}";

/// A document of the second version: a coupler that bars a class and reserves a pin.
const SECOND: &str = "{\"version\":2,\"project\":{\"options\":[],\"rules\":[],\
     \"nodes\":[{\"name\":\"N1\",\"harness\":\"H\",\"branch\":0},\
     {\"name\":\"N2\",\"harness\":\"K\",\"branch\":0}],\
     \"segments\":[{\"name\":\"X1\",\"from\":\"N1\",\"to\":\"N2\",\"price\":5,\"pins\":3,\
     \"bars\":[\"power\"],\"reserved\":[3]}],\
     \"cavities\":[{\"name\":\"C1\",\"device\":\"D\",\"node\":\"N1\"},\
     {\"name\":\"C2\",\"device\":\"D\",\"node\":\"N2\"}],\
     \"nets\":[{\"name\":\"W1\",\"class\":\"data\",\"terminals\":[\
     {\"cavity\":\"C1\",\"when\":true},{\"cavity\":\"C2\",\"when\":true}]}]}}";

/// What the small document is read as, once the first `old` text in it is another.
fn small_with(
    alloc: Global,
    old: &str,
    new: &str,
    want: Want,
) -> Result<Result<Document, ReadFault>, Fail> {
    let text = SMALL.replacen(alloc, old, new, 1)?;
    Ok(read(alloc, text.as_bytes(), want))
}

/// The path of a refusal, or what else came.
fn told(alloc: Global, reading: Result<Document, ReadFault>) -> Result<String, Fail> {
    match reading {
        Ok(document) => summary(alloc, &document),
        Err(ReadFault::WrongShape { path }) => Ok(String::from_str(alloc, path.as_str())?),
        Err(ReadFault::NotJson) => Ok(String::from_str(alloc, "no JSON")?),
        Err(ReadFault::Project(_)) => Ok(String::from_str(alloc, "no sound project")?),
        Err(ReadFault::Limit { .. }) => Ok(String::from_str(alloc, "too many")?),
        Err(ReadFault::NoMemory) => Err(Fail::new("out of memory")),
    }
}

/// How many limits, edits and rules a document has.
fn summary(alloc: Global, document: &Document) -> Result<String, Fail> {
    let limits = document.limits.len();
    let rules = document.project.rules().len();
    let edits = document.entries.len();
    Ok(format!(in alloc; "{limits} limits, {edits} edits, {rules} rules")?)
}

/// A change of the small document, and what is then told.
struct Case {
    old: &'static str,
    new: &'static str,
    told: &'static str,
}

const CASES: &[Case] = &[
    Case {
        old: "}]}]}}",
        new: "}]}]}",
        told: "no JSON",
    },
    Case {
        old: "\"version\":1",
        new: "\"version\":3",
        told: "/version",
    },
    Case {
        old: "\"version\":1",
        new: "\"version\":2",
        told: "/project/segments/0/bars",
    },
    Case {
        old: "\"branch\":0}",
        new: "\"branch\":0,\"x\":1}",
        told: "/project/nodes/0",
    },
    Case {
        old: "\"length\":700",
        new: "\"length\":1.0",
        told: "/project/segments/0/length",
    },
    Case {
        old: "\"length\":700",
        new: "\"price\":700",
        told: "/project/segments/0/pins",
    },
    Case {
        old: "\"rules\":[]",
        new: "\"rules\":[[\"not\",5]]",
        told: "/project/rules/0/1",
    },
    Case {
        old: "\"rules\":[]",
        new: "\"rules\":[[\"not\",5,6]]",
        told: "/project/rules/0",
    },
    Case {
        old: "\"rules\":[]",
        new: "\"rules\":[[\"and\"],[\"one\",true]]",
        told: "0 limits, 0 edits, 2 rules",
    },
    Case {
        old: "}]}]}}",
        new: "}]}]},\"limits\":[5],\"edits\":[{\"op\":\"price\"},{\"op\":\"undo\"}],\"plan\":0}",
        told: "1 limits, 2 edits, 0 rules",
    },
    Case {
        old: "}]}]}}",
        new: "}]}]},\"edits\":[{\"op\":\"cut\"}]}",
        told: "/edits/0/op",
    },
    Case {
        old: "}]}]}}",
        new: "}]}]},\"edits\":[{\"op\":\"set_bars\",\"name\":\"S1\",\"bars\":[]}]}",
        told: "/edits/0/op",
    },
    Case {
        old: "}]}]}}",
        new: "}]}]},\"edits\":[{\"op\":\"price\"},0]}",
        told: "/edits/1",
    },
    Case {
        old: "\"options\":[]",
        new: "\"options\":[\"A\",\"A\"]",
        told: "no sound project",
    },
];

#[test]
fn the_first_fault_in_reading_order_is_told(rt: HostRuntime) -> Result<(), Fail> {
    let alloc = rt.alloc();
    for case in CASES {
        let reading = small_with(alloc, case.old, case.new, Want::Plan)?;
        let found = told(alloc, reading)?;
        assert!(rt; found.as_str() == case.told, "{}", case.told);
    }
    Ok(())
}

/// What a document is read for, what it has behind its project, and what is then told.
struct WantCase {
    want: Want,
    more: &'static str,
    told: &'static str,
}

const WANT_CASES: &[WantCase] = &[
    WantCase {
        want: Want::Plan,
        more: ",\"choice\":0,\"plan\":0,\"between\":0}",
        told: "0 limits, 0 edits, 0 rules",
    },
    WantCase {
        want: Want::Extract,
        more: ",\"limits\":0,\"choice\":[\"A\",5]}",
        told: "/choice/1",
    },
    WantCase {
        want: Want::Check,
        more: ",\"choice\":0,\"plan\":{}}",
        told: "/plan/rows",
    },
];

#[test]
fn what_is_not_wanted_is_not_looked_at(rt: HostRuntime) -> Result<(), Fail> {
    let alloc = rt.alloc();
    for case in WANT_CASES {
        let mut more = String::from_str(alloc, "}]}]}")?;
        more.push_str(case.more)?;
        let reading = small_with(alloc, "}]}]}}", more.as_str(), case.want)?;
        let found = told(alloc, reading)?;
        assert!(rt; found.as_str() == case.told, "{}", case.told);
    }
    Ok(())
}

/// The lists of a document's first segment and its first net's class.
fn classes(alloc: Global, document: &Document) -> Result<String, Fail> {
    let draft = document.project.draft();
    let Some(segment) = draft.segments.get(0) else {
        return Err(Fail::new("no segment"));
    };
    let Some(net) = draft.nets.get(0) else {
        return Err(Fail::new("no net"));
    };
    let (bars, reserved) = (segment.bars.len(), segment.reserved.len());
    let class = net.class.as_str().len();
    Ok(format!(in alloc; "{bars} bars, {reserved} reserved, a class of {class} letters")?)
}

#[test]
fn the_second_version_has_classes(rt: HostRuntime) -> Result<(), Fail> {
    let alloc = rt.alloc();
    match read(alloc, SECOND.as_bytes(), Want::Plan) {
        Ok(document) => {
            let found = classes(alloc, &document)?;
            assert!(rt; found.as_str() == "1 bars, 1 reserved, a class of 4 letters");
            Ok(())
        }
        Err(_) => Err(Fail::new("not read")),
    }
}

/// The word of an entry and what it sets; another change is told as such.
fn entry_told(alloc: Global, entry: &Entry) -> Result<String, Fail> {
    match entry {
        Entry::Change(Edit::SetLength { name, length }) => {
            let (name, length) = (name.as_str(), length.get());
            Ok(format!(in alloc; "set_length {name} {length}; ")?)
        }
        Entry::Change(_) => Ok(String::from_str(alloc, "a change; ")?),
        Entry::Price => Ok(String::from_str(alloc, "price; ")?),
        Entry::Undo => Ok(String::from_str(alloc, "undo; ")?),
        Entry::Redo => Ok(String::from_str(alloc, "redo; ")?),
    }
}

/// The entries of a document, one behind the other.
fn entries_told(alloc: Global, document: &Document) -> Result<String, Fail> {
    let mut told = String::new(alloc);
    for entry in document.entries.as_slice() {
        let next = entry_told(alloc, entry)?;
        told.push_str(next.as_str())?;
    }
    Ok(told)
}

#[test]
fn entries_are_read_in_order(rt: HostRuntime) -> Result<(), Fail> {
    let alloc = rt.alloc();
    let edits = "}]}]},\"edits\":[\
         {\"op\":\"set_length\",\"name\":\"S1\",\"length\":800},{\"op\":\"undo\"},\
         {\"op\":\"price\"},{\"op\":\"redo\"},{\"op\":\"redo\"}]}";
    match small_with(alloc, "}]}]}}", edits, Want::Plan)? {
        Ok(document) => {
            let found = entries_told(alloc, &document)?;
            assert!(rt; found.as_str() == "set_length S1 800; undo; price; redo; redo; ");
            Ok(())
        }
        Err(_) => Err(Fail::new("not read")),
    }
}
