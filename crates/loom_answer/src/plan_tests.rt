use crate::parse_plan;
use crate::plans::PlanShown;
use crate::projects::SegmentDraftShown;
use loom_base::{List, Name, Price};
use loom_json::shown::Shown;
use loom_json::{ShapeStop, read_value};
use loom_project::SegmentDraft;
use loom_topology::Kind;
use serde_json::Value;
use std::alloc::Global;
use std::test::Fail;

/// A plan of two rows, two sets, a table, a pin and five wires.
const PLAN: &str = "{\"modules\":[{\"harness\":0,\"row\":1,\"wires\":[0]},\
     {\"harness\":1,\"row\":3,\"wires\":[1,3,4]},{\"harness\":1,\"row\":2,\"wires\":[2]}],\
     \"pins\":[{\"coupler\":0,\"net\":0,\"ordinal\":1,\"pin\":1}],\
     \"rows\":[[0,1,0],[0,0,1]],\
     \"sets\":[{\"cost\":110,\"hangs\":[2],\"mask\":3,\"net\":0,\"row\":2,\
     \"steps\":[[0,0],[1,1]]},\
     {\"cost\":175,\"hangs\":[2,3],\"mask\":7,\"net\":0,\"row\":3,\
     \"steps\":[[0,0],[1,1],[1,2]]}],\
     \"tables\":[{\"cells\":[[110,100,0,160],[70,60,160,null],[175,165,165,165]],\"net\":0}],\
     \"wires\":[{\"from\":[\"cavity\",0],\"length\":0,\"net\":0,\"route\":[],\"row\":1,\
     \"to\":[\"pin\",0,1,1]},\
     {\"from\":[\"cavity\",1],\"length\":100,\"net\":0,\"route\":[1],\"row\":3,\
     \"to\":[\"splice\",1,1]},\
     {\"from\":[\"cavity\",1],\"length\":100,\"net\":0,\"route\":[1],\"row\":2,\
     \"to\":[\"pin\",0,1,2]},\
     {\"from\":[\"cavity\",2],\"length\":60,\"net\":0,\"route\":[2],\"row\":3,\
     \"to\":[\"splice\",1,1]},\
     {\"from\":[\"splice\",1,1],\"length\":0,\"net\":0,\"route\":[],\"row\":3,\
     \"to\":[\"pin\",0,1,2]}]}";

/// The value of the plan's text, once the first `old` text in it is another.
fn plan_with(alloc: Global, old: &str, new: &str) -> Result<Value, Fail> {
    let text = PLAN.replacen(alloc, old, new, 1)?;
    Ok(read_value(alloc, text.as_bytes())?)
}

/// The path of the first place that isn't of its form, or that the plan is printed as it was.
fn told(alloc: Global, value: &Value) -> Result<String, Fail> {
    match parse_plan(alloc, value) {
        Ok(plan) => {
            let printed = PlanShown::value(alloc, &plan)?;
            let word = if printed == *value {
                "the same"
            } else {
                "another"
            };
            Ok(String::from_str(alloc, word)?)
        }
        Err(ShapeStop::WrongShape { path }) => Ok(String::from_str(alloc, path.as_str())?),
        Err(ShapeStop::NoMemory) => Err(Fail::new("out of memory")),
    }
}

/// A change of the plan's text, and what is then told.
struct Case {
    old: &'static str,
    new: &'static str,
    told: &'static str,
}

const CASES: &[Case] = &[
    Case {
        old: "",
        new: "",
        told: "the same",
    },
    Case {
        old: "[0,1,0]",
        new: "[0,1,2]",
        told: "/rows/0",
    },
    Case {
        old: "[0,0,1]",
        new: "[0,0]",
        told: "/rows/1",
    },
    Case {
        old: "[0,0,1]",
        new: "[0,9,-1]",
        told: "/rows/1/2",
    },
    Case {
        old: "[\"pin\",0,1,1]",
        new: "[\"pin\",-1,1]",
        told: "/wires/0/to",
    },
    Case {
        old: "[\"pin\",0,1,1]",
        new: "[\"pin\",0,65536,1]",
        told: "/wires/0/to/2",
    },
    Case {
        old: "160,null]",
        new: "160]",
        told: "/tables/0/cells/1",
    },
    Case {
        old: "[70,60",
        new: "[70,1099511627777",
        told: "/tables/0/cells/1/1",
    },
    Case {
        old: "\"pin\":1",
        new: "\"pins\":1",
        told: "/pins/0",
    },
];

#[test]
fn a_plan_is_read_back_or_its_first_fault_is_told(rt: HostRuntime) -> Result<(), Fail> {
    let alloc = rt.alloc();
    for case in CASES {
        let value = plan_with(alloc, case.old, case.new)?;
        assert!(rt; told(alloc, &value)?.as_str() == case.told, "{}", case.told);
    }
    Ok(())
}

/// A run of ten millimetres that bars a class.
fn barred_run(alloc: Global) -> Result<SegmentDraft, Fail> {
    let class = Name::parse(b"power").ok_or("a name")?;
    Ok(SegmentDraft {
        name: Name::parse(b"S1").ok_or("a name")?,
        from: Name::parse(b"N1").ok_or("a name")?,
        to: Name::parse(b"N2").ok_or("a name")?,
        kind: Kind::Run {
            length: Price::new(10).ok_or("a length")?,
        },
        bars: List::from_slice(alloc, &[class])?,
        reserved: List::new(alloc),
    })
}

#[test]
fn the_second_version_prints_bars(rt: HostRuntime) -> Result<(), Fail> {
    let alloc = rt.alloc();
    let run = barred_run(alloc)?;
    let first = read_value(
        alloc,
        b"{\"from\":\"N1\",\"length\":10,\"name\":\"S1\",\"to\":\"N2\"}",
    )?;
    assert!(rt; SegmentDraftShown::<false>::value(alloc, &run)? == first);
    let second = read_value(
        alloc,
        b"{\"bars\":[\"power\"],\"from\":\"N1\",\"length\":10,\"name\":\"S1\",\"to\":\"N2\"}",
    )?;
    assert!(rt; SegmentDraftShown::<true>::value(alloc, &run)? == second);
    Ok(())
}
