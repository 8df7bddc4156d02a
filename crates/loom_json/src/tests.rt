ghost use Rattle.std.specs.Prelude.{[], ◌∷◌, Ok, codes};
ghost use Rattle.serde_json.specs.Data.{string, number, unsigned, object, no_members, put};
ghost use Rattle.loom_base.specs.First.{◌>>=◌};
ghost use Rattle.loom_json.specs.Forms.{keyed as keyed_at, at_key as key_at, name_form, number_form};

use crate::forms::{self, Form, ListForm, NameForm, NumberForm};
use crate::shown::{self, Shown};
use crate::{JsonStop, ShapeStop, elements, line, member, name, number, only, read_value};
use loom_base::{List, Name, NoMemory};
use serde_json::{Map, Value};
use std::alloc::Global;
use std::test::Fail;

/// A price on a shelf.
#[derive(Drop)]
struct Tag {
    name: Name,
    price: u64,
}

struct TagForm;

impl Form for TagForm {
    type Out = Tag;

    ghost reads = { λ d. do
      checked ← keyed_at (codes "name" ∷ codes "price" ∷ []) d
      name ← key_at name_form (codes "name") d
      price ← key_at (number_form 1 9) (codes "price") d
      Ok (record { name = name; price = price }) };

    fn read(alloc: Global, value: &Value) -> Result<Tag, ShapeStop> {
        forms::keyed(alloc, value, &["name", "price"])?;
        let name = forms::at_key::<NameForm>(alloc, value, "name")?;
        let price = forms::at_key::<NumberForm<1, 9>>(alloc, value, "price")?;
        Ok(Tag { name, price })
    }
}

impl Shown for TagForm {
    type Of = Tag;

    ghost shows = { λ tag. object
        (put (codes "price") (number (unsigned tag.price))
        (put (codes "name") (string tag.name) no_members)) };

    fn value(alloc: Global, tag: &Tag) -> Result<Value, NoMemory> {
        let name = NameForm::value(alloc, &tag.name)?;
        let members = shown::with(alloc, Map::new(alloc), "name", name)?;
        let members = shown::with(alloc, members, "price", Value::from(tag.price))?;
        Ok(Value::Object(members))
    }
}

/// What a text is read as: how many tags, or the path of the first place that is none.
fn reading_of(alloc: Global, text: &[u8]) -> Result<String, Fail> {
    let value = read_value(alloc, text)?;
    match ListForm::<TagForm>::read(alloc, &value) {
        Ok(tags) => Ok(format!(in alloc; "{} tags", tags.len())?),
        Err(ShapeStop::WrongShape { path }) => Ok(String::from_str(alloc, path.as_str())?),
        Err(ShapeStop::NoMemory) => Err(Fail::new("out of memory")),
    }
}

#[test]
fn forms_give_the_first_path(rt: HostRuntime) -> Result<(), Fail> {
    let alloc = rt.alloc();
    let cases = [
        (
            b"[{\"name\":\"a\",\"price\":9},{\"price\":1,\"name\":\"b\"}]" as &[u8],
            "2 tags",
        ),
        (b"{}", ""),
        (b"[{\"name\":\"a\",\"price\":9},{\"price\":1}]", "/1/name"),
        (b"[{\"name\":\"a\",\"price\":10}]", "/0/price"),
        (b"[{\"name\":\"a b\",\"price\":10}]", "/0/name"),
        (b"[{\"name\":\"a b\",\"prize\":10}]", "/0"),
    ];
    for (text, wanted) in cases {
        let found = reading_of(alloc, text)?;
        assert!(rt; found.as_str() == wanted, "{wanted}");
    }
    Ok(())
}

/// The line of a tag.
fn line_of(alloc: Global, tag: &Tag) -> Result<List<u8>, NoMemory> {
    let value = TagForm::value(alloc, tag)?;
    line(alloc, &value)
}

#[test]
fn what_is_read_is_shown(rt: HostRuntime) -> Result<(), Fail> {
    let alloc = rt.alloc();
    let value = read_value(
        alloc,
        b"[{\"name\":\"x.1\",\"price\":2},{\"price\":9,\"name\":\"_\"}]",
    )?;
    let tags = forms::list::<TagForm>(alloc, &value)?;
    assert!(rt; ListForm::<TagForm>::value(alloc, &tags)? == value);
    let lines = [
        b"{\"name\":\"x.1\",\"price\":2}\n".as_slice(),
        b"{\"name\":\"_\",\"price\":9}\n",
    ];
    for (tag, wanted) in tags.as_slice().iter().zip(lines) {
        assert!(rt; line_of(alloc, tag)?.as_slice() == wanted);
    }
    Ok(())
}

#[test]
fn values_are_looked_into(rt: HostRuntime) -> Result<(), Fail> {
    let alloc = rt.alloc();
    assert!(rt; matches!(read_value(alloc, b"{} {}"), Err(JsonStop::NotJson)));
    assert!(rt; matches!(read_value(alloc, b"\"\xff\""), Err(JsonStop::NotJson)));
    let value = read_value(alloc, b" {\"b\": [1.0, 5, -1], \"a\": \"n\"} ")?;
    assert!(rt; only(&value, &["a", "b"]));
    assert!(rt; !only(&value, &["b"]));
    assert!(rt; member(&value, "a").is_some_and(|found| name(found).is_some()));
    let found = member(&value, "b").and_then(elements).unwrap_or(&[]);
    assert_eq!(rt; found.len(), 3);
    for (element, wanted) in found.iter().zip([None, Some(5), None]) {
        assert_eq!(rt; number(element, 5, 5), wanted);
        assert_eq!(rt; number(element, 6, 9), None);
    }
    Ok(())
}

/// The path of a refusal, or nothing.
fn path_of<X: Drop>(alloc: Global, reading: Result<X, ShapeStop>) -> Result<String, Fail> {
    match reading {
        Err(ShapeStop::WrongShape { path }) => Ok(String::from_str(alloc, path.as_str())?),
        Err(ShapeStop::NoMemory) => Err(Fail::new("out of memory")),
        Ok(_) => Ok(String::new(alloc)),
    }
}

#[test]
fn elements_are_read_by_position(rt: HostRuntime) -> Result<(), Fail> {
    let alloc = rt.alloc();
    let value = read_value(alloc, b"[\"price\",5]")?;
    let found = elements(&value).ok_or("an array")?;
    assert!(rt; forms::is_tagged(found, "price", 2));
    assert!(rt; !forms::is_tagged(found, "price", 1));
    assert!(rt; !forms::is_tagged(found, "prize", 2));
    let read = forms::at_index::<NumberForm<5, 6>>(alloc, found, 1)?;
    assert_eq!(rt; read, 5);
    let beyond = forms::at_index::<NumberForm<5, 6>>(alloc, found, 2);
    assert!(rt; path_of(alloc, beyond)?.as_str() == "/2");
    let another = forms::at_index::<NumberForm<6, 7>>(alloc, found, 1);
    assert!(rt; path_of(alloc, another)?.as_str() == "/1");
    Ok(())
}
