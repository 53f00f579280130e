//! Labels, and rows that have them.

use crate::objects::ident;
use sml_lex::fault::Memory;
use sml_objects::comparisons::same_type;
use sml_objects::labels::Labels;
use sml_objects::objects::{Initial, MlType, TyName};
use std::alloc::Global;
use std::rc::Rc;
use std::test::Fail;

/// The labels of a text, with spaces between them, if they rise.
fn labels(alloc: Global, text: &str) -> Result<Option<Labels>, Memory> {
    let mut list = Vec::new(alloc);
    for label in text.split(' ') {
        list.push(ident(alloc, label)?)?;
    }
    Ok(Labels::from_list(list).ok())
}

#[test]
fn numbers_come_before_other_labels(rt: HostRuntime) -> Result<(), Fail> {
    let labels = labels(rt.alloc(), "2 10 A a")?.ok_or("labels that rise")?;
    assert_eq!(rt; labels.as_slice().len(), 4);
    assert!(rt; !labels.are_numbered());
    for (label, place) in [("10", Some(1)), ("a", Some(3)), ("b", None)] {
        assert_eq!(rt; labels.position(label.as_bytes()), place);
    }
    for (label, field) in [("10", Some(8)), ("a", None)] {
        assert_eq!(rt; labels.field(&[7, 8, 9], label.as_bytes()).copied(), field);
    }
    Ok(())
}

#[test]
fn labels_that_fall_are_refused(rt: HostRuntime) -> Result<(), Fail> {
    for text in ["10 2", "a A", "a a"] {
        assert!(rt; labels(rt.alloc(), text)?.is_none(), "{text}");
    }
    Ok(())
}

#[test]
fn labels_of_a_tuple_are_numbers(rt: HostRuntime) -> Result<(), Fail> {
    let labels = Labels::numbered(rt.alloc(), 12)?;
    assert!(rt; labels.are_numbered());
    for (label, place) in [("1", Some(0)), ("12", Some(11)), ("0", None)] {
        assert_eq!(rt; labels.position(label.as_bytes()), place);
    }
    for (count, same) in [(12, true), (11, false)] {
        assert_eq!(rt;
            labels.are_same(&Labels::numbered(rt.alloc(), count)?),
            same
        );
    }
    Ok(())
}

/// The row of one field, `int`.
fn row(alloc: Global, labels: Labels) -> Result<MlType, Memory> {
    let int = MlType::Name(TyName::Initial(Initial::Int), Vec::new(alloc));
    let mut parts = Vec::new(alloc);
    parts.push(Rc::new(alloc, int)?)?;
    Ok(MlType::Row(Rc::new(alloc, labels)?, parts))
}

#[test]
fn rows_have_their_labels(rt: HostRuntime) -> Result<(), Fail> {
    let alloc = rt.alloc();
    let named = labels(alloc, "a")?.ok_or("one label")?;
    let one = row(alloc, Labels::numbered(alloc, 1)?)?;
    let same = row(alloc, Labels::numbered(alloc, 1)?)?;
    let other = row(alloc, named)?;
    assert!(rt; same_type(&one, &same));
    assert!(rt; !same_type(&one, &other));
    Ok(())
}
