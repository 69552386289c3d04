use crate::support::{expect, is_written};
use kd_classes::{Boot, ClassDef, ClassFault, Classes, OptionData, OptionList};
use kd_wire::Bytes;
use std::alloc::{AllocError, Global};
use std::test::Fail;

// Adds a definition without options.
fn define(alloc: Global, list: &mut Vec<ClassDef>, name: &[u8]) -> Result<(), AllocError> {
    list.push(ClassDef {
        name: Bytes::own(Vec::from_slice(alloc, name)?),
        test: None,
        options: OptionList::own(Vec::new(alloc)),
        boot: Boot::none(),
        lifetime: None,
    })?;
    Ok(())
}

// Makes `count` definitions, each named by its number, or each by 0.
fn many(alloc: Global, count: u16, are_alike: bool) -> Result<Vec<ClassDef>, AllocError> {
    let mut list = Vec::new(alloc);
    define_many(alloc, &mut list, count, are_alike)?;
    Ok(list)
}

// Adds those definitions.
fn define_many(
    alloc: Global,
    list: &mut Vec<ClassDef>,
    count: u16,
    are_alike: bool,
) -> Result<(), AllocError> {
    for number in 0..count {
        let name = if are_alike { 0 } else { number };
        define(alloc, list, &name.to_be_bytes())?;
    }
    Ok(())
}

// Returns how many classes such definitions are.
fn count(list: Vec<ClassDef>) -> Result<usize, ClassFault> {
    Ok(Classes::new(list)?.len())
}

// A configuration's list of classes is refused before it has this many.
#[test]
fn there_are_at_most_256_definitions(rt: HostRuntime) -> Result<(), Fail> {
    assert!(rt; count(many(rt.alloc(), 256, false)?) == Ok(256));
    assert!(rt; count(many(rt.alloc(), 257, false)?) == Err(ClassFault::TooMany));
    // The fault comes before any other.
    assert!(rt; count(many(rt.alloc(), 257, true)?) == Err(ClassFault::TooMany));
    Ok(())
}

// A configuration prints the names of these faults inside those of others, without their numbers,
// and never prints the last.
#[test]
fn faults_have_their_numbers(rt: HostRuntime) -> Result<(), Fail> {
    assert!(rt; ClassFault::Duplicate(7).number() == 60);
    assert!(rt; ClassFault::UnknownMember(255).number() == 61);
    assert!(rt; ClassFault::TooMany.number() == 62);
    assert!(rt; is_written(rt.alloc(), ClassFault::TooMany, "TooMany")?);
    Ok(())
}

// Adds an option to a list.
fn put_option(
    alloc: Global,
    options: &mut Vec<OptionData>,
    code: u8,
    value: &[u8],
) -> Result<(), AllocError> {
    let value = Bytes::own(Vec::from_slice(alloc, value)?);
    options.push(OptionData {
        code,
        value,
        always: false,
    })?;
    Ok(())
}

// Makes a list of two options.
fn two_options(alloc: Global) -> Result<OptionList, AllocError> {
    let mut options = Vec::new(alloc);
    put_two(alloc, &mut options)?;
    Ok(OptionList::own(options))
}

// Adds those two.
fn put_two(alloc: Global, options: &mut Vec<OptionData>) -> Result<(), AllocError> {
    put_option(alloc, options, 3, b"\x0a\x00\x00\x01")?;
    put_option(alloc, options, 6, b"")
}

// Checks those options.
fn expect_two(options: &[OptionData]) -> Result<(), Fail> {
    let [first, second] = options else {
        return Err("two options".into());
    };
    expect((first.code, second.code) == (3, 6), "the codes")?;
    let want = b"\x0a\x00\x00\x01".as_slice();
    expect(first.value.as_slice() == want, "the first value")
}

#[test]
fn a_list_gives_its_options_back(rt: HostRuntime) -> Result<(), Fail> {
    let options = two_options(rt.alloc())?.into_vec();
    expect_two(&options)
}
