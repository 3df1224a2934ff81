//! The first class, and what it links to with one of its bytes changed.

use crate::answers::Shown::{self, Above, Constants, Counts, Fields, Whole};
use crate::answers::answer;
use crate::files::{Unlinked, file_of};
use crate::reading::linked_files;
use jx_base::System;
use std::alloc::Global;
use std::test::Fail;
use test_files::HELLO_CLASS;

// The system of the class Hello with a byte changed.
fn linked_with(alloc: Global, at: usize, byte: u8) -> Result<System, Unlinked> {
    let mut bytes = HELLO_CLASS;
    if let Some(place) = bytes.get_mut(at) {
        *place = byte;
    }
    let file = file_of(alloc, bytes.as_slice())?;
    linked_files(alloc, "Hello", vec![in alloc; file]?)
}

// The place of the byte, what stands there then, what is shown of the system, and the answer.
static CASES: [(usize, u8, Shown, &str); 17] = [
    // nothing is changed
    (180, 9, Counts, "30 80 37"),
    (180, 9, Above(27), "0"),
    (180, 9, Fields(27), "/"),
    (180, 9, Constants(27), "9='hi' 15=M45"),
    // the names of the class, its super, main, the class that is called, and its method
    (14, b'a', Whole, "9 Hello Hallo"),
    (24, b'k', Whole, "1 Hello kava/lang/Object"),
    (47, b'o', Whole, "5 Hello main"),
    (97, b'a', Whole, "1 Hello jx/Zaro"),
    (108, b'a', Whole, "3 Hello prant"),
    (121, b'k', Whole, "3 Hello print"),
    // main isn't static
    (158, 1, Whole, "5 Hello main"),
    // what ldc loads: a Class, a Utf8, a Methodref, no constant, and the index behind the last one
    (180, 11, Whole, "8 Hello 11"),
    (180, 8, Whole, "8 Hello 8"),
    (180, 15, Whole, "8 Hello 15"),
    (180, 0, Whole, "8 Hello 0"),
    (180, 16, Whole, "8 Hello 16"),
    // an InterfaceMethodref for invokestatic
    (140, 11, Whole, "8 Hello 15"),
];

#[test]
fn the_first_class_is_linked_or_has_its_first_fault(rt: HostRuntime) -> Result<(), Fail> {
    let alloc = rt.alloc();
    for (at, byte, shown, due) in &CASES {
        let answer = answer(alloc, linked_with(alloc, *at, *byte), *shown)?;
        assert_eq!(rt; answer.as_str(), *due, "byte {at}");
    }
    Ok(())
}
