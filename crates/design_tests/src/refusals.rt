//! What is said of a design that is refused.
use design::fault::{Complaint, Fault};
use report::run::{Form, answer_design};
use std::alloc::{AllocError, Global};
use std::process::Abort;
use std::test::Fail;

/// A design, and what is said of it.
#[derive(Clone, Copy)]
struct Case<'a> {
    text: &'a str,
    said: &'a str,
}

fn complaint(heap: Global, fault: Fault) -> Result<String, AllocError> {
    let told = Complaint { file: "d", fault };
    format!(in heap; "{told}")
}

// What is said of a design; the answers of one that is not refused.
fn said_of(heap: Global, text: &str) -> Result<String, AllocError> {
    match answer_design(heap, text, Form::Facts) {
        Ok(answers) => Ok(answers),
        Err(fault) => complaint(heap, fault),
    }
}

fn refuse(rt: &impl Abort, heap: Global, case: Case) -> Result<(), Fail> {
    let said = said_of(heap, case.text)?;
    assert_eq!(rt; said.as_str(), case.said);
    Ok(())
}

#[test]
fn words(rt: HostRuntime) -> Result<(), Fail> {
    let cases = [
        Case {
            text: "layout dense 2\n\n# next\n lay dense 2",
            said: "d:4: `lay` is unknown, expected layout, find, number, place, from or trans",
        },
        Case {
            text: "open 0 constant",
            said: "d:1: `open` lines are not read yet, expected layout, find, number, place, from or trans",
        },
        Case {
            text: "fn sin/1 0",
            said: "d:1: `fn` lines are not read yet, expected layout, find, number, place, from or trans",
        },
        Case {
            text: "layout",
            said: "d:1: the line ends here, expected dense, diagonal or sparse",
        },
        Case {
            text: "layout cube 3",
            said: "d:1: `cube` is unknown, expected dense, diagonal or sparse",
        },
        Case {
            text: "find # 0",
            said: "d:1: the line ends here, expected the number of a layout, from 0",
        },
    ];
    for case in cases {
        refuse(&rt, rt.alloc(), case)?;
    }
    Ok(())
}

#[test]
fn numbers(rt: HostRuntime) -> Result<(), Fail> {
    let cases = [
        Case {
            text: "layout dense 2 x",
            said: "d:1: `x` is no number here, expected the length of an axis, 1 to 4,096",
        },
        Case {
            text: "layout dense 18446744073709551616",
            said: "d:1: `18446744073709551616` is out of range, expected the length of an axis, 1 to 4,096",
        },
        Case {
            text: "layout sparse 3 : 65536",
            said: "d:1: `65536` is out of range, expected an entry of 0 to 65,535",
        },
        Case {
            text: "layout sparse 3 : -1",
            said: "d:1: `-1` is no number here, expected an entry of 0 to 65,535",
        },
        Case {
            text: "find 0 9223372036854775808",
            said: "d:1: `9223372036854775808` is out of range, expected an entry that fits 64 bits with a sign",
        },
        Case {
            text: "number 0 -9223372036854775809",
            said: "d:1: `-9223372036854775809` is out of range, expected an entry that fits 64 bits with a sign",
        },
        Case {
            text: "place 0 18446744073709551616",
            said: "d:1: `18446744073709551616` is out of range, expected the number of a place, which fits 64 bits",
        },
        Case {
            text: "place 0",
            said: "d:1: the line ends here, expected the number of a place, which fits 64 bits",
        },
        Case {
            text: "place 0 1 2",
            said: "d:1: `2` is a word too many, expected the end of the line",
        },
    ];
    for case in cases {
        refuse(&rt, rt.alloc(), case)?;
    }
    Ok(())
}

#[test]
fn places(rt: HostRuntime) -> Result<(), Fail> {
    let cases = [
        Case {
            text: "layout dense 2 : 0",
            said: "d:1: `:` is out of place, expected the end of the line",
        },
        Case {
            text: "layout dense 2 , 3",
            said: "d:1: `,` is out of place, expected the length of an axis, 1 to 4,096",
        },
        Case {
            text: "layout sparse 3 3",
            said: "d:1: the line ends here, expected `:` and the places",
        },
        Case {
            text: "layout sparse 3 3 : 0 : 1",
            said: "d:1: `:` is out of place, expected an entry of 0 to 65,535",
        },
        Case {
            text: "layout sparse 3 3 : 0 0 , 1",
            said: "d:1: place 1 has 1 entry, expected 2 entries, one for each axis",
        },
        Case {
            text: "layout sparse 3 : 0 ,",
            said: "d:1: place 1 has 0 entries, expected 1 entry, one for each axis",
        },
        Case {
            text: "layout sparse 3 3 : 0 0 0 2",
            said: "d:1: place 0 goes on with `0`, expected `,` or the end of the line",
        },
        Case {
            text: "layout sparse : 0",
            said: "d:1: `0` is a word too many, expected the end of the line",
        },
        Case {
            text: "find 0 1 2 3 4 5",
            said: "d:1: the index has 5 entries, expected at most 4 entries",
        },
        Case {
            text: "find 0 1\nlayout dense 2 2",
            said: "d:1: the index has 1 entry, expected 2 entries, one for each axis",
        },
    ];
    for case in cases {
        refuse(&rt, rt.alloc(), case)?;
    }
    Ok(())
}

#[test]
fn rules(rt: HostRuntime) -> Result<(), Fail> {
    let cases = [
        Case {
            text: "layout dense\nlayout dense 1 1 1 1 1",
            said: "d:2: layout 1: a dense layout must have 0 to 4 axes",
        },
        Case {
            text: "layout diagonal",
            said: "d:1: layout 0: a diagonal layout must have 1 to 4 axes",
        },
        Case {
            text: "layout sparse 1 1 1 1 1 : 0 0 0 0 0",
            said: "d:1: layout 0: a sparse layout must have 1 to 4 axes",
        },
        Case {
            text: "layout dense 4097",
            said: "d:1: layout 0: each axis must have a length of 1 to 4,096",
        },
        Case {
            text: "layout sparse 0 : 0",
            said: "d:1: layout 0: each axis must have a length of 1 to 4,096",
        },
        Case {
            text: "layout dense 4096 17",
            said: "d:1: layout 0: a layout must have 1 to 65,536 places",
        },
        Case {
            text: "layout sparse 2 :",
            said: "d:1: layout 0: a layout must have 1 to 65,536 places",
        },
        Case {
            text: "layout diagonal 2 3",
            said: "d:1: layout 0: the axes of a diagonal layout must be of one length",
        },
        Case {
            text: "layout sparse 2 2 : 0 2",
            said: "d:1: layout 0: each place must be inside the shape",
        },
        Case {
            text: "layout sparse 2 2 : 0 1 , 0 1",
            said: "d:1: layout 0: each place must come before the next one",
        },
    ];
    for case in cases {
        refuse(&rt, rt.alloc(), case)?;
    }
    Ok(())
}
