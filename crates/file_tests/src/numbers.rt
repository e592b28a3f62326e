// Tests of the numbers and words by which output tells a file's refusal, and of the place that it carries.
use crate::desk::bad_file;
use lineup::FileFault::*;
use lineup::Refusal::*;
use lineup::*;
use std::test::Fail;

// The faults that a file can have.
static FAULTS: [(FileFault, u8); 7] = [
    (Flaw, 0),
    (Cause(OffSheet), 1),
    (Cause(Full), 2),
    (Cause(Twice), 3),
    (Cause(Blank), 4),
    (Cause(OutOfRange), 5),
    (Cause(Crowded), 6),
];

#[test]
fn each_fault_has_its_number(rt: HostRuntime) {
    for (i, &(fault, number)) in FAULTS.iter().enumerate() {
        assert_eq!(rt; fault.number(), number);
        // Two faults are equal only if they are one.
        for (j, &(other, _)) in FAULTS.iter().enumerate() {
            assert_eq!(rt; fault == other, i == j, "{number} beside fault {j}");
        }
    }
}

#[test]
fn a_refusal_has_its_number_its_word_and_its_place(rt: HostRuntime) -> Result<(), Fail> {
    for &(fault, number) in &FAULTS {
        for place in [0, 1, 98, usize::MAX] {
            let refusal = bad_file(place, fault);
            assert_eq!(rt; refusal.number(), 13);
            assert_eq!(rt; refusal.word(), "bad file");
            assert_eq!(rt; refusal.to_string(rt.alloc())?.as_str(), "bad file");
            let FileRefusal::BadFile { place: told, fault } = refusal;
            assert_eq!(rt; told, place);
            assert_eq!(rt; fault.number(), number);
        }
    }
    Ok(())
}

#[test]
fn refusals_differ_by_place_and_by_fault(rt: HostRuntime) {
    assert_ne!(rt; bad_file(4, Flaw), bad_file(5, Flaw));
    assert_ne!(rt; bad_file(4, Flaw), bad_file(4, Cause(OffSheet)));
    assert_ne!(rt; bad_file(4, Cause(Full)), bad_file(4, Cause(Twice)));
    assert_eq!(rt; bad_file(4, Cause(Full)), bad_file(4, Cause(Full)));
}
