// Tests of spaces that are too short for a file, just long enough, and longer.
use crate::breaks::break_a;
use crate::desk::*;
use crate::limits::longest_file;
use lineup::*;
use std::alloc::Global;
use std::process::Abort;
use std::test::Fail;

// The sheet needs so many bytes. A space that is shorter stays as it was, and a longer one does so beyond the file.
fn assert_needs<R: Abort>(rt: &R, heap: Global, sheet: &Locked, need: usize) -> Result<(), Fail> {
    let mut whole = vec![in heap; 0; need]?;
    assert_eq!(rt; write(sheet, &mut whole), Ok(need));
    for room in need.saturating_sub(2)..=need.saturating_add(2) {
        let mut space = vec![in heap; UNWRITTEN; room]?;
        let answer = write(sheet, &mut space);
        if room < need {
            assert_eq!(rt; answer, Err(Refusal::Short), "{room} of {need}");
            assert!(rt;
                space.iter().all(|byte| *byte == UNWRITTEN),
                "{room} of {need}"
            );
        } else {
            assert_eq!(rt; answer, Ok(need), "{room} of {need}");
            assert_eq!(rt;
                space.get(..need),
                Some(whole.as_slice()),
                "{room} of {need}"
            );
            let beyond = space.iter().skip(need);
            assert!(rt;
                beyond.copied().all(|byte| byte == UNWRITTEN),
                "{room} of {need}"
            );
        }
    }
    Ok(())
}

#[test]
fn a_file_is_written_where_there_is_space(rt: HostRuntime) -> Result<(), Fail> {
    let heap = rt.alloc();
    assert_needs(&rt, heap, &Draft::new().lock(), 0)?;
    let mut one = Draft::new();
    assert_eq!(rt; one.declare(7), Ok(0));
    assert_needs(&rt, heap, &one.lock(), 5)?;
    assert_needs(&rt, heap, &break_a(&rt).lock(), 99)?;
    let mut longest = Draft::new();
    assert_eq!(rt; read(&mut longest, &longest_file(heap)?), Ok(()));
    assert_needs(&rt, heap, &longest.lock(), MOST_FILE)
}

#[test]
fn no_space_at_all_is_short(rt: HostRuntime) {
    let sheet = break_a(&rt).lock();
    assert_eq!(rt; write(&sheet, &mut []), Err(Refusal::Short));
}
