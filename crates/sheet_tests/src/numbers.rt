// Tests of the numbers and words by which files and output name refusals and relations.
use lineup::Refusal::*;
use lineup::*;
use std::test::Fail;

static REFUSALS: [(Refusal, u8, &str); 12] = [
    (OffSheet, 1, "off sheet"),
    (Full, 2, "full"),
    (Twice, 3, "twice"),
    (Blank, 4, "blank"),
    (OutOfRange, 5, "out of range"),
    (Crowded, 6, "crowded"),
    (NotLive, 7, "not live"),
    (TooWide, 8, "too wide"),
    (Short, 9, "short"),
    (NoLineUp, 10, "no line-up"),
    (NotListed, 11, "not listed"),
    (OddLength, 12, "odd length"),
];

#[test]
fn each_refusal_has_its_number_and_word(rt: HostRuntime) -> Result<(), Fail> {
    for &(refusal, number, word) in &REFUSALS {
        assert_eq!(rt; refusal.number(), number);
        assert_eq!(rt; refusal.word(), word);
        assert_eq!(rt; refusal.to_string(rt.alloc())?.as_str(), word);
    }
    Ok(())
}

#[test]
fn relations_have_the_numbers_0_to_2(rt: HostRuntime) {
    for (number, relation) in [
        (0, Relation::Equal),
        (1, Relation::AtMost),
        (2, Relation::AtLeast),
    ] {
        assert_eq!(rt; Relation::try_from(number), Ok(relation));
        assert_eq!(rt; relation.number(), number);
    }
    for number in 3..=u8::MAX {
        assert_eq!(rt; Relation::try_from(number), Err(OutOfRange));
    }
}
