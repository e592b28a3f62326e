// Tests of what the ratings make of prices and figures.
use fewest_clashes::FewestClashes;
use lineup::*;

// An amount, whether its group runs, and the figure of the price under takings, mildest and fewest clashes.
static PRICES: [(i32, bool, u64, u32, u32); 10] = [
    (7, true, 7, 7, 1),
    (7, false, 0, 0, 0),
    (-7, true, 0, 0, 0),
    (-7, false, 7, 0, 0),
    (0, true, 0, 0, 0),
    (0, false, 0, 0, 0),
    (1_000_000, true, 1_000_000, 1_000_000, 1),
    (-1_000_000, false, 1_000_000, 0, 0),
    (i32::MIN, false, 2_147_483_648, 0, 0),
    (i32::MAX, true, 2_147_483_647, 2_147_483_647, 1),
];

#[test]
fn a_price_has_its_figure(rt: HostRuntime) {
    for &(amount, runs, takings, mildest, clashes) in &PRICES {
        assert_eq!(rt; Count.price(amount, runs), 1, "{amount} {runs}");
        assert_eq!(rt; Takings.price(amount, runs), takings, "{amount} {runs}");
        assert_eq!(rt; Mildest.price(amount, runs), mildest, "{amount} {runs}");
        assert_eq!(rt;
            FewestClashes.price(amount, runs),
            clashes,
            "{amount} {runs}"
        );
    }
}

#[test]
fn sums_are_held_and_counts_wrap(rt: HostRuntime) {
    assert_eq!(rt; Takings.together(3, 4), 7);
    assert_eq!(rt; Takings.together(u64::MAX, 1), u64::MAX);
    assert_eq!(rt; FewestClashes.together(3, 4), 7);
    assert_eq!(rt; FewestClashes.together(u32::MAX, 1), u32::MAX);
    assert_eq!(rt; Mildest.together(3, 4), 4);
    assert_eq!(rt; Count.together(3, 4), 12);
    assert_eq!(rt; Count.together(1 << 32, 1 << 32), 0);
    assert_eq!(rt; Count.choice(u64::MAX, 2), 1);
}

#[test]
fn of_equal_figures_the_first_is_chosen(rt: HostRuntime) {
    for (a, b) in [(3, 4), (4, 4), (4, 3)] {
        assert_eq!(rt; Takings.first(a, b), a >= b);
        assert_eq!(rt; Takings.choice(a, b), a.max(b));
    }
    for (a, b) in [(3, 4), (4, 4), (4, 3)] {
        assert_eq!(rt; Mildest.first(a, b), a <= b);
        assert_eq!(rt; Mildest.choice(a, b), a.min(b));
        assert_eq!(rt; FewestClashes.first(a, b), a <= b);
        assert_eq!(rt; FewestClashes.choice(a, b), a.min(b));
    }
}
