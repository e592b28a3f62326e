// Packing: the spots of a group renumbered by their order within another group.
// Both loops pick the lowest spot of a mask by its trailing zeros, a required form (docs/DECISIONS.md), and take it off. An iterator over the spots
// of a mask would be a type with laws of its own for two loops of a few lines, and a chain over all 32 spots would take 32 turns.
ghost use Rattle.std.specs.Prelude.{◌≡◌};
ghost use Rattle.terms.specs.Packing.{packed, unpacked};

// The spots of the group among those of the mask, the lowest spot of the mask numbered 0, the next one 1, and so on.
pub fn pack(mask: u32, group: u32) -> u32
    ensures { result ≡ packed mask group }
{
    let mut index = 0;
    let mut place = 0u32;
    let mut left = mask;
    while left != 0 {
        let lowest = left.trailing_zeros();
        index += ((group >> lowest) & 1) << place;
        place += 1;
        left &= left - 1;
    }
    index
}

// The group of spots of the mask that packing makes the index of.
pub fn unpack(mask: u32, index: u32) -> u32
    ensures { result ≡ unpacked mask index }
{
    let mut group = 0;
    let mut digits = index;
    let mut left = mask;
    while left != 0 {
        let lowest = left.trailing_zeros();
        group += (digits & 1) << lowest;
        digits >>= 1;
        left &= left - 1;
    }
    group
}
