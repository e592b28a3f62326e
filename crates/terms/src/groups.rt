// Groups of spots as bit sets: bit i of the number stands for spot i.
ghost use Rattle.std.specs.Prelude.{◌≡◌};
ghost use Rattle.terms.specs.Groups.{beyond, tops};

// Whether the group holds a spot whose number is `spots` or more.
pub fn is_beyond(group: u32, spots: usize) -> bool
    ensures { result ≡ beyond spots group }
{
    spots < 32 && group >> spots != 0
}

// Whether this spot is the highest of the group.
pub fn is_highest(group: u32, spot: usize) -> bool
    ensures { result ≡ tops spot group }
{
    group != 0 && 31 - group.leading_zeros() as usize == spot
}
