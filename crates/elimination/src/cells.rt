// The cells of a spot.
ghost use Rattle.std.specs.Prelude.{◌≡◌, ◌^◌};
ghost use Rattle.terms.specs.Groups.{size};

// How many cells a spot with this link set has. An inner call: the crates that read a choice table step by it.
pub fn cell_count(links: u32) -> usize
    ensures { result ≡ 2 ^ size links }
{
    1 << links.count_ones()
}
