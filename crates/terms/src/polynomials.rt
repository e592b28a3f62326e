// Terms: the products of which a pseudo-Boolean polynomial is the sum.

// A coefficient times a product of spots: it counts where all spots of the group run, and is worth nothing elsewhere.
// Bit i of the group stands for spot i. The default, which is worth nothing, fills the unused places of a list.
#[derive(Clone, Copy, PartialEq, Eq, Debug, Default)]
pub struct Term {
    pub coefficient: i32,
    pub group: u32,
}
