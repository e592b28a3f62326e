// Prices of groups of spots.

// What is earned where the whole group runs. Bit i of the group stands for spot i. The default, which earns nothing, fills the unused places of a
// list.
#[derive(Clone, Copy, PartialEq, Eq, Debug, Default)]
pub struct Price {
    pub amount: i32,
    pub group: u32,
}
