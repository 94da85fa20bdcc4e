// What clocks and variables are worth: the tick at which each clock was zeroed last, and the value of each variable.
// Past the end both count as 0.
#[derive(Clone, Copy)]
pub struct Valuation<'a> {
    pub zeroed: &'a [u32],
    pub values: &'a [i16],
}
