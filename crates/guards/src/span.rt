// The ticks from low to high, both among them; none where high is below low.
#[derive(Clone, Copy)]
pub struct Span {
    pub low: u32,
    pub high: u32,
}
