// What a row has at a moment.
use crate::stand::Stand;

// What the calls narrow, and what a mark keeps of it.
#[derive(Clone, Copy)]
pub struct Moment {
    // for each part the set of the hatchings that may stand there
    pub palettes: [u32; 60],
    // the set of the results that are allowed
    pub results: u64,
    pub stand: Stand,
}
