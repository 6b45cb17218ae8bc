// A layer's pool of frames, and the buffers that runs of them are lent to.
#![tactic(auto)]

mod pool;

pub use pool::Pool;
