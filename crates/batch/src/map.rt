// What a survey finds of the messages, for speed alone: chunks of them, and hints.

// A stretch of messages; with 0 in place of `from`, none.
// Kept: in `judge` all lies on the stack, within 64 KB; 112 Options of a chunk would not fit.
#[derive(Clone, Copy)]
pub struct Chunk {
    // Where it starts, where its second half does, and where it ends.
    pub from: usize,
    pub mid: usize,
    pub over: usize,
    // Its first and its last message in message order.
    pub least: usize,
    pub most: usize,
}

// The messages up to some place, surveyed.
#[derive(Drop)]
pub struct Map {
    pub chunks: [Chunk; 112],
    // Messages in message order; 0 for none, kept as in a chunk.
    pub hints: [usize; 960],
    // How many hints there are, and how many a batch may reach over.
    pub held: usize,
    pub step: usize,
}
