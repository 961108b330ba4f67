// What the program has of its outside.

/// What a run reads, writes and asks. A run takes it and hands it back, since no clause tells what threads write
/// through a borrow.
#[derive(Drop)]
pub struct Outside<S, K, E, N, C, P> {
    pub input: S,
    pub output: K,
    pub errors: E,
    pub listener: N,
    pub clock: C,
    pub spawner: P,
}
