// A source that gives one byte at a time.

use login_edge::{Got, Source};

/// A source that hands on the bytes of another one, each by itself.
#[derive(Drop)]
pub struct OneByOne<S: Source> {
    source: S,
}

impl<S: Source> OneByOne<S> {
    /// The bytes of this source.
    pub fn new(source: S) -> OneByOne<S> {
        OneByOne { source }
    }
}

impl<S: Source> Source for OneByOne<S> {
    ghost left = { λ s. S.left s.source };

    ghost faults = { λ s. S.faults s.source };

    ghost remaining = { λ s. S.remaining s.source };

    fn read(&mut self, buf: &mut [u8]) -> Got {
        self.source.read(&mut buf[..1])
    }
}
