// The two kinds of place. They are different types, so that a listing can't show the one for the other.
ghost use Rattle.std.specs.Prelude.{◌≡◌};
ghost use Rattle.capture.specs.Places.{file_onward, stream_onward};

// A place in the capture file: so many of its bytes stand before it.
#[derive(Clone, Copy)]
pub struct FilePlace(pub u64);

// A place in the stream that the capture holds.
#[derive(Clone, Copy)]
pub struct StreamPlace(pub u64);

// Kept: a method of each, not of a trait, which would have more lines than the two.
impl FilePlace {
    // The place n bytes behind, or the last one that 64 bits can count.
    #[tactic(auto, unfolding(crate::specs::Places::onward, crate::specs::Places::file_onward))]
    pub(crate) fn onward(self, n: usize) -> FilePlace
        ensures { result ≡ file_onward self n }
    {
        FilePlace(self.0.saturating_add(n as u64))
    }
}

impl StreamPlace {
    // The same of the stream.
    #[tactic(auto, unfolding(crate::specs::Places::onward, crate::specs::Places::stream_onward))]
    pub(crate) fn onward(self, n: usize) -> StreamPlace
        ensures { result ≡ stream_onward self n }
    {
        StreamPlace(self.0.saturating_add(n as u64))
    }
}
