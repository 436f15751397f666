ghost use Rattle.std.specs.Prelude.{◌≡◌, ◌<◌, ◌^◌, List, length};

/// A value with a history, which is a list of items, and an origin, which is data that it was made with.
pub trait Chronicle {
    /// The items of the history.
    type Item;
    /// The data that the value was made with, as contracts see it.
    type Origin;

    ghost history: { Self → List Self.Item };

    ghost origin: { Self → Self.Origin };

    /// The number of items in the history.
    fn count(&self) -> u64
        ensures length { result ≡ length (history self.now) }
        ensures below { result < 2 ^ 32 };
}
