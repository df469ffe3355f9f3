//! What keeps the tables of a desk.
ghost use Rattle.store_api.specs.Sight.{Sight};

/// What keeps the tables of a desk, and what may be said of it.
pub trait Kept {
    // What a stop leaves.
    ghost Content: { Type 0 };

    // What may be said of it.
    ghost sight: { Sight Self Content };
}
