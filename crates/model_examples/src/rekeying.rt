//! A key that an account gets in place of another.
ghost use Rattle.model_examples.specs.{KeyChanges.KeysAreChanged, KeyChanges.KeysAreFree};

/// Which keys an account may get, and which it may be opened by (RFC 8555, 7.3.5).
pub fn keys_are_free()
    ensures { KeysAreFree }
{}

/// A request for another key, and what waits under the key before it (RFC 8555, 7.3.5).
pub fn keys_are_changed()
    ensures { KeysAreChanged }
{}
