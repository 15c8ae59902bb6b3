//! Elements with keys.

ghost use Rattle.std.specs.Prelude.{◌≡◌, ℕ, List};

/// What has a key, by which it is compared with others.
pub trait Keyed {
    /// The key.
    ghost key_of: { Self → List ℕ };

    /// The key, lent.
    fn key(&self) -> &[u32]
        ensures { result.now ≡ key_of self.now };
}
