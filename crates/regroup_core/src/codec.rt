//! What stands between a record and the numbers in it.
ghost use Rattle.std.specs.Prelude.{◌≡◌};
ghost use Rattle.std.specs.Result.{result_map_both};

/// A text that a [`Codec`] returns.
pub trait Text {
    ghost use Rattle.std.specs.Prelude.{List, ℕ};

    ghost bytes: { Self → List ℕ };

    /// Returns the bytes of the text.
    fn as_bytes(&self) -> &[u8]
        ensures { result.now ≡ bytes self.now };
}

/// What the text of a field is converted by: a text becomes another text, or is refused.
pub trait Codec {
    ghost use Rattle.std.specs.Prelude.{List, Result, ℕ};

    type Text: Text + Drop;

    type Error: Drop;

    ghost converted: { Self → List ℕ → Result (List ℕ) Self.Error };

    /// Returns what a text becomes.
    ///
    /// # Errors
    ///
    /// Returns why the text is refused.
    fn convert(&self, text: &[u8]) -> Result<Self::Text, Self::Error>
        ensures { result_map_both Self.Text.bytes (λ error. error) result ≡ converted self.now text.now };
}
