//! Letters that name their sender.
ghost use Rattle.std.specs.Prelude.{◌≡◌, ℕ, List, [], ◌++◌};

/// A letter that names its sender, and which lists of one sender's letters are lawful under given terms.
pub trait Signed: Drop {
    /// What the letters speak of, as a model.
    type Terms;

    ghost lawful: { Self.Terms → List Self → Type 0 };

    ghost sender_of: { Self → ℕ };

    /// The number of the letter's sender.
    fn sender(&self) -> u32
        ensures { result ≡ sender_of self.now };

    /// The empty list is lawful.
    ghost starts: { (terms : Self.Terms) → lawful terms [] };

    /// Each beginning of a lawful list is lawful.
    ghost begins: { (terms : Self.Terms) (xs ys : List Self) → lawful terms (xs ++ ys) → lawful terms xs };
}
