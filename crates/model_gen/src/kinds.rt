//! The kinds of models that are generated.

ghost use Rattle.std.specs.Prelude.{◌≡◌};
ghost use Rattle.model_gen.specs.Kinds.{kind_named, least_size, most_size};

/// What a generated model is about.
#[derive(Clone, Copy, Debug, PartialEq, Eq)]
pub enum GenKind {
    /// A path of steps of length one or two. Its size is the number of nodes.
    Path,
    /// A knapsack. Its size is the number of items.
    Pack,
    /// A round tour. Its size is the number of towns.
    Tour,
}

impl GenKind {
    /// The kind of a name.
    pub fn named(name: &str) -> Option<GenKind>
        ensures { result ≡ kind_named name.now }
    {
        match name {
            "path" => Some(GenKind::Path),
            "pack" => Some(GenKind::Pack),
            "tour" => Some(GenKind::Tour),
            _ => None,
        }
    }

    /// The least size of such a model.
    pub fn least_size(&self) -> u32
        ensures { result ≡ least_size self.now }
    {
        match self {
            GenKind::Path | GenKind::Pack => 1,
            GenKind::Tour => 2,
        }
    }

    /// The greatest size of such a model.
    pub fn most_size(&self) -> u32
        ensures { result ≡ most_size self.now }
    {
        match self {
            GenKind::Path => 1_000,
            GenKind::Pack => 200,
            GenKind::Tour => 12,
        }
    }
}
