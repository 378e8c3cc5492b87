//! What holds of all texts.

ghost use Rattle.std.specs.Prelude.{◌≡◌, ◌⊎◌, ℕ, List};
ghost use Rattle.yaml_tree.specs.Texts.{Spells, Refused};
ghost use Rattle.yaml_tree.specs.declared.tree.Tree.{Tree};
ghost use Rattle.yaml_tree.specs.declared.tree.YamlEnd.{YamlEnd};

/// A law: a text spells at most one tree, one that spells a tree has no refusal, and none has two.
pub fn one_reading()
    ensures one_tree { (file : ℕ) (text : List ℕ) (a b : Tree)
        → Spells file text a → Spells file text b → a ≡ b }
    ensures no_refusal { (file : ℕ) (text : List ℕ) (tree : Tree) (e : YamlEnd)
        → Spells file text tree → Refused file text e → ⊥ }
    ensures one_refusal { (file : ℕ) (text : List ℕ) (e f : YamlEnd)
        → Refused file text e → Refused file text f → e ≡ f }
{}

/// A law: each text spells a tree or has a first refusal.
pub fn some_reading()
    ensures { (file : ℕ) (text : List ℕ)
        → ((tree : Tree) × Spells file text tree) ⊎ ((e : YamlEnd) × Refused file text e) }
{}
