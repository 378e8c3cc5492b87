//! Names, found by hash.

ghost use Rattle.std.specs.Prelude.{◌≡◌, ◌==◌, ◌++◌, ◌∷◌, [], OnErr, IfOk, IfSome, not, length, ◌<◌, if◌then◌else◌, slice_get, Some};
ghost use Rattle.dp_base.specs.Results.{Answers, AnswersBy};
ghost use Rattle.dypdl_nodes.specs.Reads.{told};
ghost use Rattle.dypdl_nodes.specs.Shapes.{texts, is_among};
ghost use Rattle.dypdl_data.specs.Names.{is_word_name, is_transition_name, name_by, new_name, number_named, known_name, known_key};

use crate::words::{is_transition_name, is_word_name};
use dypdl_nodes::rules::{BAD_NAME, TWICE_NAME, UNKNOWN_NAME};
use dypdl_nodes::{LoadEnd, refused, text_of};
use indexmap::IndexSet;
use std::alloc::{AllocFailed, Global};
use std::marker::Model;
use yaml_tree::Tree;

/// Different names in the order in which they came, which contracts see as a list of texts. A name's number is its place
/// in the list.
#[derive(Drop)]
pub struct Names<'a> {
    set: IndexSet<&'a str>,
}

impl<'a> Model for Names<'a> {
    ghost use Rattle.std.specs.Prelude.{List, ℕ};
    ghost use Rattle.dypdl_nodes.specs.Shapes.{texts};

    ghost Value = { List (List ℕ) };

    ghost view = { λ n. texts n.set.keys };
}

impl<'a> Names<'a> {
    pub fn new(alloc: Global) -> Names<'a>
        ensures { result ≡ [] }
    {
        Names {
            set: IndexSet::new(alloc),
        }
    }

    /// How many there are.
    pub fn len(&self) -> usize
        ensures { result ≡ length self.now }
    {
        self.set.len()
    }

    /// Whether there is none.
    pub fn is_empty(&self) -> bool
        ensures { result ≡ (length self.now == 0) }
    {
        self.set.is_empty()
    }

    /// The name with this number.
    #[tactic(auto, using(crate::proofs::Texts::text_at))]
    pub fn word(&self, number: usize) -> &'a str
        requires { number < length self.now }
        ensures { slice_get self.now number ≡ Some result.now }
    {
        match self.set.get_index(number) {
            Some(word) => *word,
            None => unreachable!(),
        }
    }

    /// The number of a word.
    #[tactic(auto, using(crate::proofs::Texts::position_texts))]
    pub fn number(&self, word: &str) -> Option<usize>
        ensures number { result ≡ number_named self.now word.now }
        ensures within { IfSome result (λ i. i < length self.now) }
    {
        self.set.get_index_of(word)
    }

    /// Whether a word is one of these.
    #[tactic(auto, using(crate::proofs::Texts::among_texts))]
    pub fn has(&self, word: &str) -> bool
        ensures { result ≡ is_among self.now word.now }
    {
        self.set.contains(word)
    }

    /// Adds a word, if it is none of these, and says whether it was not.
    #[tactic(auto, using(crate::proofs::Texts::among_texts))]
    pub fn add(&mut self, word: &'a str) -> Result<bool, AllocFailed<&'a str>>
        ensures fresh { IfOk result (λ fresh. fresh ≡ not (is_among self.old word.now)) }
        ensures added { IfOk result (λ fresh. self.new ≡ (if fresh then self.old ++ word.now ∷ [] else self.old)) }
        ensures err { OnErr result (self.new ≡ self.old) }
    {
        Ok(self.set.insert(word)?)
    }

    /// Takes a name that is none of these. `BAD_NAME` where it is no name, and then `TWICE_NAME`.
    pub fn take(&mut self, tree: &'a Tree) -> Result<&'a str, LoadEnd>
        ensures name { AnswersBy told (λ word. word.now) result (new_name self.old tree.now) }
        ensures added { IfOk result (λ word. self.new ≡ self.old ++ word.now ∷ []) }
    {
        let word = word_name(tree)?;
        if !self.add(word)? {
            return Err(refused(TWICE_NAME, tree.place()));
        }
        Ok(word)
    }

    /// The number of the name that a scalar is. `UNKNOWN_NAME` where it is none of these.
    pub fn known(&self, tree: &Tree) -> Result<usize, LoadEnd>
        ensures number { Answers told result (known_name self.now tree.now) }
        ensures within { IfOk result (λ i. i < length self.now) }
    {
        match self.number(text_of(tree)?) {
            Some(number) => Ok(number),
            None => Err(refused(UNKNOWN_NAME, tree.place())),
        }
    }

    /// The number of the name that a key is. The rule that is given where it is none of these, a list or a map too.
    pub fn known_key(&self, rule: u8, key: &Tree) -> Result<usize, LoadEnd>
        ensures number { Answers told result (known_key rule self.now key.now) }
        ensures within { IfOk result (λ i. i < length self.now) }
    {
        let Some(word) = key.text() else {
            return Err(refused(rule, key.place()));
        };
        match self.number(word.as_text()) {
            Some(number) => Ok(number),
            None => Err(refused(rule, key.place())),
        }
    }
}

/// The name of an object type, a variable, a table or a parameter. `BAD_NAME` where a scalar is none.
pub fn word_name(tree: &Tree) -> Result<&str, LoadEnd>
    ensures { AnswersBy told (λ word. word.now) result (name_by is_word_name tree.now) }
{
    let word = text_of(tree)?;
    if !is_word_name(word) {
        return Err(refused(BAD_NAME, tree.place()));
    }
    Ok(word)
}

/// The name of a transition. `BAD_NAME` where a scalar is none.
pub fn transition_name(tree: &Tree) -> Result<&str, LoadEnd>
    ensures { AnswersBy told (λ text. text.now) result (name_by is_transition_name tree.now) }
{
    let text = text_of(tree)?;
    if !is_transition_name(text) {
        return Err(refused(BAD_NAME, tree.place()));
    }
    Ok(text)
}
