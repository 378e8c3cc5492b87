//! The ground transitions that are not forced, each with the membership that is tested first and the values of its parameters.

ghost use Rattle.std.specs.Prelude.{◌≡◌, ◌≤◌, IfOk, length, map};
ghost use Rattle.packed_words.specs.Scenes.{AreSmall};
ghost use Rattle.packed_spots.specs.Values.{in_four};
ghost use Rattle.spot_eval.specs.Moves.{others_of};
ghost use Rattle.successors.specs.Candidates.{candidate_of, first_membership};

use dp_model::{Model, Over};
use packed_spots::in_words;
use std::alloc::{AllocError, Global};

/// A value that has to be a member of the set that a variable holds.
#[derive(Clone, Copy)]
pub struct Membership {
    pub variable: u32,
    pub member: u32,
}

/// A ground transition that is not forced. Where its first parameter ranges over a set variable, `first` is that membership:
/// where it fails, the transition is not enabled. The values of its parameters stand in words, as a scene has them, and are
/// followed by zeros.
#[derive(Clone, Copy)]
pub struct Candidate {
    pub number: u32,
    pub first: Option<Membership>,
    pub values: [u64; 4],
}

fn first_membership(params: &[Over], args: &[u32]) -> Option<Membership>
    ensures { result ≡ first_membership params.now args.now }
{
    match (params.first(), args.first()) {
        (Some(Over::Members(variable)), Some(member)) => Some(Membership {
            variable: *variable,
            member: *member,
        }),
        _ => None,
    }
}

/// The values of the parameters of a candidate, in words.
#[inline(always)]
#[tactic(auto, using(packed_spots::proofs::Values::four))]
pub(crate) fn words_given<'c>(candidate: &'c Candidate, args: &[u32]) -> &'c [u64]
    requires few { length args.now ≤ 4 }
    requires words { candidate.now.values ≡ in_four args.now }
    ensures values { result.now ≡ args.now }
    ensures small { AreSmall result.now }
{
    &candidate.values[..args.len()]
}

#[tactic(auto, using(packed_spots::proofs::Rooms::few_values))]
fn asked_candidate(model: &Model, number: u32) -> Candidate
    ensures { result ≡ candidate_of model.now number }
{
    match model.step(number) {
        Some((transition, args)) => Candidate {
            number,
            first: first_membership(transition.params().list(), args.list()),
            values: in_words(args.list()),
        },
        None => Candidate {
            number,
            first: None,
            values: [0; 4],
        },
    }
}

/// The ground transitions that are not forced, in order of definition.
pub(crate) fn candidates_of(alloc: Global, model: &Model) -> Result<Vec<Candidate>, AllocError>
    ensures { IfOk result (λ candidates. candidates.items ≡ map (candidate_of model.now) (others_of model.now)) }
{
    let numbers = spot_eval::others_of(alloc, model)?;
    let mut candidates = Vec::with_capacity(alloc, numbers.len())?;
    for number in &numbers {
        candidates.push(asked_candidate(model, *number))?;
    }
    Ok(candidates)
}
