//! The files that a job names.

ghost use Rattle.std.specs.Prelude.{◌≡◌, ◌≤◌, ◌⊎◌, ◌∷◌, [], ℕ, List, length, IfOk, IfErr, IfSome};
ghost use Rattle.dp_outside.specs.Outside.{Rose};
ghost use Rattle.solve_top.specs.Files.{IsText, IsLong, AreTexts};
ghost use Rattle.solve_top.specs.Runs.{IsUnread};
ghost use Rattle.solve_top.specs.declared.causes.NoModel.TheVariants as causes;

use crate::causes::NoModel;
use dp_base::{FILE_LIMIT, Text};
use dp_outside::{ReadEnd, Shelf, read_all};
use std::alloc::Global;

/// The texts of a domain and a problem.
#[derive(Debug, Drop)]
pub struct BothTexts {
    pub domain: Vec<u8>,
    pub problem: Vec<u8>,
}

/// Reads a file, which has this number.
pub fn read_file<F: Shelf>(
    alloc: Global,
    shelf: &mut F,
    name: &Text,
    file: u8,
) -> Result<Vec<u8>, NoModel>
    ensures text { IfOk result (λ v. IsText (F.bytes_under shelf.old name.now) v.items) }
    ensures short { IfOk result (λ v. length v.items ≤ 16777216) }
    ensures cause { IfErr result (λ e. (e ≡ causes.ReadFault file) ⊎ ((e ≡ causes.TooLong file) × IfSome (F.bytes_under shelf.old name.now) IsLong) ⊎ (e ≡ causes.Memory)) }
    ensures fault { IfErr result (λ e. e ≡ causes.ReadFault file → Rose (F.faults shelf.old) (F.faults shelf.new)) }
    ensures count { F.faults shelf.old ≤ F.faults shelf.new }
    ensures telling { (other : List ℕ) → F.bytes_under shelf.new other ≡ F.bytes_under shelf.old other }
{
    match read_all(alloc, shelf, name.as_text(), FILE_LIMIT as u64) {
        Ok(bytes) => Ok(bytes),
        Err(ReadEnd::Fault) => Err(NoModel::ReadFault(file)),
        Err(ReadEnd::TooLong) => Err(NoModel::TooLong(file)),
        Err(ReadEnd::Memory) => Err(NoModel::Memory),
    }
}

/// Reads the domain, and then the problem.
pub fn read_both<F: Shelf>(
    alloc: Global,
    shelf: &mut F,
    domain: &Text,
    problem: &Text,
) -> Result<BothTexts, NoModel>
    ensures texts { IfOk result (λ t. AreTexts (F.bytes_under shelf.old) (domain.now ∷ problem.now ∷ []) (t.domain.items ∷ t.problem.items ∷ [])) }
    ensures cause { IfErr result (IsUnread (F.bytes_under shelf.old) (domain.now ∷ problem.now ∷ [])) }
    ensures fault { (file : ℕ) → IfErr result (λ e. e ≡ causes.ReadFault file → Rose (F.faults shelf.old) (F.faults shelf.new)) }
    ensures count { F.faults shelf.old ≤ F.faults shelf.new }
    ensures telling { (other : List ℕ) → F.bytes_under shelf.new other ≡ F.bytes_under shelf.old other }
{
    let domain = read_file(alloc, shelf, domain, 1)?;
    let problem = read_file(alloc, shelf, problem, 2)?;
    Ok(BothTexts { domain, problem })
}
