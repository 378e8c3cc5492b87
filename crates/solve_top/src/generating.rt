//! Models that are generated.

ghost use Rattle.std.specs.Prelude.{◌≡◌, ◌≤◌, IfOk, IfErr};
ghost use Rattle.model_gen.specs.Kinds.{least_size, most_size};
ghost use Rattle.model_gen.specs.Texts.{domain_text, problem_text};
ghost use Rattle.solve_top.specs.Outcomes.{kind_text};
ghost use Rattle.solve_top.specs.Runs.{RefusedBy};
ghost use Rattle.solve_top.specs.Texts.{IsRefused, Means};

use crate::causes::NoModel;
use crate::texts::model_of;
use dp_base::FILE_LIMIT;
use dp_model::Model;
use model_gen::{GenKind, generate};
use std::alloc::Global;

/// The word that names a kind of models.
pub fn kind_name(kind: GenKind) -> &'static str
    ensures { result.now ≡ kind_text kind }
{
    match kind {
        GenKind::Path => "path",
        GenKind::Pack => "pack",
        GenKind::Tour => "tour",
    }
}

/// The model that generated texts mean. Texts of more bytes than a file may have are written for no size that can be asked for: the
/// answer is want of memory.
pub fn generate_model(alloc: Global, kind: GenKind, size: u32, seed: u64) -> Result<Model, NoModel>
    requires least { least_size kind ≤ size }
    requires most { size ≤ most_size kind }
    ensures model { IfOk result (Means (domain_text kind) (problem_text kind size seed)) }
    ensures cause { IfErr result (RefusedBy (IsRefused (domain_text kind) (problem_text kind size seed))) }
{
    let Ok((domain, problem)) = generate(alloc, kind, size, seed) else {
        return Err(NoModel::Memory);
    };
    if domain.len() > FILE_LIMIT || problem.len() > FILE_LIMIT {
        return Err(NoModel::Memory);
    }
    model_of(alloc, &domain, &problem)
}
