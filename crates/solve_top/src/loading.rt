//! What the files of a job mean.

ghost use Rattle.std.specs.Prelude.{◌≡◌, ◌≤◌, ◌<◌, ◌^◌, ◌∷◌, [], ℕ, List, length, IfOk, IfErr};
ghost use Rattle.dp_outside.specs.Outside.{Rose};
ghost use Rattle.solve_top.specs.Files.{OfTexts};
ghost use Rattle.solve_top.specs.Runs.{GiveNothing, RefusedBy};
ghost use Rattle.solve_top.specs.Texts.{AreRefused, Certificate, MeanCert, MeanModel, MeanSteps, Steps};
ghost use Rattle.solve_top.specs.declared.causes.NoModel.TheVariants as causes;

use crate::causes::NoModel;
use crate::files::{BothTexts, read_both, read_file};
use crate::texts::{cert_of, model_of, steps_of};
use cert_types::Cert;
use dp_base::Text;
use dp_model::{Model, Seq};
use dp_outside::Shelf;
use std::alloc::Global;

/// A model, and a list of steps of it.
#[derive(Debug, Drop)]
pub struct Listed {
    pub model: Model,
    pub steps: Seq<u32>,
}

/// Reads the domain and the problem, and loads the model that they mean.
pub fn load<F: Shelf>(
    alloc: Global,
    shelf: &mut F,
    domain: &Text,
    problem: &Text,
) -> Result<Model, NoModel>
    ensures model { IfOk result (λ model. OfTexts (F.bytes_under shelf.old) (domain.now ∷ problem.now ∷ []) (λ texts. MeanModel texts model)) }
    ensures cause { IfErr result (GiveNothing Steps (F.bytes_under shelf.old) (domain.now ∷ problem.now ∷ [])) }
    ensures fault { (file : ℕ) → IfErr result (λ e. e ≡ causes.ReadFault file → Rose (F.faults shelf.old) (F.faults shelf.new)) }
    ensures count { F.faults shelf.old ≤ F.faults shelf.new }
{
    let texts = read_both(alloc, shelf, domain, problem)?;
    model_of(alloc, &texts.domain, &texts.problem)
}

/// The model that the texts of a domain and a problem mean, and the steps that the text of a list means.
fn listed_of(alloc: Global, texts: &BothTexts, list: &[u8]) -> Result<Listed, NoModel>
    requires domain { length texts.now.domain.items ≤ 16777216 }
    requires problem { length texts.now.problem.items ≤ 16777216 }
    requires list { length list.now ≤ 16777216 }
    ensures steps { IfOk result (λ l. MeanSteps (texts.now.domain.items ∷ texts.now.problem.items ∷ list.now ∷ []) l.model l.steps) }
    ensures few { IfOk result (λ l. length l.steps < 2 ^ 32) }
    ensures cause { IfErr result (RefusedBy (AreRefused Steps (texts.now.domain.items ∷ texts.now.problem.items ∷ list.now ∷ []))) }
{
    let model = model_of(alloc, &texts.domain, &texts.problem)?;
    let steps = steps_of(alloc, &model, list)?;
    Ok(Listed { model, steps })
}

/// Reads the domain, the problem and the list, and loads the model and the steps that they mean.
pub fn load_listed<F: Shelf>(
    alloc: Global,
    shelf: &mut F,
    domain: &Text,
    problem: &Text,
    list: &Text,
) -> Result<Listed, NoModel>
    ensures steps { IfOk result (λ l. OfTexts (F.bytes_under shelf.old) (domain.now ∷ problem.now ∷ list.now ∷ []) (λ texts. MeanSteps texts l.model l.steps)) }
    ensures few { IfOk result (λ l. length l.steps < 2 ^ 32) }
    ensures cause { IfErr result (GiveNothing Steps (F.bytes_under shelf.old) (domain.now ∷ problem.now ∷ list.now ∷ [])) }
    ensures fault { (file : ℕ) → IfErr result (λ e. e ≡ causes.ReadFault file → Rose (F.faults shelf.old) (F.faults shelf.new)) }
    ensures count { F.faults shelf.old ≤ F.faults shelf.new }
{
    let both = read_both(alloc, shelf, domain, problem)?;
    let list = read_file(alloc, shelf, list, 3)?;
    listed_of(alloc, &both, &list)
}

/// A model, and a certificate over it.
#[derive(Debug, Drop)]
pub struct Claimed {
    pub model: Model,
    pub cert: Cert,
}

/// The model that the texts of a domain and a problem mean, and the certificate over it that a text has.
fn claimed_of(alloc: Global, texts: &BothTexts, text: &[u8]) -> Result<Claimed, NoModel>
    requires domain { length texts.now.domain.items ≤ 16777216 }
    requires problem { length texts.now.problem.items ≤ 16777216 }
    requires text { length text.now ≤ 16777216 }
    ensures cert { IfOk result (λ c. MeanCert (texts.now.domain.items ∷ texts.now.problem.items ∷ text.now ∷ []) c.model c.cert) }
    ensures cause { IfErr result (RefusedBy (AreRefused Certificate (texts.now.domain.items ∷ texts.now.problem.items ∷ text.now ∷ []))) }
{
    let model = model_of(alloc, &texts.domain, &texts.problem)?;
    let cert = cert_of(alloc, &model, text)?;
    Ok(Claimed { model, cert })
}

/// Reads the domain, the problem and the certificate, and loads the model and the certificate over it.
pub fn load_claimed<F: Shelf>(
    alloc: Global,
    shelf: &mut F,
    domain: &Text,
    problem: &Text,
    cert: &Text,
) -> Result<Claimed, NoModel>
    ensures cert { IfOk result (λ c. OfTexts (F.bytes_under shelf.old) (domain.now ∷ problem.now ∷ cert.now ∷ []) (λ texts. MeanCert texts c.model c.cert)) }
    ensures cause { IfErr result (GiveNothing Certificate (F.bytes_under shelf.old) (domain.now ∷ problem.now ∷ cert.now ∷ [])) }
    ensures fault { (file : ℕ) → IfErr result (λ e. e ≡ causes.ReadFault file → Rose (F.faults shelf.old) (F.faults shelf.new)) }
    ensures count { F.faults shelf.old ≤ F.faults shelf.new }
{
    let both = read_both(alloc, shelf, domain, problem)?;
    let text = read_file(alloc, shelf, cert, 3)?;
    claimed_of(alloc, &both, &text)
}
