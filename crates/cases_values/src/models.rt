//! The model of the cases, and the parameters that are in force in them.

use dp_base::{FILE_LIMIT, Seq, Text};
use dp_model::{Model, Over};
use dypdl_load::load;
use dypdl_type::Scope;
use std::alloc::{AllocError, Global};
use yaml_tree::{Tree, read};

/// The tree of a text, if it is one and memory lasts.
fn tree_of(alloc: Global, file: u8, text: &str) -> Option<Tree> {
    if text.len() > FILE_LIMIT {
        return None;
    }
    read(alloc, file, text.as_bytes()).ok()
}

/// The model of two texts, if they have one and memory lasts.
pub(crate) fn model_of(alloc: Global, domain: &str, problem: &str) -> Option<Model> {
    let domain = tree_of(alloc, 1, domain)?;
    let problem = tree_of(alloc, 2, problem)?;
    load(alloc, &domain, &problem).ok()
}

fn push_param(alloc: Global, scope: &mut Scope<'_>, name: &str) -> Result<(), AllocError> {
    let name = Text::of(String::from_str(alloc, name)?);
    scope.push_param(alloc, &name, Over::Object(0))
}

/// The names of a model, and the parameters `p` and `q`, which range over its first object type.
pub(crate) fn scope(alloc: Global, model: &Model) -> Result<Scope<'_>, AllocError> {
    let mut scope = Scope::new(alloc, model.objects(), model.variables(), model.tables())?;
    push_param(alloc, &mut scope, "p")?;
    push_param(alloc, &mut scope, "q")?;
    Ok(scope)
}

/// The values of `p` and `q`.
pub(crate) fn args(alloc: Global) -> Result<Seq<u32>, AllocError> {
    Ok(Seq::of(Vec::from_slice(alloc, &[1, 2])?))
}
