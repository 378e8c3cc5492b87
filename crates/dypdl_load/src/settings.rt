//! What both files say before any part of a model: their keys, their names, and which cost is better.

ghost use Rattle.std.specs.Prelude.{◌≡◌, option_map};
ghost use Rattle.dp_base.specs.Results.{Answers, AnswersBy};
ghost use Rattle.dypdl_nodes.specs.Reads.{told};
ghost use Rattle.dypdl_load.specs.Settings.{domain_file, problem_file, title_of, cost_type_of, reduce_of, settings_of};
ghost use Rattle.dypdl_load.specs.Seen.{file_seen, settings_seen};

use dypdl_nodes::rules::{CONTINUOUS, LEFT_OUT, WRONG_SHAPE};
use dypdl_nodes::{LoadEnd, file_keyed, needed, refused, text_of, value_in};
use yaml_tree::{Pair, Tree};

/// The entries of a file, and the value of the key that it must have.
#[derive(Clone, Copy)]
pub struct File<'a> {
    pub entries: &'a [Pair],
    pub needed: &'a Tree,
}

/// What both files say before any part of a model.
#[derive(Clone, Copy)]
pub struct Settings<'a> {
    pub domain: File<'a>,
    pub problem: File<'a>,
    pub domain_title: &'a str,
    pub problem_title: &'a str,
    pub minimize: bool,
}

/// The entries of a domain.
fn domain_file(tree: &Tree) -> Result<File<'_>, LoadEnd>
    ensures { AnswersBy told file_seen result (domain_file tree.now) }
{
    let entries = file_keyed(
        &[
            "domain",
            "cost_type",
            "reduce",
            "objects",
            "state_variables",
            "tables",
            "transitions",
            "constraints",
            "base_cases",
            "dual_bounds",
        ],
        tree,
    )?;
    let needed = needed(tree.place(), entries, "state_variables")?;
    Ok(File { entries, needed })
}

/// The entries of a problem.
fn problem_file(tree: &Tree) -> Result<File<'_>, LoadEnd>
    ensures { AnswersBy told file_seen result (problem_file tree.now) }
{
    let entries = file_keyed(
        &[
            "domain",
            "problem",
            "object_numbers",
            "target",
            "table_values",
            "reduce",
            "transitions",
            "constraints",
            "base_cases",
            "dual_bounds",
        ],
        tree,
    )?;
    let needed = needed(tree.place(), entries, "target")?;
    Ok(File { entries, needed })
}

/// A name, which may be any scalar; a missing one is written `-`.
fn title_of<'a>(tree: Option<&'a Tree>) -> Result<&'a str, LoadEnd>
    ensures { AnswersBy told (λ t. t.now) result (title_of (option_map (λ t. t.now) tree.entry)) }
{
    match tree {
        Some(tree) => text_of(tree),
        None => Ok("-"),
    }
}

/// Whether costs are whole numbers, as all costs here are.
fn check_cost_type(tree: Option<&Tree>) -> Result<(), LoadEnd>
    ensures { AnswersBy told (λ _. tt) result (cost_type_of (option_map (λ t. t.now) tree.entry)) }
{
    let Some(tree) = tree else {
        return Ok(());
    };
    let number = match text_of(tree)? {
        "integer" => return Ok(()),
        "continuous" => CONTINUOUS,
        _ => WRONG_SHAPE,
    };
    Err(refused(number, tree.place()))
}

/// Whether the lesser of two costs is better. Sums and products over all lists are left out.
fn reduce_of(tree: Option<&Tree>) -> Result<Option<bool>, LoadEnd>
    ensures { Answers told result (reduce_of (option_map (λ t. t.now) tree.entry)) }
{
    let Some(tree) = tree else {
        return Ok(None);
    };
    let number = match text_of(tree)? {
        "min" => return Ok(Some(true)),
        "max" => return Ok(Some(false)),
        "sum" | "product" => LEFT_OUT,
        _ => WRONG_SHAPE,
    };
    Err(refused(number, tree.place()))
}

/// What both files say before any part of a model: the keys of the domain, those of the problem, and then what is
/// better. The problem's word goes before the domain's.
#[tactic(auto, unfolding(crate::specs::Settings::settings_of))]
pub fn read_settings<'a>(domain: &'a Tree, problem: &'a Tree) -> Result<Settings<'a>, LoadEnd>
    ensures { AnswersBy told settings_seen result (settings_of domain.now problem.now) }
{
    let domain = domain_file(domain)?;
    let domain_title = title_of(value_in(domain.entries, "domain"))?;
    let problem = problem_file(problem)?;
    title_of(value_in(problem.entries, "domain"))?;
    let problem_title = title_of(value_in(problem.entries, "problem"))?;
    check_cost_type(value_in(domain.entries, "cost_type"))?;
    let first = reduce_of(value_in(domain.entries, "reduce"))?;
    let second = reduce_of(value_in(problem.entries, "reduce"))?;
    Ok(Settings {
        domain,
        problem,
        domain_title,
        problem_title,
        minimize: second.or(first).unwrap_or(true),
    })
}
