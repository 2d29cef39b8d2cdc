//! The paths of units.

ghost use Rattle.std.specs.Prelude.{◌≡◌, map, IfOk};
ghost use Rattle.std.specs.Option.{option_map};
ghost use Rattle.hal_phrases.specs.SeenPhrases.{seen_node};
ghost use Rattle.hal_names.specs.SeenNames.{seen_names};
ghost use Rattle.hal_meaning.specs.Bodies.{processes_of};
ghost use Rattle.hal_meaning.specs.ReportNames as reports;
ghost use Rattle.hal_storage.specs.processes.SeenPaths.{seen_path};

use hal_names::Names;
use hal_phrases::Node;
use hal_reach::processes_of;
use hal_words::Name;
use std::alloc::{AllocError, Global};

/// The name of a unit.
fn unit_name<'a>(node: Node<'a>) -> Option<&'a Name>
    ensures { option_map (λ name. name.now) result ≡ reports.unit_name (seen_node node.entry) }
{
    match node {
        Node::Unit { name, .. } => Some(&name.name),
        _ => None,
    }
}

/// A name behind a path, with a point between them.
#[tactic(auto, using(crate::proofs::processes::Pointed::behind))]
pub fn joined(path: Vec<u8>, name: &Name) -> Result<Vec<u8>, AllocError>
    ensures { IfOk result (λ whole. whole.items ≡ reports.joined path.items name.now) }
{
    let mut path = path;
    if !path.is_empty() {
        path.push(46)?;
    }
    path.extend_from_slice(name.bytes())?;
    Ok(path)
}

/// The names of the units around the one with this number and its own, with points between them; at most so many are looked at.
fn path_within(
    alloc: Global,
    names: &Names<'_>,
    steps: usize,
    number: usize,
) -> Result<Vec<u8>, AllocError>
    ensures { IfOk result (λ path. path.items ≡ reports.path_within steps (seen_names names.now) number) }
{
    let Some(fewer) = steps.checked_sub(1) else {
        return Ok(Vec::new(alloc));
    };
    let Some(phrase) = names.phrase(number) else {
        return Ok(Vec::new(alloc));
    };
    let Some(name) = unit_name(phrase.node) else {
        return Ok(Vec::new(alloc));
    };
    let outer = path_within(alloc, names, fewer, phrase.around.home)?;
    let path = joined(outer, name)?;
    Ok(path)
}

/// The path of the unit with this number: the names of the units around it and its own, with points between them (language document, Report names).
pub fn path_of(alloc: Global, names: &Names<'_>, number: usize) -> Result<Vec<u8>, AllocError>
    ensures { IfOk result (λ path. path.items ≡ reports.path_of (seen_names names.now) number) }
{
    path_within(alloc, names, names.phrases().len(), number)
}

/// The paths of the units with these numbers.
fn paths_of(alloc: Global, names: &Names<'_>, numbers: &[usize]) -> Result<Vec<Vec<u8>>, AllocError>
    ensures { IfOk result (λ paths. map seen_path paths.items ≡ map (reports.path_of (seen_names names.now)) numbers.now) }
{
    let mut paths = Vec::new(alloc);
    for number in numbers {
        paths.push(path_of(alloc, names, *number)?)?;
    }
    Ok(paths)
}

/// The names of the processes, in order: the paths of their units (language document, Report names).
pub fn process_names(alloc: Global, names: &Names<'_>) -> Result<Vec<Vec<u8>>, AllocError>
    ensures { IfOk result (λ paths. map seen_path paths.items ≡ map (reports.path_of (seen_names names.now)) (processes_of (seen_names names.now))) }
{
    let numbers = processes_of(alloc, names)?;
    paths_of(alloc, names, &numbers)
}
