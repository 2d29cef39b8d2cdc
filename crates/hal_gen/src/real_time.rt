//! CANCEL and TERMINATE.

ghost use Rattle.std.specs.Prelude.{◌≡◌, map};
ghost use Rattle.hal_tree.specs.SeenLeaves.{seen_name};
ghost use Rattle.hal_values.specs.Tables as tables;
ghost use Rattle.hal_meaning.specs.RealTime as meaning;
ghost use Rattle.hal_agreement.specs.Sites.{here_at};
ghost use Rattle.hal_gen_expr.specs.Emits.{Emits};
ghost use Rattle.hal_gen_expr.specs.Emitting as emitting;
ghost use Rattle.hal_gen_expr.specs.SeenSites.{seen_site, IsSite};
ghost use Rattle.hal_gen.specs.Asking.{asks_of};
ghost use Rattle.hal_gen.specs.Leaves as leaves;
ghost use Rattle.hal_gen.specs.Pausing as pausing;

use crate::events::event_number;
use hal_base::Place;
use hal_code::Instr;
use hal_gen_expr::{Site, Uncoded, emit_one};
use hal_tree::Identifier;

/// What is asked of processes that are named.
#[derive(Clone, Copy)]
pub(crate) enum Ask {
    Cancel,
    Terminate,
}

/// The instruction that asks it of the process with this number, 255 for the process itself.
fn asks(ask: Ask, process: u8) -> Instr
    ensures { result ≡ asks_of ask process }
{
    match ask {
        Ask::Cancel => Instr::Cancel(process),
        Ask::Terminate => Instr::Terminate(process),
    }
}

/// How many processes there are.
#[tactic(auto, using(crate::proofs::Asked::processes_counted), unfolding(hal_gen_expr::specs::SeenSites::seen_site))]
fn process_count(site: &Site<'_>) -> usize
    ensures { result ≡ tables.process_count (seen_site site.now).set.tables }
{
    site.set.layout.processes.len()
}

/// The number of the process that a name means, 0 where it means none.
fn process_named(site: &Site<'_>, name: &Identifier) -> u16
    requires site { IsSite site.now }
    ensures { result ≡ meaning.process_named (here_at (seen_site site.now)) (seen_name name.now) }
{
    let number = event_number(site, &name.name);
    if (number as usize) < process_count(site) {
        number
    } else {
        0
    }
}

/// The number of a process that is named, where an instruction has room for it.
pub(crate) fn named_process(site: &Site<'_>, name: &Identifier) -> Option<u8>
    requires site { IsSite site.now }
    ensures { result ≡ leaves.named_process (seen_site site.now) (seen_name name.now) }
{
    let number = process_named(site, name);
    if (number as usize) < process_count(site) && number < 255 {
        Some(number as u8)
    } else {
        None
    }
}

/// Adds what is asked of a process that is named.
fn emit_asked(
    name: &Identifier,
    code: &mut Vec<Instr>,
    site: &Site<'_>,
    place: Place,
    ask: Ask,
) -> Result<(), Uncoded>
    requires site { IsSite site.now }
    ensures { Emits (pausing.asked_code (seen_site site.now) code.old.items place (asks_of ask) (seen_name name.now)) result code.new.items }
{
    match named_process(site, name) {
        None => Err(Uncoded::At(place)),
        Some(process) => emit_one(code, place, asks(ask, process)),
    }
}

/// Adds what is asked of each process that is named.
#[tactic(auto, unfolding(crate::specs::Pausing::each_code))]
fn emit_each(
    names: &[Identifier],
    code: &mut Vec<Instr>,
    site: &Site<'_>,
    place: Place,
    ask: Ask,
) -> Result<(), Uncoded>
    requires site { IsSite site.now }
    ensures { Emits (pausing.each_code (seen_site site.now) code.old.items place (asks_of ask) (map seen_name names.now)) result code.new.items }
{
    for name in names {
        emit_asked(name, code, site, place, ask)?;
    }
    Ok(())
}

/// Adds CANCEL or TERMINATE: of the processes that are named, or of the process itself (language document, Statements).
#[tactic(auto, using(crate::proofs::Asked::all_asked))]
pub(crate) fn emit_named(
    names: &[Identifier],
    code: &mut Vec<Instr>,
    site: &Site<'_>,
    place: Place,
    ask: Ask,
) -> Result<(), Uncoded>
    requires site { IsSite site.now }
    ensures { Emits (emitting.emit code.old.items place (leaves.named_or_own_of (seen_site site.now) (asks_of ask) (map seen_name names.now))) result code.new.items }
{
    if names.is_empty() {
        emit_one(code, place, asks(ask, 255))
    } else {
        emit_each(names, code, site, place, ask)
    }
}
