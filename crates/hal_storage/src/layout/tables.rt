//! The tables of a layout, which the executive reads.

ghost use Rattle.std.specs.Prelude.{◌≡◌, IfOk, map};
ghost use Rattle.std.specs.Option.{SomeIff, option_map};
ghost use Rattle.hal_storage.specs.event_expressions.SeenStated.{seen_stated};
ghost use Rattle.hal_storage.specs.processes.SeenPaths.{seen_path};
ghost use Rattle.hal_storage.specs.layout.Layouts as layouts;
ghost use Rattle.hal_storage.specs.layout.SeenLayout.{seen_layout, seen_texts};

use crate::event_expressions::Stated;
use crate::layout::layout::Layout;
use hal_values::{Item, Listing, Tables, Text};
use std::alloc::{AllocError, Global};

/// Names as texts, None where one of them has more than 255 bytes.
#[tactic(auto, using(crate::proofs::elements::Repeated::behind, crate::proofs::elements::Repeated::none_behind))]
fn texts_of(alloc: Global, names: &[Vec<u8>]) -> Result<Option<Vec<Text>>, AllocError>
    ensures { IfOk result (λ found. SomeIff (option_map seen_texts found) (layouts.AreShort (map seen_path names.now)) (map seen_path names.now)) }
{
    let mut list = Vec::new(alloc);
    for name in names {
        let Some(text) = Text::of(name) else {
            return Ok(None);
        };
        list.push(text)?;
    }
    Ok(Some(list))
}

/// The items of event expressions (language document, Events).
#[tactic(auto, using(crate::proofs::elements::Repeated::behind, crate::proofs::elements::Repeated::none_behind))]
pub fn items_of(alloc: Global, expressions: &[Stated]) -> Result<Vec<Listing<Item>>, AllocError>
    ensures { IfOk result (λ list. list.items ≡ layouts.items_of (map seen_stated expressions.now)) }
{
    let mut list = Vec::new(alloc);
    for one in expressions {
        let mut items = Listing::empty(alloc);
        items.extend(&one.items)?;
        list.push(items)?;
    }
    Ok(list)
}

/// The tables of a layout; None where the name of a process has more than 255 bytes or the process that starts at the opening is behind the
/// first 256.
pub fn tables_of(alloc: Global, layout: Layout) -> Result<Option<Tables>, AllocError>
    ensures { IfOk result (λ found. SomeIff found (layouts.IsNarrow (seen_layout layout)) (layouts.tables_of (seen_layout layout))) }
{
    let Ok(first) = u8::try_from(layout.first) else {
        return Ok(None);
    };
    let Some(processes) = texts_of(alloc, &layout.processes)? else {
        return Ok(None);
    };
    let expressions = items_of(alloc, &layout.expressions)?;
    Ok(Some(Tables {
        cells: Listing::new(layout.cells),
        processes: Listing::new(processes),
        first,
        events: Listing::new(layout.events),
        expressions: Listing::new(expressions),
        names: Listing::new(layout.names),
    }))
}
