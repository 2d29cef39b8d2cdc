//! How many elements data have.

ghost use Rattle.std.specs.Prelude.{◌≡◌, map, min};
ghost use Rattle.hal_meaning.specs.Elements as elements;
ghost use Rattle.hal_storage.specs.elements.SeenComponents.{seen_component};

use crate::elements::component::Component;

/// How many places an array with these sizes has, 4,294,967,295 where it has more.
#[tactic(auto, using(crate::proofs::elements::Capped::capped))]
fn product(sizes: &[u16]) -> u32
    ensures { result ≡ min (elements.product sizes.now) 4294967295 }
{
    match sizes.split_first() {
        None => 1,
        Some((size, others)) => u32::from(*size).saturating_mul(product(others)),
    }
}

/// How many elements a component has in one copy, 4,294,967,295 where it has more (language document, Places).
pub fn count(component: &Component) -> u32
    ensures { result ≡ min (elements.count (seen_component component.now)) 4294967295 }
{
    product(&component.sizes)
}

/// How many elements one copy of these components has, 4,294,967,295 where it has more (language document, Places).
#[tactic(auto, using(crate::proofs::elements::Capped::one_more, crate::proofs::elements::Capped::size_of_more))]
pub fn copy_size(components: &[Component]) -> u32
    ensures { result ≡ min (elements.copy_size (map seen_component components.now)) 4294967295 }
{
    let mut size: u32 = 0;
    for component in components {
        size = size.saturating_add(count(component));
    }
    size
}
