//! Addresses by views.

ghost use Rattle.std.specs.Prelude.{◌≡◌, ◌<◌, ◌-◌, ◌*◌, ◌^◌, [], ◌∷◌, suc, drop, length, slice_get, OnOk, if◌then◌else◌};
ghost use Rattle.hal_states.specs.Numbers.{is_inside, before_nearest};
ghost use Rattle.hal_values.specs.Answers.{error};
ghost use Rattle.hal_states.specs.Spots.{further, referred_to};
ghost use Rattle.hal_code.specs.Addressing.{spot_of, operand_of, viewed, cell_viewed, area_viewed};
ghost use Rattle.hal_code.specs.Cores.{going, Moves};
ghost use Rattle.hal_code.specs.Raising.{raised};
ghost use Rattle.hal_right_values.specs.Spreading.{integer_taken, HasRoom, LeadsWithin, CellFits, spread, spread_by};
ghost use Rattle.hal_machine.specs.Spreading.{pointed, pointed_at, spread_seen, saturated};
ghost use Rattle.hal_machine.specs.Seen.{core_seen, stack_seen, setting_seen, spot_seen, step_seen, Does};

use crate::held::Held;
use crate::machine::{Machine, Setting};
use crate::operands::{Operands, Place};
use crate::step::Stepped;
use hal_code::{Base, Dimension, Target, View};
use hal_values::ErrNo;
use std::alloc::AllocError;

/// A subscript lies outside its dimension.
const OUTSIDE: ErrNo = ErrNo {
    group: 1,
    number: 3,
};

/// How many cells lie before the one that subscripts choose, and whether they lie in their dimensions.
#[derive(Clone, Copy)]
pub(crate) struct Spread {
    pub(crate) before: u64,
    pub(crate) inside: bool,
}

/// Whether a subscript lies in a dimension.
pub(crate) fn is_inside(size: u32, subscript: i32) -> bool
    ensures { result ≡ is_inside size subscript }
{
    !(subscript < 1) && !(i64::from(size) < i64::from(subscript))
}

/// How many places lie before the nearest one of a dimension.
pub(crate) fn before_nearest(size: u32, subscript: i32) -> u64
    ensures { result ≡ before_nearest size subscript }
{
    let nearest = 1_i64.max(i64::from(subscript).min(i64::from(size)));
    (nearest - 1).unsigned_abs()
}

impl Operands {
    /// The same with a dimension before these, whose subscript lies so deep below the top.
    fn spread_on(&self, dimension: &Dimension, below: Spread, depth: usize) -> Option<Spread>
        ensures { spread_seen (drop (suc depth) (stack_seen self.now)) result ≡ saturated (spread_by dimension.now (record { before = below.before; inside = below.inside; left = drop depth (stack_seen self.now) }) (integer_taken (drop depth (stack_seen self.now)))) }
    {
        match self.integer_at(depth) {
            None => None,
            Some(subscript) => Some(Spread {
                before: (before_nearest(dimension.size, subscript)
                    * u64::from(dimension.stride)).saturating_add(below.before),
                inside: is_inside(dimension.size, subscript) && below.inside,
            }),
        }
    }

    /// Which cell subscripts choose.
    #[tactic(auto, using(crate::proofs::Spreads::saturated_by))]
    fn spread(&self, dimensions: &[Dimension]) -> Option<Spread>
        ensures { spread_seen (drop (length dimensions.now) (stack_seen self.now)) result ≡ saturated (spread dimensions.now (stack_seen self.now)) }
    {
        match dimensions {
            [] => Some(Spread {
                before: 0,
                inside: true,
            }),
            [dimension, rest @ ..] => match self.spread(rest) {
                None => None,
                Some(below) => self.spread_on(dimension, below, rest.len()),
            },
        }
    }

    /// Which cell the subscript on top chooses in one dimension.
    fn spread_once(&self, dimension: &Dimension) -> Option<Spread>
        ensures { spread_seen (drop 1 (stack_seen self.now)) result ≡ saturated (spread (dimension.now ∷ []) (stack_seen self.now)) }
    {
        self.spread_on(
            dimension,
            Spread {
                before: 0,
                inside: true,
            },
            0,
        )
    }

    /// Which cell the subscripts of a view choose. Most views have one dimension.
    pub(crate) fn spread_of(&self, view: &View) -> Option<Spread>
        ensures { spread_seen (drop (length view.now.dimensions) (stack_seen self.now)) result ≡ saturated (spread view.now.dimensions (stack_seen self.now)) }
    {
        match view.dimensions.as_slice() {
            [dimension] => self.spread_once(dimension),
            dimensions => self.spread(dimensions),
        }
    }
}

/// The place so many cells further on.
fn further(place: Place, count: u64) -> Place
    requires { HasRoom (further count (spot_seen place)) }
    ensures { spot_seen result ≡ further count (spot_seen place) }
{
    match place {
        Place::Shared(number) => Place::Shared((u64::from(number) + count) as u32),
        Place::Own(number) => Place::Own((u64::from(number) + count) as u32),
        Place::Nowhere => Place::Nowhere,
    }
}

impl Machine {
    /// The place to which an own place refers.
    #[tactic(auto, using(crate::proofs::Mapping::map_get))]
    fn referred(&self, number: usize) -> Place
        ensures { spot_seen result ≡ referred_to (slice_get (core_seen self.now).kept.places number) }
    {
        match self.places.get(number) {
            None => Place::Nowhere,
            Some(held) => held.place(),
        }
    }

    /// The place so many cells behind the first one of a view.
    pub(crate) fn place_of(&self, base: Base, before: u64) -> Place
        requires { HasRoom (further before (spot_of base (core_seen self.now).kept.places)) }
        ensures { spot_seen result ≡ further before (spot_of base (core_seen self.now).kept.places) }
    {
        match base {
            Base::Shared(number) => further(Place::Shared(number), before),
            Base::Own(number) => further(Place::Own(number), before),
            Base::Through { place, offset } => further(
                further(self.referred(place as usize), u64::from(offset)),
                before,
            ),
            Base::Other { .. } => Place::Nowhere,
        }
    }

    /// An address by a view lies on the stack, once its subscripts are tested.
    fn addressed(&mut self, setting: &Setting<'_>, inside: bool) -> Stepped
        ensures does { step_seen setting.now.image.now result self.new ≡ (if inside then Moves (core_seen self.old) else raised (setting_seen setting.now) (error 1 3) (core_seen self.old)) }
        ensures room { self.new.blocks.room ≡ self.old.blocks.room }
    {
        if inside {
            Stepped::Moves
        } else {
            self.raised(setting, OUTSIDE)
        }
    }

    /// The address of what a view gives there is put on the stack.
    fn push_target(&mut self, target: Target, place: Place) -> Result<(), AllocError>
        ensures does { OnOk result (core_seen self.new ≡ going self.old.at (operand_of target (spot_seen place) ∷ stack_seen self.old.operands) (core_seen self.old)) }
        ensures room { self.new.blocks.room ≡ self.old.blocks.room }
    {
        match target {
            Target::Cell(kind) => self.operands.push_address(place, kind),
            Target::Shape(shape) => self.operands.push_area(place, shape),
        }
    }

    /// The address by a view takes the place of its subscripts.
    fn point(
        &mut self,
        setting: &Setting<'_>,
        view: &View,
        at: Spread,
    ) -> Result<Stepped, AllocError>
        requires next { self.old.at < 2 ^ 64 - 1 }
        requires room { HasRoom (further at.before (spot_of view.now.base (core_seen self.old).kept.places)) }
        ensures does { Does setting.now.image.now result self.new (pointed (setting_seen setting.now) view.now (core_seen self.old) (record { before = at.before; inside = at.inside; left = drop (length view.now.dimensions) (stack_seen self.old.operands) })) }
        ensures room { self.new.blocks.room ≡ self.old.blocks.room }
    {
        let place = self.place_of(view.base, at.before);
        self.operands.drop_some(view.dimensions.as_slice().len());
        self.push_target(view.target, place)?;
        self.go_on();
        Ok(self.addressed(setting, at.inside))
    }

    /// The address by a view, of subscripts that may lie on the stack.
    fn point_at(
        &mut self,
        setting: &Setting<'_>,
        view: &View,
        at: Option<Spread>,
    ) -> Result<Stepped, AllocError>
        requires next { self.old.at < 2 ^ 64 - 1 }
        requires room { LeadsWithin view.now (core_seen self.old) (spread_seen (drop (length view.now.dimensions) (stack_seen self.old.operands)) at) }
        ensures does { Does setting.now.image.now result self.new (pointed_at (setting_seen setting.now) view.now (core_seen self.old) (spread_seen (drop (length view.now.dimensions) (stack_seen self.old.operands)) at)) }
        ensures room { self.new.blocks.room ≡ self.old.blocks.room }
    {
        match at {
            None => Ok(self.stuck(setting)),
            Some(at) => self.point(setting, view, at),
        }
    }

    /// The address by a view, of subscripts on the stack.
    fn view(&mut self, setting: &Setting<'_>, view: &View) -> Result<Stepped, AllocError>
        requires next { self.old.at < 2 ^ 64 - 1 }
        requires room { CellFits view.now (core_seen self.old) }
        ensures does { Does setting.now.image.now result self.new (viewed (setting_seen setting.now) view.now (core_seen self.old)) }
        ensures room { self.new.blocks.room ≡ self.old.blocks.room }
    {
        let at = self.operands.spread_of(view);
        self.point_at(setting, view, at)
    }

    /// CELL of a view.
    pub fn cell(&mut self, setting: &Setting<'_>, view: &View) -> Result<Stepped, AllocError>
        requires next { self.old.at < 2 ^ 64 - 1 }
        requires room { CellFits view.now (core_seen self.old) }
        ensures does { Does setting.now.image.now result self.new (cell_viewed (setting_seen setting.now) view.now (core_seen self.old)) }
        ensures room { self.new.blocks.room ≡ self.old.blocks.room }
    {
        match view.target {
            Target::Cell(_) => self.view(setting, view),
            Target::Shape(_) => Ok(self.stuck(setting)),
        }
    }

    /// WHOLE of a view.
    pub fn whole(&mut self, setting: &Setting<'_>, view: &View) -> Result<Stepped, AllocError>
        requires next { self.old.at < 2 ^ 64 - 1 }
        requires room { CellFits view.now (core_seen self.old) }
        ensures does { Does setting.now.image.now result self.new (area_viewed (setting_seen setting.now) view.now (core_seen self.old)) }
        ensures room { self.new.blocks.room ≡ self.old.blocks.room }
    {
        match view.target {
            Target::Cell(_) => Ok(self.stuck(setting)),
            Target::Shape(_) => self.view(setting, view),
        }
    }
}
