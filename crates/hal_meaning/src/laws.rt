//! What holds of each set of files.

ghost use Rattle.std.specs.Prelude.{◌≡◌, ℕ, ◌<◌, ◌^◌, true, List};
ghost use Rattle.hal_grammar.specs.Units.{File};
ghost use Rattle.hal_values.specs.Loads.{IsLoad};
ghost use Rattle.hal_values.specs.declared.value.Value.TheVariants as value;
ghost use Rattle.hal_states.specs.Numbers.{holds, one_bit};
ghost use Rattle.hal_meaning.specs.Expressions.{as_operand};
ghost use Rattle.hal_meaning.specs.Sets.{set_of};
ghost use Rattle.hal_meaning.specs.SetLoad.{IsSmall, load_of};

/// Files that keep the limits of cells, processes and events, and have a process, are a load: each process always asks, and in order; it asks
/// Begin first, after Killed and after a finished cycle; and an UPDATE block that it asks for ends, after one number of turns alone, which keeps
/// the limit, and writes only cells that exist, with values of their kinds (language document, The meaning of a set).
pub fn a_set_is_a_load()
    ensures { (turns : ℕ) (files : List File) → IsSmall turns files → IsLoad (load_of (set_of turns files)) }
{}

/// Bits that become a condition, beside one that is joined to them by AND or OR, are one bit: it is set where they hold as the condition of an IF does
/// (language document, Expressions).
pub fn bits_become_a_condition()
    ensures { (len word : ℕ) → word < 2 ^ len → as_operand true (value.Bits len word) ≡ one_bit (holds (value.Bits len word)) }
{}
