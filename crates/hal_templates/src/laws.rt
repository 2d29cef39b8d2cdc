//! Laws: functions that run nothing, whose contract is proved of the definitions.

ghost use Rattle.std.specs.Prelude.{◌≡◌, List};
ghost use Rattle.hal_grammar.specs.Leaves.{Naming};
ghost use Rattle.hal_grammar.specs.Declarations.{Declaration};
ghost use Rattle.hal_grammar.specs.Units.{File, Head};
ghost use Rattle.hal_phrases.specs.Phrases.{Phrase, OfInclude, OfTemplate};
ghost use Rattle.hal_phrases.specs.GatheredUnits.{phrases_of};
ghost use Rattle.hal_scope.specs.Rules.{IsAmong, IsSound, rows};
ghost use Rattle.hal_templates.specs.Giving.{GivesItsUnit, IncludesItsUnit};
ghost use Rattle.hal_templates.specs.Rules.{template_rows};

/// In a set that breaks no rule of templates and none of names, a template that is written out has its unit in the set, and the unit's head; and what it declares, name by name in order, is what
/// the unit's own template does: what each name means in the template has attributes that mean the same as what the name means in the unit (language document, Templates).
pub fn a_written_template_gives_what_its_unit_shows()
    ensures { (files : List File) → IsSound template_rows (phrases_of files) → IsSound rows (phrases_of files) → (p : Phrase) (name : Naming) (head : Head) (declarations : List Declaration)
        → IsAmong p (phrases_of files) → p.node ≡ OfTemplate name head declarations → GivesItsUnit (phrases_of files) p name head declarations }
{}

/// In such a set an INCLUDE has its unit in the set too, and gives the unit's name, all names that a COMPOOL declares, each meaning that declaration, and no others (language document, Templates).
pub fn an_included_template_gives_what_its_unit_shows()
    ensures { (files : List File) → IsSound template_rows (phrases_of files) → IsSound rows (phrases_of files) → (p : Phrase) (name : Naming)
        → IsAmong p (phrases_of files) → p.node ≡ OfInclude name → IncludesItsUnit (phrases_of files) name }
{}
