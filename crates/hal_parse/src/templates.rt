//! Templates of units that other files hold.

ghost use Rattle.std.specs.Prelude.{◌≡◌, IfOk, map};
ghost use Rattle.hal_words.specs.declared.reserved.Reserved.TheVariants as reserved;
ghost use Rattle.hal_tree.specs.SeenDeclarations.{seen_declaration};
ghost use Rattle.hal_tree.specs.SeenLeaves.{seen_name};
ghost use Rattle.hal_tree.specs.SeenUnits.{seen_head, seen_template};
ghost use Rattle.hal_parse_expr.specs.Reading.{before};
ghost use Rattle.hal_parse_expr.specs.Seen.{seen_as};
ghost use Rattle.hal_parse_declarations.specs.ReadingDeclarations.{label_at};
ghost use Rattle.hal_parse.specs.ReadingFiles.{external_behind, template_at, template_close};

use crate::heads::head;
use hal_parse_declarations::{label, name_end, read_declarations};
use hal_parse_expr::past;
use hal_tree::{Declaration, Head, Identifier, Template};
use hal_words::{Reserved, Token};
use std::alloc::{AllocError, Global};

/// A template.
#[tactic(auto, unfolding(crate::specs::ReadingFiles::template_at, hal_parse_expr::specs::Reading::followed, hal_parse_expr::specs::Seen::seen_as))]
pub(crate) fn template(
    alloc: Global,
    words: &[Token],
    depth: u32,
) -> Result<Option<(Template, &[Token])>, AllocError>
    ensures { IfOk result (λ found. seen_as seen_template found ≡ template_at depth words.now) }
{
    let Some((name, rest)) = external_label(words) else {
        return Ok(None);
    };
    external(alloc, name, rest, depth)
}

/// A label and EXTERNAL.
#[tactic(auto, unfolding(hal_parse_expr::specs::Reading::before, hal_parse_expr::specs::Reading::followed, hal_parse_expr::specs::Reading::made_of, hal_parse_expr::specs::Seen::seen_as, hal_parse_expr::specs::Seen::seen))]
fn external_label(words: &[Token]) -> Option<(Identifier, &[Token])>
    ensures { seen_as seen_name result ≡ before reserved.External (label_at words.now) }
{
    let Some((name, end)) = label(words) else {
        return None;
    };
    let Some((_, rest)) = past(end, Reserved::External) else {
        return None;
    };
    Some((name, rest))
}

/// Behind EXTERNAL.
#[tactic(auto, unfolding(crate::specs::ReadingFiles::external_behind, hal_parse_expr::specs::Reading::followed, hal_parse_expr::specs::Seen::seen_as, hal_parse_expr::specs::Seen::seen_list))]
fn external(
    alloc: Global,
    name: Identifier,
    words: &[Token],
    depth: u32,
) -> Result<Option<(Template, &[Token])>, AllocError>
    ensures { IfOk result (λ found. seen_as seen_template found ≡ external_behind depth (seen_name name) words.now) }
{
    let Some((head, behind)) = head(alloc, words, depth)? else {
        return Ok(None);
    };
    let (declarations, rest) = read_declarations(alloc, behind, depth)?;
    Ok(closed_template(name, head, declarations, rest))
}

/// Behind the declarations of a template.
#[tactic(auto, using(hal_tree::proofs::MadeUnits::made_template), unfolding(crate::specs::ReadingFiles::template_close, hal_parse_expr::specs::Reading::followed, hal_parse_expr::specs::Reading::made_of, hal_parse_expr::specs::Seen::seen_as, hal_parse_expr::specs::Seen::seen))]
fn closed_template(
    name: Identifier,
    head: Head,
    declarations: Vec<Declaration>,
    words: &[Token],
) -> Option<(Template, &[Token])>
    ensures { seen_as seen_template result ≡ template_close (seen_name name) (seen_head head) (map seen_declaration declarations.items) words.now }
{
    let Some((_, behind)) = past(words, Reserved::Close) else {
        return None;
    };
    let Some((close, rest)) = name_end(behind) else {
        return None;
    };
    let whole = Template {
        name,
        head,
        declarations,
        close,
    };
    Some((whole, rest))
}
