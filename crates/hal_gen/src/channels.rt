//! READ and WRITE.

ghost use Rattle.std.specs.Prelude.{◌≡◌, map};
ghost use Rattle.hal_tree.specs.Rows.{expressions};
ghost use Rattle.hal_tree.specs.SeenExpressions.{seen_expression, seen_reference};
ghost use Rattle.hal_code.specs.declared.instr.Instr.TheVariants as instr;
ghost use Rattle.hal_gen_expr.specs.Emits.{Emits};
ghost use Rattle.hal_gen_expr.specs.Emitting.{onwards};
ghost use Rattle.hal_gen_expr.specs.ExpressionCode as expressing;
ghost use Rattle.hal_gen_expr.specs.SeenSites.{seen_site, seen_numbering, IsSite};
ghost use Rattle.hal_gen.specs.ChannelNumbers as numbers;
ghost use Rattle.hal_gen.specs.Channels as channels;
ghost use Rattle.hal_gen.specs.StatementCode as codes;

use crate::receivers::{emit_receiver, kind_of_receiver, receiver_size};
use crate::sizes::sum;
use hal_base::Place;
use hal_code::Instr;
use hal_gen_expr::{Site, Uncoded, emit_expression, emit_one, integer_of, push};
use hal_tree::{Expr, Reference};

/// The channel that an integer is: one below 256.
fn channel_in(number: i32) -> Option<u8>
    ensures { result ≡ numbers.channel_in number }
{
    u8::try_from(number).ok()
}

/// The channel that a constant expression is (language document, Statements).
fn channel_of(tree: &Expr, site: &Site<'_>) -> Option<u8>
    requires site { IsSite site.now }
    ensures { result ≡ numbers.channel_of (seen_site site.now) (seen_expression tree.now) }
{
    let number = integer_of(tree, site)?;
    channel_in(number)
}

/// Adds INPUT of a receiver, behind which control goes to the next one where there is no datum, and its store.
fn emit_read(
    receiver: &Reference,
    code: &mut Vec<Instr>,
    site: &Site<'_>,
    channel: u8,
) -> Result<(), Uncoded>
    requires site { IsSite site.now }
    ensures { Emits (channels.read_code (seen_numbering site.now) (seen_site site.now) code.old.items channel (seen_reference receiver.now)) result code.new.items }
{
    let size = sum(1, receiver_size(receiver, site)?)?;
    let target = sum(code.len(), size)?;
    let kind = kind_of_receiver(receiver, site);
    push(
        code,
        Instr::Input {
            channel,
            kind,
            target: target as u64,
        },
    )?;
    emit_receiver(receiver, code, site)
}

/// Adds INPUT of receivers, and their stores, from left to right.
fn emit_reads(
    receivers: &[Reference],
    code: &mut Vec<Instr>,
    site: &Site<'_>,
    channel: u8,
) -> Result<(), Uncoded>
    requires site { IsSite site.now }
    ensures { Emits (codes.reads_code (seen_numbering site.now) (seen_site site.now) code.old.items channel (map seen_reference receivers.now)) result code.new.items }
{
    for receiver in receivers {
        emit_read(receiver, code, site, channel)?;
    }
    Ok(())
}

/// Adds READ (language document, Statements).
pub(crate) fn emit_input(
    channel: &Expr,
    receivers: &[Reference],
    code: &mut Vec<Instr>,
    site: &Site<'_>,
    place: Place,
) -> Result<(), Uncoded>
    requires site { IsSite site.now }
    ensures { Emits (codes.with_number place (numbers.channel_of (seen_site site.now) (seen_expression channel.now)) (λ number. codes.reads_code (seen_numbering site.now) (seen_site site.now) code.old.items number (map seen_reference receivers.now))) result code.new.items }
{
    let Some(channel) = channel_of(channel, site) else {
        return Err(Uncoded::At(place));
    };
    emit_reads(receivers, code, site, channel)
}

/// Adds items, each of which is added to the line.
#[tactic(auto, unfolding(hal_tree::specs::Rows::expressions))]
fn emit_items(items: &[Expr], code: &mut Vec<Instr>, site: &Site<'_>) -> Result<(), Uncoded>
    requires site { IsSite site.now }
    ensures { Emits (codes.items_code (seen_numbering site.now) (seen_site site.now) code.old.items (expressions (map seen_expression items.now))) result code.new.items }
{
    for item in items {
        emit_expression(item, code, site)?;
        push(code, Instr::Item)?;
    }
    Ok(())
}

/// Adds WRITE (language document, Statements).
pub(crate) fn emit_output(
    channel: &Expr,
    items: &[Expr],
    code: &mut Vec<Instr>,
    site: &Site<'_>,
    place: Place,
) -> Result<(), Uncoded>
    requires site { IsSite site.now }
    ensures { Emits (codes.with_number place (numbers.channel_of (seen_site site.now) (seen_expression channel.now)) (λ number. onwards (codes.items_code (seen_numbering site.now) (seen_site site.now) code.old.items (expressions (map seen_expression items.now))) (λ middle. expressing.emit_one middle place (instr.Print number)))) result code.new.items }
{
    let Some(channel) = channel_of(channel, site) else {
        return Err(Uncoded::At(place));
    };
    emit_items(items, code, site)?;
    emit_one(code, place, Instr::Print(channel))
}
