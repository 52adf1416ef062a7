//! Operators.

ghost use Rattle.std.specs.Prelude.{◌≡◌, ◌<◌, ◌++◌, ◌∷◌, [], IfOk, OnOk, length, take, true, false, Some};
ghost use Rattle.sc_model.specs.Operators as model;
ghost use Rattle.sc_tree.specs.Properties.{is_and_then};
ghost use Rattle.sc_code.specs.Emitted as emitted;
ghost use Rattle.sc_code.specs.Operations as plain;
ghost use Rattle.sc_code.specs.Places as places;
ghost use Rattle.sc_routines.specs.Parts.{ClosesRight, opened};
ghost use Rattle.sc_routines.specs.Told.{told_of_binary};

use crate::code::Code;
use crate::lowered::Lowered;
use crate::sums::sum;
use crate::unlinked::UnlinkedOperation;
use sc_code::{SiteKind, TextSite};
use sc_rules::entity_types::EntityType;
use sc_text::Span;
use sc_tree::{BinaryOperator, UnaryOperator};
use sc_typing::Entity;
use std::alloc::AllocError;

/// Whether the left operand may decide.
fn is_short(operator: BinaryOperator) -> bool
    ensures { result ≡ model.is_short operator }
{
    matches!(
        operator,
        BinaryOperator::AndThen | BinaryOperator::OrElse | BinaryOperator::Implies
    )
}

/// The type of a unary operator's value.
fn unary_type(operator: UnaryOperator) -> EntityType
    ensures { result ≡ places.unary_type operator }
{
    match operator {
        UnaryOperator::Not => EntityType::boolean(),
        UnaryOperator::Old | UnaryOperator::Plus | UnaryOperator::Minus => EntityType::integer(),
    }
}

/// Adds a unary operator after its operand.
pub fn close_unary(
    code: &mut Code,
    span: Span,
    operator: UnaryOperator,
    operand: Lowered,
) -> Result<Lowered, AllocError>
    ensures code { OnOk result (code.new ≡ code.old ++ plain.ApplyUnary operator ∷ []) }
    ensures told { IfOk result (λ l. l ≡ record { value = Some (places.unary_type operator); depth = operand.depth; olds = operand.olds; slots = 0 }) }
{
    let kind = SiteKind::Unary(operator);
    code.push(
        TextSite { span, kind },
        UnlinkedOperation::ApplyUnary(operator),
    )?;
    Ok(Lowered {
        value: Some(unary_type(operator)),
        depth: operand.depth,
        olds: operand.olds,
        slots: 0,
    })
}

/// The type of a binary operator's value.
pub fn binary_type(operator: BinaryOperator) -> EntityType
    ensures { result ≡ places.binary_type operator }
{
    match operator {
        BinaryOperator::Times
        | BinaryOperator::Quotient
        | BinaryOperator::Remainder
        | BinaryOperator::Plus
        | BinaryOperator::Minus => EntityType::integer(),
        _ => EntityType::boolean(),
    }
}

/// How many operands are needed after the left one's value.
pub fn operand_depth(operator: BinaryOperator, right: usize) -> Result<usize, AllocError>
    ensures { IfOk result (λ depth. depth ≡ emitted.operand_depth operator right) }
{
    if is_short(operator) {
        Ok(right)
    } else {
        sum(right, 1)
    }
}

/// Adds the operation between the operands. How many operations a decision skips isn't known yet.
pub fn open_right(code: &mut Code, span: Span, operator: BinaryOperator) -> Result<(), AllocError>
    ensures { OnOk result (code.new ≡ code.old ++ opened operator) }
{
    if !is_short(operator) {
        return Ok(());
    }
    let kind = SiteKind::Binary(operator);
    let passed = 0;
    let operation = UnlinkedOperation::Decide { operator, passed };
    code.push(TextSite { span, kind }, operation)
}

/// Adds the operation after the operands; the right one begins at the place.
pub fn close_right(
    code: &mut Code,
    span: Span,
    operator: BinaryOperator,
    place: usize,
) -> Result<(), AllocError>
    requires { model.is_short operator ≡ true → place < length code.old }
    ensures { OnOk result (ClosesRight operator place code.old code.new) }
{
    let kind = SiteKind::Binary(operator);
    let site = TextSite { span, kind };
    if is_short(operator) {
        let passed = code.len() - place;
        code.set(place, UnlinkedOperation::Decide { operator, passed });
        return code.push(site, UnlinkedOperation::Conclude);
    }
    code.push(site, UnlinkedOperation::ApplyBinary(operator))
}

/// Takes the names of the operands out of scope, unless what follows is reached only if they hold.
fn forget_names(names: &mut Vec<Entity>, count: usize, operator: BinaryOperator)
    ensures both { is_and_then operator ≡ true → names.new.items ≡ names.old.items }
    ensures none { is_and_then operator ≡ false → names.new.items ≡ take count names.old.items }
{
    if !operator.is_and_then() {
        names.truncate(count);
    }
}

/// The operands of a binary operator, in code.
#[derive(Clone, Copy)]
pub struct BinaryOperands {
    /// The first one.
    pub left: Lowered,
    /// Where the code of the second one begins.
    pub place: usize,
    /// The second one.
    pub right: Lowered,
}

/// Adds a binary operator after its operands, with this number of names in scope before them.
pub fn close_binary(
    names: &mut Vec<Entity>,
    count: usize,
    code: &mut Code,
    span: Span,
    operator: BinaryOperator,
    operands: BinaryOperands,
) -> Result<Lowered, AllocError>
    requires { model.is_short operator ≡ true → operands.place < length code.old }
    ensures code { OnOk result (ClosesRight operator operands.place code.old code.new) }
    ensures both { is_and_then operator ≡ true → names.new.items ≡ names.old.items }
    ensures none { is_and_then operator ≡ false → names.new.items ≡ take count names.old.items }
    ensures told { IfOk result (λ l. l ≡ told_of_binary operator operands.left operands.right) }
{
    forget_names(names, count, operator);
    let BinaryOperands { left, place, right } = operands;
    close_right(code, span, operator, place)?;
    Ok(Lowered {
        value: Some(binary_type(operator)),
        depth: left.depth.max(operand_depth(operator, right.depth)?),
        olds: right.olds,
        slots: left.slots.max(right.slots),
    })
}
