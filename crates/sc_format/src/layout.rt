//! Which white space comes before a token, by the tokens before it.

ghost use Rattle.std.specs.Prelude.{◌≡◌};
ghost use Rattle.sc_format.specs.Layout as spec;

use crate::role::Role;

/// How a token follows the one before it.
#[derive(Clone, Copy)]
pub enum Lead {
    /// With nothing between, if the two then stay two tokens.
    Close,
    /// After a space.
    Apart,
    /// On a line of its own.
    Line,
}

/// Whether an empty line comes before a token's line.
#[derive(Clone, Copy)]
pub enum Blank {
    Never,
    /// If one came before it.
    Kept,
    Always,
    /// At the start of the text: none at its very beginning.
    Start,
}

/// Which white space comes before a token.
#[derive(Clone, Copy)]
pub struct Want {
    pub lead: Lead,
    /// How many tabs the token's line begins with, and that of each comment before it.
    pub indent: usize,
    pub blank: Blank,
}

/// The part of the text that a token is in.
#[derive(Clone, Copy)]
pub enum Place {
    /// Before a class.
    Outside,
    /// At the name of a class.
    Head,
    /// At notes, parents, creation procedures or features.
    List,
    /// At the names after `redefine`.
    Redefined,
    Invariant,
    /// At the contracts or locals of a routine.
    Clauses,
    /// At the instructions of a routine.
    Body,
}

/// How the token before binds the next one.
#[derive(Clone, Copy)]
pub enum Before {
    /// The next token begins a line.
    Opening,
    /// It does if it begins an expression, a declaration or an instruction.
    Operand,
    Operator,
    /// `then` and `else` go on with what `and` and `or` begin.
    Connective,
    /// It comes close.
    Opener,
    /// It may begin the tag of a type: `separate` came before it.
    Separate,
    /// It is in the tag of a type, and comes close.
    Tag,
}

/// What the layout depends on.
#[derive(Clone, Copy)]
pub struct State {
    pub place: Place,
    /// How many blocks are around a token of a body.
    pub depth: u8,
    /// How many brackets are around it.
    pub brackets: u8,
    pub before: Before,
}

/// The state at the start of a text.
pub const START: State = State {
    place: Place::Outside,
    depth: 0,
    brackets: 0,
    before: Before::Opening,
};

/// The most blocks or brackets that are counted.
const MOST: u8 = 64;

fn deeper(depth: u8) -> u8
    ensures { result ≡ spec.deeper depth }
{
    if depth < MOST { depth + 1 } else { depth }
}

fn shallower(depth: u8) -> u8
    ensures { result ≡ spec.shallower depth }
{
    if depth > 0 { depth - 1 } else { 0 }
}

/// How many tabs come before what a list or a body has as its items.
fn item_indent(state: &State) -> usize
    ensures { result ≡ spec.item_indent state.now }
{
    match state.place {
        Place::Outside | Place::Head => 0,
        Place::List | Place::Redefined | Place::Invariant => 1,
        Place::Clauses => 3,
        Place::Body => 3 + usize::from(state.depth),
    }
}

fn line(indent: usize, blank: Blank) -> Want
    ensures { result ≡ spec.line indent blank }
{
    Want {
        lead: Lead::Line,
        indent,
        blank,
    }
}

/// On the line of the token before.
fn inline(state: &State) -> Want
    ensures { result ≡ spec.inline state.now }
{
    let lead = match state.before {
        Before::Opener | Before::Tag => Lead::Close,
        _ => Lead::Apart,
    };
    Want {
        lead,
        indent: item_indent(state) + 1,
        blank: Blank::Kept,
    }
}

/// Close to the token before.
fn close(state: &State) -> Want
    ensures { result ≡ spec.close state.now }
{
    Want {
        lead: Lead::Close,
        indent: item_indent(state) + 1,
        blank: Blank::Kept,
    }
}

/// On a line of its own, as the first token of a part of a class.
fn section(state: &State) -> Want
    ensures { result ≡ spec.section state.now }
{
    match state.place {
        Place::Outside => line(0, Blank::Always),
        _ => line(0, Blank::Kept),
    }
}

/// On a line of its own at the depth of the innermost block.
fn block_line(state: &State) -> Want
    ensures { result ≡ spec.block_line state.now }
{
    line(3 + usize::from(shallower(state.depth)), Blank::Never)
}

/// Whether a token begins an item, if `begins` says whether it may come first after an operand.
fn is_item(state: &State, begins: bool) -> bool
    ensures { result ≡ spec.is_item state.now begins }
{
    match state.before {
        Before::Opening => state.brackets == 0,
        Before::Operand => begins && state.brackets == 0,
        _ => false,
    }
}

fn item(state: &State, begins: bool) -> Want
    ensures { result ≡ spec.item state.now begins }
{
    if is_item(state, begins) {
        line(item_indent(state), Blank::Kept)
    } else {
        inline(state)
    }
}

/// Where `end` stands.
fn end_want(state: &State) -> Want
    ensures { result ≡ spec.end_want state.now }
{
    match state.place {
        Place::Redefined => inline(state),
        Place::Clauses => line(2, Blank::Never),
        Place::Body => {
            if state.depth == 0 {
                line(2, Blank::Never)
            } else {
                block_line(state)
            }
        }
        _ => line(0, Blank::Never),
    }
}

fn is_body(place: Place) -> bool
    ensures { result ≡ spec.is_body place }
{
    matches!(place, Place::Body)
}

fn is_list(place: Place) -> bool
    ensures { result ≡ spec.is_list place }
{
    matches!(place, Place::List)
}

/// Where a token stands that goes on with a connective, or begins a part of a block.
fn branch_want(state: &State) -> Want
    ensures { result ≡ spec.branch_want state.now }
{
    match state.before {
        Before::Connective => inline(state),
        _ => block_line(state),
    }
}

/// Where `class` stands, or the word before it.
fn class_want(state: &State) -> Want
    ensures { result ≡ spec.class_want state.now }
{
    match state.before {
        Before::Operator => inline(state),
        _ => section(state),
    }
}

/// Which white space comes before a token.
pub fn want_of(state: &State, role: Role) -> Want
    ensures { result ≡ spec.want_of state.now role }
{
    match role {
        Role::Section | Role::Invariant => section(state),
        Role::Class => class_want(state),
        Role::Create if !is_body(state.place) => section(state),
        Role::Part => line(2, Blank::Never),
        Role::Do if !is_body(state.place) => line(2, Blank::Never),
        Role::End => end_want(state),
        Role::Elseif | Role::Middle => block_line(state),
        Role::Else => branch_want(state),
        Role::Do | Role::Then | Role::Redefine => inline(state),
        Role::OpenBrace if is_list(state.place) => inline(state),
        Role::CloseParenthesis | Role::CloseBrace | Role::Dot => close(state),
        Role::Semicolon | Role::Separator => close(state),
        Role::Operand | Role::Prefix | Role::Create => item(state, true),
        Role::If | Role::Block | Role::Separate => item(state, true),
        _ => item(state, false),
    }
}

/// The state with another word on the token before.
fn with(state: &State, before: Before) -> State
    ensures { result ≡ spec.with state.now before }
{
    State { before, ..*state }
}

/// At the beginning of a part of the text.
fn within(place: Place, before: Before) -> State
    ensures { result ≡ spec.within place before }
{
    State {
        place,
        depth: 0,
        brackets: 0,
        before,
    }
}

fn at_depth(state: &State, depth: u8, before: Before) -> State
    ensures { result ≡ spec.at_depth state.now depth before }
{
    State {
        depth,
        before,
        ..*state
    }
}

fn in_brackets(state: &State, brackets: u8, before: Before) -> State
    ensures { result ≡ spec.in_brackets state.now brackets before }
{
    State {
        brackets,
        before,
        ..*state
    }
}

/// The state after `end`.
fn after_end(state: &State) -> State
    ensures { result ≡ spec.after_end state.now }
{
    match state.place {
        Place::Redefined | Place::Clauses => within(Place::List, Before::Operand),
        Place::Body => {
            if state.depth == 0 {
                within(Place::List, Before::Operand)
            } else {
                at_depth(state, shallower(state.depth), Before::Operand)
            }
        }
        _ => within(Place::Outside, Before::Opening),
    }
}

/// The state after `do`.
fn after_do(state: &State) -> State
    ensures { result ≡ spec.after_do state.now }
{
    if is_body(state.place) {
        with(state, Before::Opening)
    } else {
        within(Place::Body, Before::Opening)
    }
}

/// The state after `then` or `else`.
fn after_branch(state: &State) -> State
    ensures { result ≡ spec.after_branch state.now }
{
    match state.before {
        Before::Connective => with(state, Before::Operator),
        _ => with(state, Before::Opening),
    }
}

/// The state after `separate`.
fn after_separate(state: &State) -> State
    ensures { result ≡ spec.after_separate state.now }
{
    if is_body(state.place) && is_item(state, true) {
        at_depth(state, deeper(state.depth), Before::Operator)
    } else {
        with(state, Before::Separate)
    }
}

/// The state after `}`.
fn after_brace(state: &State) -> State
    ensures { result ≡ spec.after_brace state.now }
{
    let before = if is_list(state.place) {
        Before::Opening
    } else {
        Before::Operator
    };
    in_brackets(state, shallower(state.brackets), before)
}

/// The state after `;`.
fn after_semicolon(state: &State) -> State
    ensures { result ≡ spec.after_semicolon state.now }
{
    if state.brackets == 0 {
        with(state, Before::Opening)
    } else {
        with(state, Before::Operator)
    }
}

/// The state after `<`.
fn after_less(state: &State) -> State
    ensures { result ≡ spec.after_less state.now }
{
    match state.before {
        Before::Separate => with(state, Before::Tag),
        _ => with(state, Before::Operator),
    }
}

/// The state after a token that isn't in the tag of a type.
fn after_untagged(state: &State, role: Role) -> State
    ensures { result ≡ spec.after_untagged state.now role }
{
    match role {
        Role::Section => within(Place::List, Before::Opening),
        Role::Invariant => within(Place::Invariant, Before::Opening),
        Role::Class => within(Place::Head, Before::Operator),
        Role::Create if !is_body(state.place) => within(Place::List, Before::Opening),
        Role::Redefine => within(Place::Redefined, Before::Operator),
        Role::Part => within(Place::Clauses, Before::Opening),
        Role::Do => after_do(state),
        Role::End => after_end(state),
        Role::If => at_depth(state, deeper(state.depth), Before::Operator),
        Role::Block => at_depth(state, deeper(state.depth), Before::Opening),
        Role::Separate => after_separate(state),
        Role::Middle => with(state, Before::Opening),
        Role::Else | Role::Then => after_branch(state),
        Role::Connective => with(state, Before::Connective),
        Role::OpenParenthesis | Role::OpenBrace => {
            in_brackets(state, deeper(state.brackets), Before::Opener)
        }
        Role::CloseParenthesis => { in_brackets(state, shallower(state.brackets), Before::Operand) }
        Role::CloseBrace => after_brace(state),
        Role::Dot | Role::Sign => with(state, Before::Opener),
        Role::Semicolon => after_semicolon(state),
        Role::Less => after_less(state),
        Role::Operand => with(state, Before::Operand),
        _ => with(state, Before::Operator),
    }
}

/// The state after a token.
pub fn after(state: &State, role: Role) -> State
    ensures { result ≡ spec.after state.now role }
{
    match (state.before, role) {
        (Before::Tag, Role::Greater) => with(state, Before::Operator),
        (Before::Tag, _) => *state,
        _ => after_untagged(state, role),
    }
}
