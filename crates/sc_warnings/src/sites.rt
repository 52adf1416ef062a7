//! What stands in expressions, as far as a warning asks for it.

ghost use Rattle.std.specs.Prelude.{◌≡◌, ◌∷◌, [], bytes_eq, map};
ghost use Rattle.std.specs.List.{list_any};
ghost use Rattle.std.specs.Option.{option_map};
ghost use Rattle.sc_tree.specs.Plain as plain;
ghost use Rattle.sc_tree.specs.View.{expr_of, exprs_of, name_of, target_of};
ghost use Rattle.sc_warnings.specs.Sites as spec;
ghost use Rattle.sc_warnings.specs.Views.{Adds, site_of};

use sc_tree::{Call, Expr, Name};
use std::alloc::AllocError;

/// What stands in a text, as far as a warning asks for it.
#[derive(Clone, Copy)]
pub enum Site<'s> {
    /// A name without a target, in an expression or as what is created.
    Used(&'s str),
    /// A name that is the target of a call.
    Asked(&'s str),
    /// An actual: the name of the feature that is called, how many actuals are before it, and whether it is a name whose
    /// handler is reserved there.
    Passed(&'s str, usize, bool),
    /// The condition of an `if` or an `elseif`.
    Condition(&'s Expr),
    /// The condition that ends a loop.
    Until(&'s Expr),
    /// A clause of a `check`.
    Checked(&'s Expr),
}

/// Adds one.
pub fn add_site<'s>(site: Site<'s>, sites: &mut Vec<Site<'s>>) -> Result<(), AllocError>
    ensures { Adds sites.old.items sites.new.items (site_of site.entry ∷ []) result }
{
    sites.push(site)?;
    Ok(())
}

/// Whether both hold, or neither does.
fn is_same_truth(one: bool, other: bool) -> bool
    ensures { result ≡ spec.same_truth one other }
{
    if one { other } else { !other }
}

/// Whether it is this name without a target.
fn is_use(name: &str, site: &Site) -> bool
    ensures { result ≡ spec.is_same (spec.used name.now) (site_of site.now) }
{
    match site {
        Site::Used(used) => name == *used,
        Site::Asked(_) | Site::Passed(_, _, _) => false,
        Site::Condition(_) | Site::Until(_) | Site::Checked(_) => false,
    }
}

/// Whether it is this name as the target of a call.
fn is_asking(name: &str, site: &Site) -> bool
    ensures { result ≡ spec.is_same (spec.asked name.now) (site_of site.now) }
{
    match site {
        Site::Asked(asked) => name == *asked,
        Site::Used(_) | Site::Passed(_, _, _) => false,
        Site::Condition(_) | Site::Until(_) | Site::Checked(_) => false,
    }
}

/// Whether it is the actual of this number in a call of a feature of this name, with or without a reserved handler.
fn is_passing(feature: &str, index: usize, is_reserved: bool, site: &Site) -> bool
    ensures { result ≡ spec.is_same (spec.passed feature.now index is_reserved) (site_of site.now) }
{
    match site {
        Site::Passed(called, number, reserved) => {
            feature == *called && index == *number && is_same_truth(is_reserved, *reserved)
        }
        Site::Used(_) | Site::Asked(_) => false,
        Site::Condition(_) | Site::Until(_) | Site::Checked(_) => false,
    }
}

/// Whether both are one name, or one actual.
fn is_same(wanted: Site, site: &Site) -> bool
    ensures { result ≡ spec.is_same (site_of wanted.entry) (site_of site.now) }
{
    match wanted {
        Site::Used(name) => is_use(name, site),
        Site::Asked(name) => is_asking(name, site),
        Site::Passed(feature, index, is_reserved) => is_passing(feature, index, is_reserved, site),
        Site::Condition(_) | Site::Until(_) | Site::Checked(_) => false,
    }
}

/// Whether one of these is this name or this actual.
pub fn has(wanted: Site, sites: &[Site]) -> bool
    ensures { result ≡ spec.has (site_of wanted.entry) (map site_of sites.now) }
{
    for site in sites {
        if is_same(wanted, site) {
            return true;
        }
    }
    false
}

/// The name that a call is, if it is nothing else.
fn plain_call<'s>(call: &'s Call) -> Option<&'s str>
    ensures { option_map (λ name. name.now) result ≡ spec.plain_name (plain.Call call.now.span
        (target_of call.now.target) (name_of call.now.name) (exprs_of call.now.actuals.items)) }
{
    match &call.target {
        Some(_) => None,
        None => match call.actuals.as_slice() {
            [] => Some(call.name.as_str()),
            [_, ..] => None,
        },
    }
}

/// The name that an expression is, if it is nothing else.
#[tactic(auto, unfolding(sc_tree::specs::View::expr_of))]
fn plain_name<'s>(e: &'s Expr) -> Option<&'s str>
    ensures { option_map (λ name. name.now) result ≡ spec.plain_name (expr_of e.now) }
{
    match e {
        Expr::Call(call) => plain_call(call),
        Expr::Integer(_, _) | Expr::Boolean(_, _) => None,
        Expr::Void(_) | Expr::Current(_) | Expr::Result(_) => None,
        Expr::Unary(_, _, _) | Expr::Binary(_, _, _, _) | Expr::ObjectTest(_, _, _, _) => None,
    }
}

/// Whether a name is one of these.
fn is_among(names: &[&str], name: &str) -> bool
    ensures { result ≡ list_any (bytes_eq name.now) (map (λ name. name.now) names.now) }
{
    for known in names {
        if name == *known {
            return true;
        }
    }
    false
}

/// Whether an expression is one of the names whose handlers are reserved.
fn is_reserved(names: &[&str], e: &Expr) -> bool
    ensures { result ≡ spec.is_reserved (map (λ name. name.now) names.now) (expr_of e.now) }
{
    match plain_name(e) {
        None => false,
        Some(name) => is_among(names, name),
    }
}

/// Adds the actuals of a call of this feature.
pub fn add_passing<'s>(
    names: &[&'s str],
    feature: &'s str,
    actuals: &'s [Expr],
    sites: &mut Vec<Site<'s>>,
) -> Result<(), AllocError>
    ensures { Adds sites.old.items sites.new.items (spec.sites_of_passing (map (λ name. name.now) names.now) feature.now 0
        (exprs_of actuals.now)) result }
{
    for index in 0..actuals.len() {
        let is_reserved = is_reserved(names, &actuals[index]);
        add_site(Site::Passed(feature, index, is_reserved), sites)?;
    }
    Ok(())
}

/// Adds the name that is asked, if what is before the dot of a call is one.
fn add_asked<'s>(target: &'s Expr, sites: &mut Vec<Site<'s>>) -> Result<(), AllocError>
    ensures { Adds sites.old.items sites.new.items (spec.asked_if_any (spec.plain_name (expr_of target.now))) result }
{
    match plain_name(target) {
        None => Ok(()),
        Some(name) => add_site(Site::Asked(name), sites),
    }
}

/// Adds what is before the dot of a call, or its name.
#[cycle(expressions)]
#[tactic(auto, unfolding(crate::specs::Sites::sites_of), using(crate::proofs::Added::added_two))]
fn add_target<'s>(
    names: &[&'s str],
    target: &'s Option<Box<Expr>>,
    name: &'s Name,
    sites: &mut Vec<Site<'s>>,
) -> Result<(), AllocError>
    ensures { Adds sites.old.items sites.new.items (spec.sites_of_target (map (λ name. name.now) names.now)
        (target_of target.now) (name_of name.now)) result }
{
    match target {
        None => add_site(Site::Used(name.as_str()), sites),
        Some(target) => {
            add_asked(target, sites)?;
            add_expression(names, target, sites)
        }
    }
}

/// Adds what stands in expressions, one after the other.
#[cycle(expressions)]
pub fn add_each<'s>(
    names: &[&'s str],
    actuals: &'s [Expr],
    sites: &mut Vec<Site<'s>>,
) -> Result<(), AllocError>
    ensures { Adds sites.old.items sites.new.items (spec.sites_of_each (map (λ name. name.now) names.now)
        (exprs_of actuals.now)) result }
{
    for actual in actuals {
        add_expression(names, actual, sites)?;
    }
    Ok(())
}

/// Adds what stands in a call.
#[cycle(expressions)]
#[tactic(auto, using(crate::proofs::Added::added_three))]
pub fn add_call<'s>(
    names: &[&'s str],
    call: &'s Call,
    sites: &mut Vec<Site<'s>>,
) -> Result<(), AllocError>
    ensures { Adds sites.old.items sites.new.items (spec.sites_of_call (map (λ name. name.now) names.now)
        (target_of call.now.target) (name_of call.now.name) (exprs_of call.now.actuals.items)) result }
{
    add_target(names, &call.target, &call.name, sites)?;
    add_passing(names, call.name.as_str(), &call.actuals, sites)?;
    add_each(names, &call.actuals, sites)
}

/// Adds what stands in an expression.
#[cycle(expressions)]
#[tactic(auto, unfolding(crate::specs::Sites::sites_of, sc_tree::specs::View::expr_of), using(crate::proofs::Added::added_two))]
pub fn add_expression<'s>(
    names: &[&'s str],
    e: &'s Expr,
    sites: &mut Vec<Site<'s>>,
) -> Result<(), AllocError>
    ensures { Adds sites.old.items sites.new.items (spec.sites_of (map (λ name. name.now) names.now) (expr_of e.now))
        result }
{
    match e {
        Expr::Integer(_, _) | Expr::Boolean(_, _) => Ok(()),
        Expr::Void(_) | Expr::Current(_) | Expr::Result(_) => Ok(()),
        Expr::Call(call) => add_call(names, call, sites),
        Expr::Unary(_, _, operand) => add_expression(names, operand, sites),
        Expr::Binary(_, _, left, right) => {
            add_expression(names, left, sites)?;
            add_expression(names, right, sites)
        }
        Expr::ObjectTest(_, _, tested, _) => add_expression(names, tested, sites),
    }
}
