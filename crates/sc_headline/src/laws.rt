//! Laws of worlds and replays, from the bytes of a source text on, each the contract of a function that does nothing.
ghost use Rattle.sc_headline.specs.Audited.{AuditedWorldsHaveHeadline};
ghost use Rattle.sc_headline.specs.Everywhere.{HasHeadlineAnyhow};
ghost use Rattle.sc_headline.specs.Exactly.{AuditsAreExact, OneWorld, RunsAreAnsweredYes};
ghost use Rattle.sc_headline.specs.Headline.{Headline, MachineHeadline, ReplaysAreTheMachines, RunsAreTheMachines};
ghost use Rattle.sc_headline.specs.Searched.{FoundOrdersAreTheMachines, SearchesGiveUpAtLimits, StuckHaveNoTurn, WholeSearchesFindAll};
ghost use Rattle.sc_headline.specs.ThreadsHeadline.{ThreadsHaveHeadline, ThreadsMakeTurns, ThreadsReportAsMachine};
ghost use Rattle.sc_world.specs.Views.{world_of};

use sc_driver::laws::{misfits_are_no_record, one_misfit, runs_audit_yes};
use sc_movers::laws::turns_are_movers;
use sc_plant::laws::runs_are_one_threads;
use sc_refines_world::laws::{
    anew_runs_as_machine, attempts_have_headline, idle_world_is_idle, machine_has_headline,
    standing_world_is_near, world_has_headline, world_reports_as_machine, world_runs_as_machine,
};
use sc_refines_world::once::runs_are_functional;
use sc_request::laws::core_picks_where_the_machine_turns;
use sc_world::World;
use sc_world::laws::{
    attempts_stay_of_their_program, kept_alike_read_alike, openings_are_of_their_program,
    runs_stay_of_their_program,
};

/// For every source text that is accepted, and whatever handlers make turns, in every order, of the state that the machine on
/// trees reaches: requests are posted under a right, taken once and in order, and none is dropped but by a failure; the handlers of
/// formals and of open separate blocks are held; each frame runs on an object of its own handler, with the formals and locals that
/// its text declares; each reference leads to an object, each value fits its type, and whatever is typed non-separate belongs to its
/// own handler; bodies start where their preconditions hold, and no otherwise; and each settled object meets its class invariant.
pub fn machine_headline()
    ensures { MachineHeadline }
{
    machine_has_headline();
}

/// The headline: the world of an accepted text's program, after any turns, represents such a state.
pub fn headline()
    ensures { Headline }
{
    world_has_headline();
}

/// For every source text that is accepted, it is so of any world of the text's program that there is, whatever turns were made and
/// whatever turns were refused memory: the world is near a state that the machine on trees reaches, and of that state the
/// headline holds.
pub fn every_world_has_headline(world: &World<'_>)
    ensures { HasHeadlineAnyhow (world_of world.now) }
{
    attempts_have_headline();
    openings_are_of_their_program();
    attempts_stay_of_their_program();
    let _world = world;
}

/// What a replay of a record leaves is what the machine on trees reports after the turns of the record's lines.
pub fn replays_are_the_machines()
    ensures { ReplaysAreTheMachines }
{
    world_runs_as_machine();
    standing_world_is_near();
    world_reports_as_machine();
}

/// What a run leaves is what the machine on trees reports after the turns of its record's lines. Each of these is a
/// turn that its handler has in the machine, in the state to which those before it lead: at most as many as the limit
/// says, and fewer only if no handler has a turn any more or the lines are 1,000,000.
pub fn runs_are_the_machines()
    ensures { RunsAreTheMachines }
{
    world_runs_as_machine();
    core_picks_where_the_machine_turns();
    idle_world_is_idle();
    standing_world_is_near();
    world_reports_as_machine();
}

/// For every source text that is accepted, and in whatever order the threads of a run make their turns: what the run
/// leaves is what one thread leaves that makes the turns of the record's lines. It represents a state that the
/// machine on trees reaches, and the headline holds of that state.
pub fn threads_have_headline()
    ensures { ThreadsHaveHeadline }
{
    headline();
    runs_are_one_threads();
}

/// What a run on several threads leaves is what the machine on trees reports after the turns of the record's lines.
pub fn threads_report_as_machine()
    ensures { ThreadsReportAsMachine }
{
    replays_are_the_machines();
    runs_are_one_threads();
}

/// And each of these turns is one that its handler has in the machine, in the state to which those before it lead.
pub fn threads_make_turns()
    ensures { ThreadsMakeTurns }
{
    world_runs_as_machine();
    core_picks_where_the_machine_turns();
    runs_are_one_threads();
}

/// For every source text that is accepted, if an audit says yes to what a run of its program left: the turns of the
/// record lead to a world that has the same of each handler. It represents a state that the machine on trees reaches,
/// and the headline holds of that state.
pub fn audited_worlds_have_headline()
    ensures { AuditedWorldsHaveHeadline }
{
    headline();
}

/// For every source text that is accepted: from the opening of its program, turns of the same handlers in the same
/// order lead to one world.
pub fn worlds_are_one()
    ensures { OneWorld }
{
    runs_are_functional();
}

/// So the answer of an audit holds for each run of the record: it says yes exactly if the record is one and its run
/// ends in what is left, A2 exactly if its run differs from that, first at this handler, and A1 exactly if this line
/// is the first that doesn't fit. If memory ran out as the record was played, it says that.
pub fn audits_are_exact()
    ensures { AuditsAreExact }
{
    worlds_are_one();
    misfits_are_no_record();
    one_misfit();
}

/// So it says yes to what a run of the text's program left, which may have had no more than 10,000,000 turns.
pub fn runs_are_answered_yes()
    ensures { RunsAreAnsweredYes }
{
    worlds_are_one();
    misfits_are_no_record();
    one_misfit();
    runs_audit_yes();
}

/// For every source text that is accepted: the turns of an order that a search found lead the machine on trees to a
/// state from which some handler waits for good, whatever others do, or in which one has failed or refused a request.
pub fn found_orders_are_the_machines()
    ensures { FoundOrdersAreTheMachines }
{
    anew_runs_as_machine();
    kept_alike_read_alike();
    standing_world_is_near();
    world_reports_as_machine();
}

/// For every source text that is accepted: if a search of its program played every order and found none, no list of handler numbers,
/// of any length, leads the machine on trees to a state from which some handler waits for good, or in which one has
/// failed, or one has refused a request, whichever was looked for.
pub fn whole_searches_find_all()
    ensures { WholeSearchesFindAll }
{
    anew_runs_as_machine();
    kept_alike_read_alike();
    standing_world_is_near();
    world_reports_as_machine();
    turns_are_movers();
    openings_are_of_their_program();
    runs_stay_of_their_program();
}

/// For every source text that is accepted: where a search of its program gives up, it has met as many states as it may keep, or has
/// played as many turns as go with them, or what it keeps takes more bytes than it may, or memory ran out. No order has led it to two
/// worlds.
pub fn searches_give_up_at_limits()
    ensures { SearchesGiveUpAtLimits }
{
    worlds_are_one();
}

/// Where the handlers of the machine are stuck, none has a turn.
pub fn stuck_have_no_turn()
    ensures { StuckHaveNoTurn }
{}
